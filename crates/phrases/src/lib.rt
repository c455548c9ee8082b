// Phrases: what a number means, counts with their nouns, and lists, written into lent bytes (rules 24.2 to 24.6). Each function writes where the
// text goes on, and the text goes on after it; what it needs room for is what it writes.
#![tactic(auto)]

ghost use Rattle.std.specs.Prelude.{◌≡◌, ◌+◌, ◌≤◌, length};
ghost use Rattle.fields.specs.Texts.{Puts};
ghost use Rattle.sentences.specs.Sentences.{meaning, counted, listed, enumerated};

use fields::Text;

// What a number means.
fn meaning(number: u32) -> &'static [u8]
    ensures { result.now ≡ meaning number }
{
    match number {
        0 => b"an order was made",
        1 => b"refused: the sheet has the wrong length",
        2 => b"refused: a field or a line end is malformed",
        3 => b"refused: the row count is beyond its limits",
        4 => b"refused: a speed is beyond its limits",
        5 => b"refused: a row is beyond its limits, or figures stand after the last",
        6 => b"refused: the numbers are not an order of the table",
        7 => b"no correct order exists",
        8 => b"refused: the clock is at its end",
        9 => b"refused: the run record is unsound",
        10 => b"refused: the memory lent is too short",
        11 => b"refused: the loading is beyond its limit",
        12 => b"refused: a promised part is beyond its limit",
        13 => b"refused: a row follows what is not a row above it",
        14 => b"refused: a row follows one that is released later",
        15 => b"refused: a HI row follows a LO row",
        16 => b"refused: the order to be committed is not correct",
        17 => b"refused: a row of the running sheet is open",
        18 => b"refused: a row is released before the clock",
        19 => b"refused: planning takes more trials than the ceiling",
        20 => b"refused: the table has more rows than can be counted",
        _ => b"a number without a meaning",
    }
}

// What a number means, put.
pub fn put_meaning(text: &mut Text, number: u32)
    requires { text.old.at + length (meaning number) ≤ length text.old.out.now }
    ensures { Puts text.old text.new (meaning number) }
{
    text.put_bytes(meaning(number));
}

// A figure and its noun, with an s unless the figure is 1.
pub fn put_counted(text: &mut Text, value: u32, noun: &[u8])
    requires { text.old.at + length (counted value noun.now) ≤ length text.old.out.now }
    ensures { Puts text.old text.new (counted value noun.now) }
{
    decimals::put_decimal(text, value);
    text.put_bytes(noun);
    if value != 1 {
        text.put_byte(b's');
    }
}

// A list: its opening, the entries, and its closing bracket; nothing if there are none.
fn put_listed(text: &mut Text, opening: &[u8], entries: &[u8])
    requires { text.old.at + length (listed opening.now entries.now) ≤ length text.old.out.now }
    ensures { Puts text.old text.new (listed opening.now entries.now) }
{
    if let [first, others @ ..] = entries {
        text.put_bytes(opening);
        decimals::put_decimal(text, *first as u32);
        for entry in others {
            text.put_bytes(b", ");
            decimals::put_decimal(text, *entry as u32);
        }
        text.put_byte(b')');
    }
}

// How many entries there are, and which.
pub fn put_enumerated(text: &mut Text, noun: &[u8], tail: &[u8], opening: &[u8], entries: &[u8])
    requires { (length entries.now ≤ 64) × (text.old.at + length (enumerated noun.now tail.now opening.now entries.now) ≤ length text.old.out.now) }
    ensures { Puts text.old text.new (enumerated noun.now tail.now opening.now entries.now) }
{
    put_counted(text, entries.len() as u32, noun);
    text.put_bytes(tail);
    put_listed(text, opening, entries);
}
