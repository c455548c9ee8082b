// The composer: a planner's or a judge's answer as one English sentence, written into lent bytes (section 24 of the rules). Each function that puts
// something writes where the text goes on, and the text goes on after it; what it needs room for is what it writes.
#![tactic(auto)]

ghost use Rattle.std.specs.Prelude.{◌≡◌, ◌+◌, ◌≤◌, length, take};
ghost use Rattle.fields.specs.Texts.{Puts};
ghost use Rattle.sentences.specs.Sentences.{judged_words, judged_meaning, up_to_last, rows_in, plan_opening, plan_sentence, yes_or_no, slack_words, judge_opening, judge_sentence, compose_of};
ghost use Rattle.composer.specs.Lists.{RowsOf};

use fields::Text;
use rules::Writing;
use sentences::{JudgeAnswer, PlanAnswer};

// The bytes of the longest sentence, and of the longest of a judge's answer (rule 24.10).
pub const LONGEST: usize = 739;

pub const LONGEST_VERDICT: usize = 177;

// How many of the sixty-four numbers come up to and with the last one that is not 0.
fn places(order: [u8; 64]) -> usize
    ensures { (result ≤ 64) × (take result order ≡ up_to_last order) }
{
    let mut last: usize = 0;
    for i in 0..64 {
        if order[i] != 0 {
            last = i + 1;
        }
    }
    last
}

// Rows of a word: how many there are, and their numbers, zeros after the last. The numbers have sixty-four places, since no memory is asked for.
#[derive(Clone, Copy)]
struct Rows {
    many: usize,
    rows: [u8; 64],
}

// The rows of a word, the lowest first.
fn rows_of(word: u64) -> Rows
    ensures { RowsOf word result }
{
    let mut rows = [0u8; 64];
    let mut many: usize = 0;
    for row in 1..=64u8 {
        if sweep::has(word, row) {
            rows[many] = row;
            many += 1;
        }
    }
    Rows { many, rows }
}

// What stands before the trials in the planner's sentence.
#[tactic(auto, using(crate::proofs::Parts::plan_opening_long))]
fn put_plan_opening(text: &mut Text, number: u32)
    requires { text.old.at + length (plan_opening number) ≤ length text.old.out.now }
    ensures { Puts text.old text.new (plan_opening number) }
{
    text.put_bytes(b"The planner answers number ");
    decimals::put_decimal(text, number);
    text.put_bytes(b" (");
    phrases::put_meaning(text, number);
    text.put_bytes(b"): ");
}

// The planner's sentence.
#[tactic(auto, using(crate::proofs::Parts::plan_long))]
fn put_plan(text: &mut Text, answer: PlanAnswer)
    requires { text.old.at + length (plan_sentence answer) ≤ length text.old.out.now }
    ensures { Puts text.old text.new (plan_sentence answer) }
{
    let placed = places(answer.order);
    let left = rows_of(answer.left);
    put_plan_opening(text, answer.number);
    phrases::put_counted(text, answer.trials, b" trial");
    text.put_bytes(b", ");
    phrases::put_enumerated(
        text,
        b" row",
        b" in the order",
        b" (highest first: ",
        &answer.order[..placed],
    );
    text.put_bytes(b", ");
    phrases::put_enumerated(text, b" row", b" left", b" (", &left.rows[..left.many]);
    text.put_byte(b'.');
}

// Yes, no, or another value.
#[tactic(auto, unfolding(sentences::specs::Sentences::yes_or_no))]
fn put_yes_or_no(text: &mut Text, yes: u32)
    requires { text.old.at + length (yes_or_no yes) ≤ length text.old.out.now }
    ensures { Puts text.old text.new (yes_or_no yes) }
{
    match yes {
        1 => text.put_bytes(b"yes"),
        0 => text.put_bytes(b"no"),
        _ => {
            decimals::put_decimal(text, yes);
            text.put_bytes(b", neither yes nor no");
        }
    }
}

// What 0 of the judge means, with its yes or no.
fn judged_words(yes: u32) -> &'static [u8]
    ensures { result.now ≡ judged_words yes }
{
    match yes {
        1 => b"the order is correct",
        0 => b"the order is not correct",
        _ => b"an order was judged",
    }
}

// What a number of the judge means, with its yes or no.
#[tactic(auto, unfolding(sentences::specs::Sentences::judged_meaning))]
fn put_judged_meaning(text: &mut Text, number: u32, yes: u32)
    requires { text.old.at + length (judged_meaning number yes) ≤ length text.old.out.now }
    ensures { Puts text.old text.new (judged_meaning number yes) }
{
    if number == 0 {
        text.put_bytes(judged_words(yes));
    } else {
        phrases::put_meaning(text, number);
    }
}

// What stands before the row in the judge's sentence.
#[tactic(auto, using(crate::proofs::Parts::judge_opening_long))]
fn put_judge_opening(text: &mut Text, number: u32, yes: u32)
    requires { text.old.at + length (judge_opening number yes) ≤ length text.old.out.now }
    ensures { Puts text.old text.new (judge_opening number yes) }
{
    text.put_bytes(b"The judge says ");
    put_yes_or_no(text, yes);
    text.put_bytes(b" (number ");
    decimals::put_decimal(text, number);
    text.put_bytes(b", ");
    put_judged_meaning(text, number, yes);
    text.put_bytes(b"): ");
}

// A slack in slots: a minus if it is below 0, and its size with its noun.
fn put_slack(text: &mut Text, slack: i32)
    requires { text.old.at + length (slack_words slack) ≤ length text.old.out.now }
    ensures { Puts text.old text.new (slack_words slack) }
{
    if slack < 0 {
        text.put_byte(b'-');
    }
    phrases::put_counted(text, slack.unsigned_abs(), b" slot");
}

// The judge's sentence.
#[tactic(auto, using(crate::proofs::Parts::judge_long))]
fn put_judge(text: &mut Text, answer: JudgeAnswer)
    requires { text.old.at + length (judge_sentence answer) ≤ length text.old.out.now }
    ensures { Puts text.old text.new (judge_sentence answer) }
{
    put_judge_opening(text, answer.number, answer.yes);
    text.put_bytes(b"tightest row ");
    decimals::put_decimal(text, answer.row);
    text.put_bytes(b", slack ");
    put_slack(text, answer.slack);
    text.put_byte(b'.');
}

// A sentence that is made, copied to the start of lent bytes if there are enough.
fn hand_over(sentence: &[u8], out: &mut [u8]) -> Writing
    requires { length sentence.now ≤ 739 }
    ensures { let back = compose_of sentence.now out.old in (result ≡ back.said) × (out.new ≡ back.bytes) }
{
    match checks::check_room(sentence.len(), out.len()) {
        Err(why) => Writing {
            check: Err(why),
            size: 0,
        },
        Ok(()) => {
            let mut text = Text { out, at: 0 };
            text.put_bytes(sentence);
            Writing {
                check: Ok(()),
                size: text.at as u32,
            }
        }
    }
}

// The sentence of a planner's answer at the start of lent bytes, and its length; the bytes after it as they were. If the bytes are too few, 10, length 0
// and all bytes as they were (rule 24.9). LONGEST bytes are always enough (rule 24.10).
pub fn plan_sentence(answer: PlanAnswer, out: &mut [u8]) -> Writing
    ensures { let back = compose_of (plan_sentence answer) out.old in (result ≡ back.said) × (out.new ≡ back.bytes) }
{
    let mut made = [0u8; LONGEST];
    let mut text = Text {
        out: &mut made,
        at: 0,
    };
    put_plan(&mut text, answer);
    let size = text.at;
    hand_over(&made[..size], out)
}

// The same for a judge's answer. (Its sentence and its bytes are others: a function for both would take them as a closure and a const parameter, and
// be no shorter.)
pub fn judge_sentence(answer: JudgeAnswer, out: &mut [u8]) -> Writing
    ensures { let back = compose_of (judge_sentence answer) out.old in (result ≡ back.said) × (out.new ≡ back.bytes) }
{
    let mut made = [0u8; LONGEST_VERDICT];
    let mut text = Text {
        out: &mut made,
        at: 0,
    };
    put_judge(&mut text, answer);
    let size = text.at;
    hand_over(&made[..size], out)
}
