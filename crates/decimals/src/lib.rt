// A number in decimal, its digits alone, written into lent bytes by the digits and the weights of a field (rule 24.2). It is written where
// the text goes on, and the text goes on after it.
#![tactic(auto)]

ghost use Rattle.std.specs.Prelude.{◌≡◌, ◌+◌, ◌≤◌, length};
ghost use Rattle.rules.specs.Lists.{joined};
ghost use Rattle.texts.specs.Decimals.{has_digit, digit_if, decimal};
ghost use Rattle.texts.specs.Fields.{weights};
ghost use Rattle.fields.specs.Texts.{Puts};
ghost use Rattle.fields.specs.Wrote.{Wrote};

use fields::Text;

// A number has a digit at a weight: from its first digit on, and at the last place.
fn has_digit(value: u32, weight: u32) -> bool
    ensures { result ≡ has_digit value weight }
{
    weight <= value || weight == 1
}

// The digit of a number at a weight, nothing before its first digit, put at a place; the place after it. The place goes in and comes back by value, so
// that it is not read again for each digit: for all that the compiler knows, a write to the lent bytes changes the text's own fields.
fn put_digit(out: &mut [u8], at: usize, value: u32, weight: u32) -> usize
    requires { (1 ≤ weight) × (at + length (digit_if value weight) ≤ length out.old) }
    ensures { Wrote out.old at out.new result (digit_if value weight) }
{
    if has_digit(value, weight) {
        out[at] = fields::numeral(value, weight);
        at + 1
    } else {
        at
    }
}

// A number in decimal, its digits alone.
pub fn put_decimal(text: &mut Text, value: u32)
    requires { text.old.at + length (decimal value) ≤ length text.old.out.now }
    ensures { Puts text.old text.new (decimal value) }
{
    let out = &mut *text.out;
    let second = put_digit(out, text.at, value, 1000000000);
    let mut next = put_digit(out, second, value, 100000000);
    for weight in &fields::WEIGHTS {
        next = put_digit(out, next, value, *weight);
    }
    text.at = next;
}
