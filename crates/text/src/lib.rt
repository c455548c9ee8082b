// The text that the planning program writes for a sheet: lines of 8-byte fields, each line ended by byte 10 (section 12 of the rules).
// Each function writes where the text goes on, and the text goes on after it.
#![tactic(auto)]

ghost use Rattle.std.specs.Prelude.{◌≡◌, ◌+◌, ◌*◌, ◌≤◌, ◌<◌, length, take};
ghost use Rattle.rules.specs.Lists.{rows_to, joined};
ghost use Rattle.rules.specs.Tables.{Accepted};
ghost use Rattle.rules.specs.Choice.{plan_of};
ghost use Rattle.rules.specs.Plans.{Ordered};
ghost use Rattle.texts.specs.Sheets.{read_of};
ghost use Rattle.texts.specs.Program.{place_line, plan_text};
ghost use Rattle.fields.specs.Texts.{Puts};
ghost use Rattle.text.specs.Slacks.{Right, Timed};
ghost use Rattle.text.specs.Answers.{Answered};

use fields::Text;
use rules::{Plan, Reading, Table};

// The bytes kept of an input: one more than the longest sheet has.
pub const KEPT: usize = 3170;

// The bytes of the longest text: a first line of 17 and 64 lines of 25.
pub const LONGEST: usize = 1617;

// Tables are handed on by value here: lent ones are copied whole first, which takes more stack (tried).

// The line of a place, from 1: the place, its row, and that row's slack in slots. clocks has the clock that each row's slack counts from.
fn put_place(text: &mut Text, t: Table, order: [u8; 64], clocks: &[u32; 64], place: u32)
    requires { Timed t order clocks.now × (1 ≤ place) × (place ≤ t.n) × (text.old.at + 25 ≤ length text.old.out.now) }
    ensures { Puts text.old text.new (place_line t order place) }
{
    let row = order[(place - 1) as usize];
    let due = sweep::entry(&t.deadline, row);
    let clock = sweep::entry(clocks, row);
    text.put_line([place, row as u32, due - clock]);
}

// The lines of all places, highest first.
fn put_places(text: &mut Text, t: Table, order: [u8; 64], clocks: &[u32; 64])
    requires { Timed t order clocks.now × (text.old.at + 25 * t.n ≤ length text.old.out.now) }
    ensures { Puts text.old text.new (joined (place_line t order) (rows_to t.n)) }
{
    for k in 0..t.n {
        put_place(text, t, order, clocks, k + 1);
    }
}

// The text for a correct order: 0 and n, then the places.
fn put_order(text: &mut Text, t: Table, order: [u8; 64])
    requires { Right t order × (text.old.at + 1617 ≤ length text.old.out.now) }
    ensures { Puts text.old text.new (plan_text t order Ordered) }
{
    let clocks = judge::latest_clocks(t, order);
    text.put_line([0, t.n]);
    put_places(text, t, order, &clocks);
}

// The text for an accepted table: its order, or how many rows are left.
fn put_plan(text: &mut Text, t: Table)
    requires { Accepted t × (text.old.at + 1617 ≤ length text.old.out.now) }
    ensures { Puts text.old text.new (plan_text t (plan_of t).order (plan_of t).answer) }
{
    let planning = planner::plan(t);
    match planning.answer {
        Ok(Plan::Ordered) => put_order(text, t, planning.order),
        Ok(Plan::NoOrder(left)) => text.put_line([7, sweep::how_many(left)]),
        Err(why) => text.put_line([numbers::refusal_number(why), 0]),
    }
}

// What the bytes kept of an input say.
fn read_kept(input: &[u8]) -> Reading
    ensures { result ≡ read_of (take 3170 input.now) }
{
    sheet::read(&input[..input.len().min(KEPT)])
}

// The program's text for any input, at the start of the lent bytes, and how many bytes it has. The bytes after it stay as they were.
pub fn program(input: &[u8], out: &mut [u8; LONGEST]) -> usize
    ensures { Answered input.now out.old out.new result }
{
    let reading = read_kept(input);
    let mut text = Text { out, at: 0 };
    match reading.check {
        Ok(()) => put_plan(&mut text, reading.table),
        Err(why) => text.put_line([numbers::refusal_number(why), 0]),
    }
    text.at
}
