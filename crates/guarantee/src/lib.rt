// Demand 3 (rules 9.5 to 9.12, 9.18, 9.19) through the functions that are shipped: a list of run calls is played on the fresh record of a table and its
// planned order, by `planner::plan`, `record::fresh`, `Run::slot` and `forward::forward`.
#![tactic(auto)]

ghost use Rattle.std.specs.Prelude.{◌≡◌, ◌+◌, ◌≤◌, ◌<◌, length, get_or};
ghost use Rattle.rules.specs.Calls.{one, forward};
ghost use Rattle.guarantee.specs.Playing.{make};
ghost use Rattle.guarantee.specs.Encoding.{call_at, next_at, calls_in};
ghost use Rattle.guarantee.specs.Shown.{Turned, Answered, Shown, noted};

use record::Run;
use rules::{Planning, Table};

// What one call said, its number and its value (the row that ran, or the slots worked), and the record that it left.
#[derive(Clone, Copy)]
struct Turn {
    number: u32,
    value: u32,
    run: Run,
}

// The planner's answer, and the record that the last call left.
#[derive(Clone, Copy)]
pub struct Played {
    pub planning: Planning,
    pub run: Run,
}

// Works one slot with a supply in work units (rule 8.9).
fn one_call(run: Run, supply: u32) -> Turn
    ensures { Turned result (make (one supply) run) }
{
    let stepped = run.slot(supply);
    let said = numbers::slot_numbers(stepped.answer);
    Turn {
        number: said.number,
        value: said.value,
        run: stepped.run,
    }
}

// Works the record forward over supplies in work units (rule 8.10); `forwarded` lends it to `forward`.
fn forward_call(run: Run, supplies: &[u32]) -> Turn
    ensures { Turned result (make (forward supplies.now) run) }
{
    let forwarded = forward::forwarded(run, supplies);
    let said = numbers::forward_numbers(forwarded.answer);
    Turn {
        number: said.number,
        value: said.value,
        run: forwarded.run,
    }
}

// The number at an index, 0 after the last.
fn number_at(calls: &[u32], i: usize) -> u32
    ensures { result ≡ get_or calls.now i 0 }
{
    calls.get(i).copied().unwrap_or(0)
}

// The index of the call after the one at i, as specs/Encoding reads numbers.
#[tactic(auto, unfolding(crate::specs::Encoding::next_at))]
fn next_at(calls: &[u32], i: usize) -> usize
    requires { i < length calls.now }
    ensures { result ≡ next_at calls.now i }
{
    let head = calls[i] as usize;
    let from = i + 1;
    let numbers = if head == 0 { 1 } else { head - 1 };
    from + numbers.min(calls.len() - from)
}

// Makes the call at index i.
fn call_at(run: Run, calls: &[u32], i: usize) -> Turn
    requires { i < length calls.now }
    ensures { Turned result (make (call_at calls.now i) run) }
{
    let from = i + 1;
    let to = next_at(calls, i);
    if calls[i] == 0 {
        one_call(run, number_at(calls, from))
    } else {
        forward_call(run, &calls[from..to])
    }
}

// Notes an answer at index k, where two numbers fit there.
fn note(said: &mut [u32], k: usize, number: u32, value: u32)
    requires { k + 2 ≤ length said.old }
    ensures { said.new ≡ noted said.old k number value }
{
    said[k] = number;
    said[k + 1] = value;
}

// Makes the calls one after another, each on the record that the last one left (rule 9.5), and notes what each said while there is room.
fn answered(mut run: Run, calls: &[u32], said: &mut [u32]) -> Run
    ensures { Answered (calls_in calls.now) run said.old said.new result }
{
    let mut i = 0;
    let mut k = 0;
    // a call takes as many numbers as it says, so that no range and no iterator counts i
    while i < calls.len() {
        let made = call_at(run, calls, i);
        run = made.run;
        if 2 <= said.len() - k {
            note(said, k, made.number, made.value);
            k += 2;
        }
        i = next_at(calls, i);
    }
    run
}

// Plans a table and plays a list of calls, given as numbers, on the fresh record with the order planned. What each call said, its number
// and its value, is noted in said while there is room.
pub fn play(t: Table, calls: &[u32], said: &mut [u32]) -> Played
    ensures { Shown t (calls_in calls.now) said.old said.new result }
{
    let planning = planner::plan(t);
    let fresh = record::fresh(t, planning.order);
    let run = answered(fresh.run, calls, said);
    Played { planning, run }
}
