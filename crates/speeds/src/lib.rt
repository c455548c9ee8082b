// Least workable speeds (section 18 of the rules): how slow a processor may be, by plannings at other speeds. All speeds are in work units per
// slot. Correct orders stay correct at larger speeds, so that a search by halves finds the least.
#![tactic(auto)]

ghost use Rattle.std.specs.Prelude.{◌≡◌, ◌+◌, ◌-◌, ◌*◌, ◌/◌, ◌≤◌, eqb};
ghost use Rattle.rules.specs.Numbers.{planned_number};
ghost use Rattle.rules.specs.Tables.{Accepted};
ghost use Rattle.searches.specs.Speeds.{at_speed, slowest, fastest, least_speed, searched_at, search_refused};
ghost use Rattle.speeds.specs.Halving.{Halving};
ghost use Rattle.speeds.specs.Promise.{Promise, SheetPromise};

use rules::{Plan, Planned, Refusal, Searching, Sought, Table};

// What a search has found so far: no speed below `low` works; `high` works, with this order, or is the speed after the range, with an order of
// zeros. The least workable speed is from `low` to `high`.
#[derive(Clone, Copy)]
struct Between {
    low: u32,
    high: u32,
    order: [u8; 64],
}

// The table with another speed in place of the one sought (rule 18.1). Here and below by cases, as the definitions go: a closure would need its contract at
// each call.
fn at_speed(sought: Sought, t: Table, speed: u32) -> Table
    ensures { result ≡ at_speed sought t speed }
{
    let mut other = t;
    match sought {
        Sought::Degraded => {
            other.degraded = speed;
        }
        Sought::Normal => {
            other.normal = speed;
        }
    }
    other
}

// The first speed of the range (rule 18.2).
fn slowest(sought: Sought, t: Table) -> u32
    ensures { result ≡ slowest sought t }
{
    match sought {
        Sought::Degraded => 1,
        Sought::Normal => t.degraded,
    }
}

// The last speed of the range (rule 18.2).
fn fastest(sought: Sought, t: Table) -> u32
    ensures { result ≡ fastest sought t }
{
    match sought {
        Sought::Degraded => t.normal,
        Sought::Normal => 1000,
    }
}

// The planner made an order. Each case by its name: as `matches!` the proof has to name the cases.
#[tactic(auto, using(crate::specs::Halving::refused_number), unfolding(rules::specs::Numbers::planned_number))]
fn is_ordered(answer: Planned) -> bool
    ensures { result ≡ eqb (planned_number answer) 0 }
{
    match answer {
        Ok(Plan::Ordered) => true,
        Ok(Plan::NoOrder(_)) | Err(_) => false,
    }
}

// One planning at the middle speed leaves half of the speeds; where one speed is left, nothing is planned.
fn halved(sought: Sought, t: Table, between: Between) -> Between
    requires { Accepted t × Halving sought t between }
    ensures { Halving sought t result × (result.high - result.low ≤ (between.high - between.low) / 2) }
{
    let Between { low, high, order } = between;
    if low == high {
        return between;
    }
    let middle = low + (high - low) / 2;
    let planning = planner::plan(at_speed(sought, t, middle));
    let made = planning.order;
    if is_ordered(planning.answer) {
        Between {
            low,
            high: middle,
            order: made,
        }
    } else {
        Between {
            low: middle + 1,
            high,
            order,
        }
    }
}

// The search over the range of an accepted table (rules 18.3 to 18.5). At most 1,000 speeds and the answer that none works are 1,001 answers,
// of which ten halvings leave one: a search makes at most ten plannings.
fn search(sought: Sought, t: Table) -> Searching
    requires { Accepted t }
    ensures { result ≡ searched_at sought t (least_speed sought t) }
{
    let last = fastest(sought, t);
    let first = slowest(sought, t);
    let mut between = Between {
        low: first,
        high: last + 1,
        order: [0; 64],
    };
    for turn in 0..10u32 {
        between = halved(sought, t, between);
    }
    let Between {
        low: least,
        order,
        ..
    } = between;
    let found = if last < least { None } else { Some(least) };
    Searching {
        answer: Ok(found),
        order,
    }
}

// A refusal, with an order of zeros (rule 18.6).
fn refused(why: Refusal) -> Searching
    ensures { result ≡ search_refused why }
{
    Searching {
        answer: Err(why),
        order: [0; 64],
    }
}

// The answer for any table: checks 3, 4, 11, 5, 12 and 13 to 15 with the speeds as they stand, then the search (rules 11.8, 18.4 to 18.6).
pub fn least_speed(sought: Sought, t: Table) -> Searching
    ensures { Promise sought t result }
{
    match checks::check_table(&t) {
        Err(why) => refused(why),
        Ok(()) => search(sought, t),
    }
}

// The answer for any bytes: the reader's checks first, then the table of the sheet (rule 18.7).
pub fn sheet_speed(sought: Sought, sheet: &[u8]) -> Searching
    ensures { SheetPromise sought sheet.now result }
{
    let reading = sheet::read(sheet);
    match reading.check {
        Err(why) => refused(why),
        Ok(()) => least_speed(sought, reading.table),
    }
}
