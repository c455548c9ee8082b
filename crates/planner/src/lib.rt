// The planner's choice (sections 4 and 23 of the rules): an order for a table, its lowest place first, or the rows left where none exists, with no more
// trials than a ceiling allows.
// The first row is row 1; the rows left are a word in which row i is bit i - 1 (rule 4.8). Entries of the trial sequence and places of the queue
// count from 0 where they are stored and as bits of a word, and from 1 where they are handed to functions on words.
#![tactic(auto)]

ghost use Rattle.std.specs.Prelude.{◌≡◌, min};
ghost use Rattle.rules.specs.Tables.{Accepted};
ghost use Rattle.ceiling.specs.Ceiling.{most_trials, counted_from, plan_within};
ghost use Rattle.planner.specs.Placing.{refused_after};
ghost use Rattle.planner.specs.Promise.{Promise};

use ceiling::Counted;
use periods::BusyPeriods;
use rules::{Plan, Planning, Refusal, Table};

// A refusal: an order of zeros, no row left, and the trials made (rules 23.5, 23.7).
fn refused(why: Refusal, trials: u32) -> Counted
    ensures { result ≡ refused_after why trials }
{
    let empty: [u8; 64] = [0; 64];
    let planning = Planning {
        answer: Err(why),
        order: empty,
    };
    Counted { planning, trials }
}

// The choice for an accepted table at a ceiling (rules 4.1 to 4.6, 4.11, 23.4 to 23.6). The place being filled is how many rows are left (rule 4.9), so that no
// range counts it. The entries of the rows left in the trial sequence are the unplaced ones, and of those that are tried at a place no more are searched than
// the ceiling has trials left. A placed row changes the busy period that it stood in, at either speed, and no other.
fn choose(t: Table, ceiling: u32) -> Counted
    requires { Accepted t }
    ensures { result ≡ counted_from ceiling t }
{
    let free = checks::zero_after(0, &t.follows);
    let w = trials::prepare(t);
    let normal = w.at_normal(&t);
    let parts = w.promises(&t);
    let mut order: [u8; 64] = [0; 64];
    let mut left = sweep::first_rows(t.n);
    let mut unplaced = left;
    let mut periods = BusyPeriods::unswept();
    let mut slow_periods = BusyPeriods::unswept();
    let mut made: u32 = 0;
    let mut place = sweep::how_many(left);
    while place > 0 {
        let tries = w.open_entries(&t, free, left, unplaced);
        let allowed = trials::first_entries(tries, ceiling - made);
        let found = match periods.first_low(&normal, &parts, left, allowed & w.low) {
            Some(entry) => Some(entry),
            None => slow_periods.first_in_time(&parts.slow, left, allowed & w.high),
        };
        let Some(entry) = found else {
            if allowed != tries {
                return refused(Refusal::TrialsOver, ceiling);
            }
            let planning = Planning {
                answer: Ok(Plan::NoOrder(left)),
                order: [0; 64],
            };
            return Counted {
                planning,
                trials: made + sweep::how_many(allowed),
            };
        };
        made += sweep::how_many(allowed & sweep::first_rows(entry as u32));
        let row = w.sequence[(entry - 1) as usize];
        order[(place - 1) as usize] = row;
        left = sweep::without(left, row);
        unplaced = sweep::without(unplaced, entry);
        place = sweep::how_many(left);
        periods.placed(row);
        slow_periods.placed(row);
    }
    let planning = Planning {
        answer: Ok(Plan::Ordered),
        order,
    };
    Counted {
        planning,
        trials: made,
    }
}

// The answer for any table at a ceiling: checks 3, 4, 11, 5, 12 and 13 to 15, then the choice (rule 11.11).
pub fn plan_within(t: Table, ceiling: u32) -> Counted
    ensures { result ≡ plan_within ceiling t }
{
    match checks::check_table(&t) {
        Err(why) => refused(why, 0),
        Ok(()) => choose(t, ceiling),
    }
}

// The most trials that n rows can take, of 64 rows where there are more (rule 23.3).
fn most_trials(n: u32) -> u32
    ensures { result ≡ most_trials (min n 64) }
{
    let rows = n.min(64);
    rows * (rows + 1) / 2
}

// The answer for any table, at a ceiling that is always enough (rules 11.3, 23.9).
pub fn plan(t: Table) -> Planning
    ensures { Promise t result }
{
    plan_within(t, most_trials(t.n)).planning
}
