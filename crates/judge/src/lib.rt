// The judge of orders: worst finishes, the clocks that slacks count from, slacks, the row of least slack, and the verdict on an order (section 7 of the rules).
// Rows count from 1; row i is bit i - 1 of a word and entry i - 1 of a column.
#![tactic(auto)]

ghost use Rattle.std.specs.Prelude.{Ok, ◌≡◌, map, ℕ, ◌≤◌, ◌<◌, ◌^◌, pos, ◌-ℤ◌, get_or};
ghost use Rattle.rules.specs.Checks.{Passed};
ghost use Rattle.rules.specs.Lists.{rows_to};
ghost use Rattle.rules.specs.Rows.{rows_of, need_of};
ghost use Rattle.rules.specs.Orders.{check_both};
ghost use Rattle.rules.specs.Worst.{worst_finish};
ghost use Rattle.rules.specs.Choice.{padded};
ghost use Rattle.rules.specs.Judge.{tightest, verdict_at, table_of};
ghost use Rattle.theory.specs.Promised.{latest};
ghost use Rattle.judge.specs.Least.{least_by, slack_in};
ghost use Rattle.judge.specs.Promise.{Judged};
ghost use Rattle.judge.specs.Gather.{no_rows, with_row};

use rules::{Judgement, Row, Table, Verdict};
use sweep::Workload;

// The rows of a table under an order, in slots, zeros after the last: each row's need at N, whatever its level, its worst finish, and the clock
// that its slack counts from. Columns, as a table has them, the report prints them and C is handed them.
#[derive(Clone, Copy)]
pub struct Times {
    pub need: [u32; 64],
    pub finish: [u32; 64],
    pub latest: [u32; 64],
}

// Each row's times under an order: from the top, each row with the rows above it.
// That table and order pass their checks is asked in a clause, here and below, and by no type: these calls are other crates' too (docs/GUARANTEES.md).
pub fn timed(t: Table, order: [u8; 64]) -> Times
    requires { check_both t order ≡ Passed }
    ensures { (result.need ≡ padded (map (need_of t) (rows_of t)))
        × (result.finish ≡ padded (map (worst_finish t order) (rows_of t)))
        × (result.latest ≡ padded (map (latest t order) (rows_of t))) }
{
    let n = t.n;
    let queue = sweep::sorted(&t.release, n);
    let need = sweep::needs(n, t.loading, &t.work, t.normal);
    let part = sweep::needs(n, t.loading, &t.promised, t.degraded);
    let caps = sweep::degraded_caps(&t, &need, &part);
    let normal = Workload {
        queue: &queue,
        n,
        release: &t.release,
        cap: &need,
    };
    let degraded = Workload {
        cap: &caps,
        ..normal
    };
    let mut finish = [0; 64];
    let mut latest = [0; 64];
    let mut down = 0;
    for row in &order[..n as usize] {
        let upto = sweep::with(down, *row);
        let i = (*row - 1) as usize;
        let worst = if t.level[i] == 0 { normal } else { degraded };
        let end = worst.finish(upto, t.release[i]);
        finish[i] = end;
        latest[i] = if t.promised[i] == 0 {
            end
        } else {
            end.max(degraded.part_finish(part[i], upto, *row))
        };
        down = upto;
    }
    Times {
        need,
        finish,
        latest,
    }
}

// The worst finish of each row under an order, in slots.
pub fn worst_finishes(t: Table, order: [u8; 64]) -> [u32; 64]
    requires { check_both t order ≡ Passed }
    ensures { result ≡ padded (map (worst_finish t order) (rows_of t)) }
{
    timed(t, order).finish
}

// The clock that each row's slack counts from under an order, in slots.
pub fn latest_clocks(t: Table, order: [u8; 64]) -> [u32; 64]
    requires { check_both t order ≡ Passed }
    ensures { result ≡ padded (map (latest t order) (rows_of t)) }
{
    timed(t, order).latest
}

// Slots left from a clock to the deadline, below zero when late.
pub fn slack(deadline: u32, clock: u32) -> i32
    requires { (deadline < 2 ^ 31) × (clock < 2 ^ 31) }
    ensures { result ≡ pos deadline -ℤ pos clock }
{
    deadline as i32 - clock as i32
}

// A row and its slack in slots.
#[derive(Clone, Copy)]
struct Least {
    row: u8,
    slack: i32,
}

// The row of least slack among the first n, the lower row on a tie; deadlines, and the clocks that the slacks count from, in slots.
fn tightest(n: u32, deadline: &[u32; 64], clock: &[u32; 64]) -> Least
    requires { (1 ≤ n) × (n ≤ 64) × ((k : ℕ) → k < n → (get_or deadline.now k 0 < 2 ^ 31) × (get_or clock.now k 0 < 2 ^ 31)) }
    ensures { (result.row ≡ least_by (slack_in deadline.now clock.now) 1 (rows_to n)) × (result.slack ≡ slack_in deadline.now clock.now result.row) }
{
    let mut least = Least {
        row: 1,
        slack: slack(deadline[0], clock[0]),
    };
    for k in 1..n {
        let s = slack(deadline[k as usize], clock[k as usize]);
        if s < least.slack {
            least = Least {
                row: (k + 1) as u8,
                slack: s,
            };
        }
    }
    least
}

// Yes exactly if the least slack is not below zero slots.
fn verdict(t: Table, order: [u8; 64]) -> Verdict
    requires { check_both t order ≡ Passed }
    ensures { Ok result ≡ verdict_at t order (tightest t order) }
{
    let clock = latest_clocks(t, order);
    let Least { row, slack } = tightest(t.n, &t.deadline, &clock);
    if slack < 0 {
        Verdict::Incorrect { row, slack }
    } else {
        Verdict::Correct { row, slack }
    }
}

// The verdict on any table and any sixty-four numbers, after the checks of both.
pub fn judge_table(t: Table, order: [u8; 64]) -> Judgement
    ensures { Judged t order result }
{
    checks::check_both(&t, order)?;
    Ok(verdict(t, order))
}

// A table of no rows; speeds in work units per slot, loading in slots.
#[tactic(auto, unfolding(crate::specs::Gather::no_rows))]
fn no_rows(normal: u32, degraded: u32, loading: u32) -> Table
    ensures { result ≡ no_rows normal degraded loading }
{
    Table {
        n: 0,
        normal,
        degraded,
        loading,
        release: [0; 64],
        work: [0; 64],
        deadline: [0; 64],
        level: [0; 64],
        promised: [0; 64],
        follows: [0; 64],
    }
}

// Puts one row more into a table. The figures of a row after the sixty-fourth are left out, and n stays at 65.
#[tactic(auto, unfolding(crate::specs::Gather::with_row))]
fn put_row(t: &mut Table, row: &Row)
    ensures { t.new ≡ with_row t.old row.now }
{
    if t.n < 64 {
        let i = t.n as usize;
        t.release[i] = row.release;
        t.work[i] = row.work;
        t.deadline[i] = row.deadline;
        t.level[i] = row.level;
        t.promised[i] = row.promised;
        t.follows[i] = row.follows;
        t.n += 1;
    } else {
        t.n = 65;
    }
}

// The verdict on lent rows and any sixty-four numbers; n is how many rows are lent, speeds are in work units per slot, loading is in slots.
pub fn judge(rows: &[Row], normal: u32, degraded: u32, loading: u32, order: [u8; 64]) -> Judgement
    ensures { Judged (table_of rows.now normal degraded loading) order result }
{
    let mut t = no_rows(normal, degraded, loading);
    for row in rows {
        put_row(&mut t, row);
    }
    judge_table(t, order)
}
