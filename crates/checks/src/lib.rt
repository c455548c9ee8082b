// The need of a job (rules 1.8, 1.10), checks 3, 4, 11, 5, 12, 13 to 15 and 6 on tables and orders (section 5 of the rules), and check 10 on lent bytes
// (rule 10.10).
#![tactic(auto)]

ghost use Rattle.std.specs.Prelude.{◌≡◌, true, ◌&&◌, ℕ, ◌+◌, ◌≤◌, ◌<◌, eqb, length, get_or, drop};
ghost use Rattle.rules.specs.Lists.{all, all_zero, count, rows_to};
ghost use Rattle.rules.specs.Rows.{rows_of};
ghost use Rattle.rules.specs.Need.{work_slots, need};
ghost use Rattle.rules.specs.Tables.{count_ok, speeds_ok, loading_ok, row_ok, promise_ok, tail_ok, and_then, check_wait, check_waits, check_table};
ghost use Rattle.rules.specs.Orders.{check_both};
ghost use Rattle.texts.specs.Lent.{check_room};
ghost use Rattle.checks.specs.Limits.{limits_ok, part_ok};
ghost use Rattle.checks.specs.Keeping.{Numbered, kept_to, arranged, order_at};

use rules::{Check, Refusal, Table};

// The slots that work units take at speed work units per slot: the quotient, and one more for a rest. 0 at speed 0, and 0 for no work, which is
// not divided.
fn work_slots(work: u32, speed: u32) -> u32
    ensures { result ≡ work_slots work speed }
{
    if speed == 0 || work == 0 {
        return 0;
    }
    if work % speed == 0 {
        work / speed
    } else {
        work / speed + 1
    }
}

// The need of a job, in slots: those that load it, and those that its work units take at speed work units per slot.
pub fn need(loading: u32, work: u32, speed: u32) -> u32
    requires { (loading ≤ 16) × (work ≤ 1000000) }
    ensures { result ≡ need loading work speed }
{
    loading + work_slots(work, speed)
}

// n is from 1 to 64 rows.
pub fn count_ok(n: u32) -> bool
    ensures { result ≡ count_ok n }
{
    1 <= n && n <= 64
}

// Normal is from 1 to 1,000 and degraded from 1 to normal, in work units per slot.
fn speeds_ok(normal: u32, degraded: u32) -> bool
    ensures { result ≡ speeds_ok normal degraded }
{
    1 <= normal && normal <= 1000 && 1 <= degraded && degraded <= normal
}

// K is at most 16 slots.
fn loading_ok(loading: u32) -> bool
    ensures { result ≡ loading_ok loading }
{
    loading <= 16
}

// A row's figures are within their limits: release and deadline in slots, work in work units.
fn row_ok(release: u32, work: u32, deadline: u32, level: u32) -> bool
    ensures { result ≡ limits_ok release work deadline level }
{
    1 <= work && work <= 1000000 && deadline <= 1000000 && release < deadline && level <= 1
}

// Each row is within its limits.
fn rows_ok(t: &Table) -> bool
    requires { t.now.n ≤ 64 }
    ensures { result ≡ all (row_ok t.now) (rows_of t.now) }
{
    for k in 0..t.n as usize {
        if !row_ok(t.release[k], t.work[k], t.deadline[k], t.level[k]) {
            return false;
        }
    }
    true
}

// A row promises what it may: no more than its work, in work units, and nothing if its level is not LO.
fn promise_ok(work: u32, level: u32, promised: u32) -> bool
    ensures { result ≡ part_ok work level promised }
{
    promised <= work && (level == 0 || promised == 0)
}

// Each row promises what it may. A loop beside `rows_ok`: the contract of a closure for the row's test would be longer than the loop.
fn promises_ok(t: &Table) -> bool
    requires { t.now.n ≤ 64 }
    ensures { result ≡ all (promise_ok t.now) (rows_of t.now) }
{
    for k in 0..t.n as usize {
        if !promise_ok(t.work[k], t.level[k], t.promised[k]) {
            return false;
        }
    }
    true
}

// The wait of the row at index k, if it follows a row: that has a lower number, is released no later, and is HI if the row is.
fn check_wait(t: &Table, k: u32) -> Check
    requires { k < 64 }
    ensures { result ≡ check_wait t.now (k + 1) }
{
    let i = k as usize;
    let w = t.follows[i];
    if w == 0 {
        return Ok(());
    }
    if k < w {
        return Err(Refusal::NotLower);
    }
    let above = (w - 1) as usize;
    if t.release[i] < t.release[above] {
        return Err(Refusal::ReleasedLater);
    }
    if t.level[i] == 0 {
        return Ok(());
    }
    if t.level[above] == 0 {
        return Err(Refusal::FollowsLow);
    }
    Ok(())
}

// The waits of all rows, one row after the other.
fn check_waits(t: &Table) -> Check
    requires { t.now.n ≤ 64 }
    ensures { result ≡ check_waits t.now (rows_of t.now) }
{
    for k in 0..t.n {
        check_wait(t, k)?;
    }
    Ok(())
}

// Whether the column's entries after row n are all zero.
pub fn zero_after(n: u32, column: &[u32; 64]) -> bool
    requires { length column.now ≡ 64 }
    ensures { result ≡ all_zero (drop n column.now) }
{
    column.iter().skip(n as usize).all(|figure| *figure == 0)
}

// No figure stands after row n (rule 5.4).
#[tactic(auto, unfolding(rules::specs::Tables::tail_ok))]
fn tail_ok(t: &Table) -> bool
    ensures { result ≡ tail_ok t.now }
{
    zero_after(t.n, &t.release)
        && zero_after(t.n, &t.work)
        && zero_after(t.n, &t.deadline)
        && zero_after(t.n, &t.level)
        && zero_after(t.n, &t.promised)
        && zero_after(t.n, &t.follows)
}

// Checks 3, 4, 11, 5, 12 and 13 to 15 on any table.
pub fn check_table(t: &Table) -> Check
    ensures { result ≡ check_table t.now }
{
    if !count_ok(t.n) {
        return Err(Refusal::RowCount);
    }
    if !speeds_ok(t.normal, t.degraded) {
        return Err(Refusal::Speeds);
    }
    if !loading_ok(t.loading) {
        return Err(Refusal::Loading);
    }
    if !rows_ok(t) {
        return Err(Refusal::RowLimits);
    }
    if !tail_ok(t) {
        return Err(Refusal::RowLimits);
    }
    if !promises_ok(t) {
        return Err(Refusal::Promised);
    }
    check_waits(t)
}

// How often each number from 0 to 64 stands in the order.
fn tally(order: [u8; 64]) -> [u8; 65]
    ensures { (i : ℕ) → i ≤ 64 → get_or result i 0 ≡ count i order }
{
    let mut times = [0u8; 65];
    for k in 0..64 {
        let row = order[k] as usize;
        if row <= 64 {
            times[row] += 1;
        }
    }
    times
}

// Each of the first n rows stands in the order once.
fn each_once(order: [u8; 64], n: usize) -> bool
    requires { n ≤ 64 }
    ensures { result ≡ all (λ i. eqb (count i order) 1) (rows_to n) }
{
    let times = tally(order);
    for k in 0..n {
        if times[k + 1] != 1 {
            return false;
        }
    }
    true
}

// The order's places from index k on are all zero. Beside `zero_after`, a line each: a generic one would need a trait for the zero.
fn empty_from(order: [u8; 64], k: usize) -> bool
    requires { k ≤ 64 }
    ensures { result ≡ all_zero (drop k order) }
{
    order.iter().skip(k).all(|row| *row == 0)
}

// Each row at the first n places follows none, or one at a place above it.
fn keeps_waits(follows: &[u32; 64], order: [u8; 64], n: usize) -> bool
    requires { (n ≤ 64) × Numbered follows.now order n }
    ensures { result ≡ kept_to follows.now order n }
{
    let mut seen = [0u8; 65];
    for k in 0..n {
        let row = order[k] as usize;
        let w = follows[row - 1] as usize;
        if w != 0 {
            if seen[w] == 0 {
                return false;
            }
        }
        seen[row] = 1;
    }
    true
}

// Check 6 for a table of n rows: the order holds each of them once, and zeros after, and every row that is followed stands above its followers.
fn check_order(follows: &[u32; 64], order: [u8; 64], n: usize) -> Check
    requires { (n ≤ 64) × (arranged order n ≡ true → Numbered follows.now order n) }
    ensures { result ≡ order_at follows.now order n }
{
    if !each_once(order, n) {
        return Err(Refusal::NotAnOrder);
    }
    if !empty_from(order, n) {
        return Err(Refusal::NotAnOrder);
    }
    if !keeps_waits(follows, order, n) {
        return Err(Refusal::NotAnOrder);
    }
    Ok(())
}

// The checks of the table, then 6, on any table and any sixty-four numbers.
pub fn check_both(t: &Table, order: [u8; 64]) -> Check
    ensures { result ≡ check_both t.now order }
{
    check_table(t)?;
    check_order(&t.follows, order, t.n as usize)
}

// Check 10: room bytes are enough for a text of size bytes.
pub fn check_room(size: usize, room: usize) -> Check
    ensures { result ≡ check_room size room }
{
    if room < size {
        return Err(Refusal::NoRoom);
    }
    Ok(())
}

// The second check where the first passed.
pub fn and_then(first: Check, second: Check) -> Check
    ensures { result ≡ and_then first second }
{
    first.and(second)
}
