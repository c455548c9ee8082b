// Counting choices (section 25 of the rules): how many orders of a table are correct, and how many of the rows of every word alone, by the rows that may stand
// lowest. Rows count from 1; row i is bit i - 1 of a word and entry i - 1 of a column. Entries of the trial sequence count from 0 as they are stored, and from 1
// where they are handed to functions on words.
#![tactic(auto)]

ghost use Rattle.std.specs.Prelude.{◌≡◌, true, map, ℕ, ◌-◌, ◌≤◌, ◌<◌, ◌^◌, length};
ghost use Rattle.rules.specs.Choice.{padded};
ghost use Rattle.rules.specs.Lists.{rows_to, sum};
ghost use Rattle.rules.specs.Tables.{Accepted};
ghost use Rattle.sweep.specs.Masks.{bit, is_left};
ghost use Rattle.periods.specs.Entries.{Entries};
ghost use Rattle.periods.specs.Lent.{Tried, Parted};
ghost use Rattle.choices.specs.Choices.{count_of, count_checked, counted};
ghost use Rattle.choices.specs.declared.Choices.{Choices};
ghost use Rattle.rules.specs.Checks.{Passed, Refused};
ghost use Rattle.counter.specs.Summing.{without_row, refused_count};
ghost use Rattle.counter.specs.Testing.{standing_to};
ghost use Rattle.counter.specs.Lent.{AllInTime, stands_at};

use choices::Choices;
use periods::{AtSpeed, Promises};
use rules::{Refusal, Table};

// A refusal: counts of 0 (rule 25.6).
fn refused(why: Refusal) -> Choices
    ensures { result ≡ refused_count why }
{
    Choices {
        check: Err(why),
        count: 0,
        lowest: [0; 64],
    }
}

// The entries of all rows of a word that, each below all the others, finish by their deadlines at one speed: one sweep at this speed for all of them. What it
// says of entries of other rows is not told.
fn all_in_time(speed: &AtSpeed, left: u64) -> u64
    requires { Tried speed.now × (1 ≤ speed.now.load.n) }
    ensures { AllInTime speed.now left result }
{
    let mut period: [u8; 64] = [0; 64];
    speed.renew(left, 0, &mut period)
}

// Whether a row is in the word of rows left, its entry in the word of entries that finish in time, and its promised part in time too.
fn stands(parts: &Promises, left: u64, word: u64, row: u8) -> bool
    requires { Parted parts.now × Entries parts.now.slow.entry.now × (1 ≤ row) × (row ≤ 64) }
    ensures { result ≡ stands_at parts.now left word row }
{
    sweep::has(left, row)
        && sweep::has(word, parts.slow.entry[(row - 1) as usize] + 1)
        && parts.part_in_time(left, row)
}

// Those of the rows that pass all of it, as a word.
fn standing(parts: &Promises, left: u64, word: u64) -> u64
    requires { Parted parts.now × Entries parts.now.slow.entry.now }
    ensures { result ≡ standing_to (stands_at parts.now left word) parts.now.slow.load.n }
{
    let mut rows: u64 = 0;
    for k in 0..parts.slow.load.n {
        let row = (k + 1) as u8;
        if stands(parts, left, word, row) {
            rows = sweep::with(rows, row);
        }
    }
    rows
}

// The choices of a word without a row, if the row is one of those that may stand lowest; else 0.
fn without_row(scratch: &[u32], left: u64, rows: u64, row: u8) -> u32
    requires { (1 ≤ row) × (row ≤ 64) × (left < length scratch.now) × (is_left rows row ≡ true → bit left (row - 1) ≡ 1) }
    ensures { result ≡ without_row scratch.now left rows row }
{
    if sweep::has(rows, row) {
        scratch[sweep::without(left, row) as usize]
    } else {
        0
    }
}

// Their sum over the first n rows: the choices of the word (rule 25.7).
fn total(scratch: &[u32], n: u32, left: u64, rows: u64) -> u32
    requires { (n ≤ 64) × (left < length scratch.now) × ((i : ℕ) → is_left rows i ≡ true → bit left (i - 1) ≡ 1)
        × (sum (without_row scratch.now left rows) (rows_to n) < 2 ^ 32) }
    ensures { result ≡ sum (without_row scratch.now left rows) (rows_to n) }
{
    let mut total: u32 = 0;
    for k in 0..n {
        total += without_row(scratch, left, rows, (k + 1) as u8);
    }
    total
}

// The same for each of the first n rows, zeros after the last: in how many correct orders each stands lowest, where the word is that of all rows (rule 25.5).
fn lowest_counts(scratch: &[u32], n: u32, left: u64, rows: u64) -> [u32; 64]
    requires { (n ≤ 64) × (left < length scratch.now) × ((i : ℕ) → is_left rows i ≡ true → bit left (i - 1) ≡ 1) }
    ensures { result ≡ padded (map (without_row scratch.now left rows) (rows_to n)) }
{
    sweep::by_row(n, |i| without_row(scratch, left, rows, (i + 1) as u8))
}

// Counts the choices of an accepted table of up to 12 rows: of its words in rising sequence, each by the words without one of its rows (rule 25.7). The last word
// is that of all rows.
fn count_words(t: Table, scratch: &mut [u32]) -> Choices
    requires { Accepted t × (t.n ≤ 12) × (4096 ≤ length scratch.old) }
    ensures { (result ≡ (count_checked Passed t scratch.old).said) × (scratch.new ≡ counted t scratch.old) }
{
    let free = checks::zero_after(0, &t.follows);
    let w = trials::prepare(t);
    let normal = w.at_normal(&t);
    let parts = w.promises(&t);
    let all = sweep::first_rows(t.n);
    scratch[0] = 1;
    let mut rows: u64 = 0;
    for word in 1..all + 1 {
        let tries = w.open_entries(&t, free, word, all);
        let at_normal = all_in_time(&normal, word);
        let at_slow = all_in_time(&parts.slow, word);
        let timely = tries & (at_normal & w.low | at_slow & w.high);
        rows = standing(&parts, word, timely);
        scratch[word as usize] = total(&scratch[..], t.n, word, rows);
    }
    Choices {
        check: Ok(()),
        count: scratch[all as usize],
        lowest: lowest_counts(&scratch[..], t.n, all, rows),
    }
}

// Counts the choices of any table into any scratch (rules 25.4 to 25.6): checks 3, 4, 11, 5, 12 and 13 to 15, then 20 for more than 12 rows, then 10 for fewer
// than 4,096 numbers (rule 11.13).
pub fn count(t: Table, scratch: &mut [u32]) -> Choices
    ensures { (result ≡ (count_of t scratch.old).said) × (scratch.new ≡ (count_of t scratch.old).scratch) }
{
    match checks::check_table(&t) {
        Err(why) => refused(why),
        Ok(()) => {
            if t.n > 12 {
                return refused(Refusal::TooManyRows);
            }
            if scratch.len() < 4096 {
                return refused(Refusal::NoRoom);
            }
            count_words(t, scratch)
        }
    }
}
