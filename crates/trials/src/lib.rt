// What a planning prepares, and the entries that are tried at a place (rules 4.2 to 4.4, 4.11). The first row is row 1; the rows left are a word in which
// row i is bit i - 1 (rule 4.8). Entries of the trial sequence and places of the queue count from 0 where they are stored and as bits of a word, and from
// 1 where they are handed to functions on words.
#![tactic(auto)]

ghost use Rattle.std.specs.Prelude.{◌≡◌, map, ℕ, ◌-◌, ◌≤◌, ◌<◌, cond, eqb, get_or, take};
ghost use Rattle.rules.specs.Lists.{rows_to};
ghost use Rattle.rules.specs.Rows.{at};
ghost use Rattle.rules.specs.Tables.{Accepted};
ghost use Rattle.rules.specs.Choice.{padded};
ghost use Rattle.sweep.specs.Padded.{Rows};
ghost use Rattle.periods.specs.Marks.{marks};
ghost use Rattle.periods.specs.Entries.{entries_to, Entries};
ghost use Rattle.trials.specs.Keys.{key_of, key_in, Soon};
ghost use Rattle.trials.specs.Prepared.{trials_of};
ghost use Rattle.trials.specs.Opening.{cleared, open_to};
ghost use Rattle.trials.specs.Allowed.{FirstOf};
ghost use Rattle.trials.specs.Lent.{Lent, LentParts};

use periods::{AtSpeed, Promises};
use rules::Table;
use sweep::Workload;

// What a planning works out once: the rows by rising release, the trial sequence, each row's entry in it from 0, the entries of LO and of HI rows as
// words, the caps in slots at supplies of at least the normal and at least the degraded speed, and the needs in slots of the promised parts at the
// degraded speed.
#[derive(Clone, Copy)]
pub struct Trials {
    pub queue: [u8; 64],
    pub sequence: [u8; 64],
    pub entry: [u8; 64],
    pub low: u64,
    pub high: u64,
    pub normal: [u32; 64],
    pub degraded: [u32; 64],
    pub part: [u32; 64],
}

// The key of a row in the trial sequence (rule 4.3): LO, of level 0, before HI, and a later deadline (in slots) first.
fn trial_key(level: u32, deadline: u32) -> u32
    requires { deadline ≤ 1000000 }
    ensures { result ≡ key_of level deadline }
{
    let late = 1000000 - deadline;
    if level == 0 { late } else { 2000000 + late }
}

// The keys of n rows by their levels and deadlines (in slots).
fn trial_keys(n: u32, level: &[u32; 64], deadline: &[u32; 64]) -> [u32; 64]
    requires { (n ≤ 64) × Soon n deadline.now }
    ensures { result ≡ padded (map (key_in level.now deadline.now) (rows_to n)) }
{
    sweep::by_row(n, |i| trial_key(level[i], deadline[i]))
}

// The entries of the trial sequence, in a word, whose rows are of this level.
fn entries_at(sequence: &[u8; 64], level: &[u32; 64], n: u32, wanted: u32) -> u64
    requires { (n ≤ 64) × Rows sequence.now n }
    ensures { result ≡ marks (λ i. eqb (at level.now i) wanted) (take n sequence.now) }
{
    let mut word: u64 = 0;
    for k in 0..n {
        if sweep::entry(level, sequence[k as usize]) == wanted {
            word = sweep::with(word, (k + 1) as u8);
        }
    }
    word
}

// The entry of each row of the sequence, from 0, and 0 for all other rows.
fn entries(sequence: &[u8; 64], n: u32) -> [u8; 64]
    requires { (n ≤ 64) × Rows sequence.now n }
    ensures { result ≡ entries_to sequence.now n }
{
    let mut out: [u8; 64] = [0; 64];
    for k in 0..n {
        let row = sequence[k as usize];
        out[(row - 1) as usize] = k as u8;
    }
    out
}

// What all trials of a planning share. Here and in the crates above `Accepted` is a clause of one word and no type: the definitions take the plain table.
pub fn prepare(t: Table) -> Trials
    requires { Accepted t }
    ensures { result ≡ trials_of t }
{
    let keys = trial_keys(t.n, &t.level, &t.deadline);
    let queue = sweep::sorted(&t.release, t.n);
    let sequence = sweep::sorted(&keys, t.n);
    let entry = entries(&sequence, t.n);
    let low = entries_at(&sequence, &t.level, t.n, 0);
    let high = entries_at(&sequence, &t.level, t.n, 1);
    let normal = sweep::needs(t.n, t.loading, &t.work, t.normal);
    let part = sweep::needs(t.n, t.loading, &t.promised, t.degraded);
    let degraded = sweep::degraded_caps(&t, &normal, &part);
    Trials {
        queue,
        sequence,
        entry,
        low,
        high,
        normal,
        degraded,
        part,
    }
}

// A word without this entry, from 1, whether it was in it or not.
fn clear(word: u64, seat: u8) -> u64
    requires { (1 ≤ seat) × (seat ≤ 64) }
    ensures { result ≡ cleared word (seat - 1) }
{
    if sweep::has(word, seat) {
        sweep::without(word, seat)
    } else {
        word
    }
}

impl Trials {
    // The rows at supplies of at least the normal speed.
    pub fn at_normal<'a>(&'a self, t: &'a Table) -> AtSpeed<'a>
        ensures { Lent self.now t.now self.now.normal result }
    {
        let load = Workload {
            queue: &self.queue,
            n: t.n,
            release: &t.release,
            cap: &self.normal,
        };
        AtSpeed {
            load,
            deadline: &t.deadline,
            sequence: &self.sequence,
            entry: &self.entry,
        }
    }

    // The rows at supplies of at least the degraded speed, and what promised parts are tried with there.
    pub fn promises<'a>(&'a self, t: &'a Table) -> Promises<'a>
        ensures { LentParts self.now t.now result }
    {
        let normal = self.at_normal(t);
        let load = Workload {
            cap: &self.degraded,
            ..normal.load
        };
        Promises {
            slow: AtSpeed { load, ..normal },
            promised: &t.promised,
            part: &self.part,
        }
    }

    // The entries that are tried at a place (rule 4.11): those of the rows left, but not that of a row which a row left follows. Where the table is free
    // of waits no row is looked at.
    pub fn open_entries(&self, t: &Table, free: bool, left: u64, unplaced: u64) -> u64
        requires { (t.now.n ≤ 64) × ((k : ℕ) → k < t.now.n → get_or t.now.follows k 0 ≤ 64) × Entries self.now.entry }
        ensures { result ≡ cond free unplaced (open_to t.now.follows self.now.entry left unplaced t.now.n) }
    {
        if free {
            return unplaced;
        }
        let mut tries = unplaced;
        for k in 0..t.n {
            let followed = t.follows[k as usize];
            if followed != 0 && sweep::has(left, (k + 1) as u8) {
                tries = clear(tries, self.entry[(followed - 1) as usize] + 1);
            }
        }
        tries
    }
}

// The first entries of a word: as many as this, or all where they are no more (rule 23.6).
pub fn first_entries(word: u64, most: u32) -> u64
    ensures { FirstOf word most result }
{
    if sweep::how_many(word) <= most {
        return word;
    }
    let mut seat: u32 = 0;
    let mut found: u32 = 0;
    // A `while`: it stops at the seat of the last entry allowed, and a `for` over the seats would only hand that seat out of a break: no plainer.
    while found < most {
        seat += 1;
        if sweep::has(word, seat as u8) {
            found += 1;
        }
    }
    word & sweep::first_rows(seat)
}
