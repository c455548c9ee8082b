// Run records (section 8 of the rules): what a record and the answers of its calls hold, the fresh record, check 9 and one slot.
// What they mean stands in specs/Records and specs/Answers. Clocks, slots used and closing slots are in slots, work and supplies
// in work units.
#![tactic(auto)]

ghost use Rattle.std.specs.Prelude.{◌≡◌, true, ◌≤◌, ◌<◌};
ghost use Rattle.rules.specs.Tables.{passed, zero_table};
ghost use Rattle.rules.specs.Orders.{check_both};
ghost use Rattle.record.specs.Records.{tail_sound, is_sound, start_run, fresh_of, worked_run, closed_run, due_of, coming_slot, one_slot};

use rules::{Check, Refusal, Table};

// The clock, in slots, at which a supply is refused (rule 8.13).
pub const LAST_CLOCK: u32 = 2000000;

// A run record (rule 8.1): the table; the order, row numbers from the highest place down and zeros behind them (rule 5.6); and the state:
// the clock in slots, and for each row the work units got, the slots used and the closing slot, which is 0 while the row is open (rule 2.13).
#[derive(Clone, Copy)]
pub struct Run {
    pub table: Table,
    pub order: [u8; 64],
    pub clock: u32,
    pub got: [u32; 64],
    pub used: [u32; 64],
    pub closing: [u32; 64],
}

// The answer of the checks of table and order and the fresh record, which is all zero on a refusal (rule 8.2): no `Result`, since
// the zeros are promised.
#[derive(Clone, Copy)]
pub struct FreshRun {
    pub check: Check,
    pub run: Run,
}

// The answer for one slot: the row that ran, 0 for an idle slot, or a refusal (rules 8.9, 8.13, 8.14).
pub type SlotAnswer = Result<u8, Refusal>;

// The answer for one slot and the record after it (rule 8.9). A refusal hands the record back too, so that this is no `Result`.
#[derive(Clone, Copy)]
pub struct Stepped {
    pub answer: SlotAnswer,
    pub run: Run,
}

// The answer of forward: every slot was worked, and how many; the clock was over, and how many were worked up to then; or a refusal
// (rules 8.10, 8.13, 8.14). Two of the three cases tell slots worked, so that no `Result` would be plainer.
#[derive(Clone, Copy)]
pub enum ForwardAnswer {
    Worked(u32),
    ClockOver(u32),
    Refused(Refusal),
}

// The answer of forward and the record after it (rule 8.10), also on a refusal. Beside `Stepped`, since each is the answer of a rule of its own.
#[derive(Clone, Copy)]
pub struct Forwarded {
    pub answer: ForwardAnswer,
    pub run: Run,
}

// Whether zeros alone stand in the record's columns after row n (rule 8.8).
#[tactic(auto, unfolding(crate::specs::Records::tail_sound))]
fn tail_sound(r: &Run) -> bool
    ensures { result ≡ tail_sound r.now }
{
    let n = r.table.n;
    checks::zero_after(n, &r.got)
        && checks::zero_after(n, &r.used)
        && checks::zero_after(n, &r.closing)
}

// Whether the table and the order pass their checks (rule 8.4).
fn passes(t: &Table, order: [u8; 64]) -> bool
    ensures { result ≡ passed (check_both t.now order) }
{
    checks::check_both(t, order).is_ok()
}

// Check 9 (rule 8.3): whether the record is sound. Its table and order pass their checks (rule 8.4), its clock is at most 2,000,000 slots
// (rule 8.5), its rows are sound (rules 8.6, 8.7), and only zeros stand after row n (rule 8.8).
#[tactic(auto, unfolding(crate::specs::Records::is_sound, crate::specs::Records::row_sound, columns::specs::Figures::sound_at, rules::specs::Slots::is_over, columns::specs::Figures::over))]
pub fn is_sound(r: &Run) -> bool
    ensures { result ≡ is_sound r.now }
{
    passes(&r.table, r.order)
        && r.clock <= LAST_CLOCK
        && columns::rows_sound(&r.table, r.clock, &r.got, &r.used, &r.closing)
        && tail_sound(r)
}

// The record of a table and an order at a clock, in slots, with nothing got, nothing used and every row open: before their first slot, or as a commit
// leaves it (rules 2.13, 8.2, 22.4).
pub fn start(table: Table, order: [u8; 64], clock: u32) -> Run
    ensures { result ≡ start_run table order clock }
{
    let zeros = [0u32; 64];
    Run {
        table,
        order,
        clock,
        got: zeros,
        used: zeros,
        closing: zeros,
    }
}

// The table of zeros.
pub fn zero_table() -> Table
    ensures { result ≡ zero_table }
{
    let zeros = [0u32; 64];
    Table {
        n: 0,
        normal: 0,
        degraded: 0,
        loading: 0,
        release: zeros,
        work: zeros,
        deadline: zeros,
        level: zeros,
        promised: zeros,
        follows: zeros,
    }
}

// The fresh run record of any table and any sixty-four numbers; a record of zeros where their checks refuse them (rules 8.2, 11.4).
pub fn fresh(t: Table, order: [u8; 64]) -> FreshRun
    ensures { result ≡ fresh_of t order }
{
    match checks::check_both(&t, order) {
        Ok(()) => FreshRun {
            check: Ok(()),
            run: start(t, order, 0),
        },
        Err(why) => FreshRun {
            check: Err(why),
            run: start(zero_table(), [0; 64], 0),
        },
    }
}

impl Run {
    // A sound record whose clock is below 2,000,000 slots after one slot by the planning rule, with this supply in work units: the first half
    // of a step (rule 19.2). By itself it may leave a late row open, which check 9 refuses; `close_late` has to follow wherever it can close a
    // row. The two are the one place where a slot is worked and the one where the clock closes rows (rules 8.9, 9.16).
    pub fn work(mut self, supply: u32) -> Run
        requires { (is_sound self ≡ true) × (self.clock < 2000000) }
        ensures { result ≡ worked_run self supply }
    {
        let row = columns::chosen_row(&self.table, &self.order, self.clock, &self.closing);
        self.clock += 1;
        if row == 0 {
            return self;
        }
        let i = row as usize - 1;
        let used = self.used[i] + 1;
        let got = columns::grown(
            self.got[i],
            self.used[i],
            self.table.loading,
            supply,
            self.table.work[i],
        );
        self.got[i] = got;
        self.used[i] = used;
        self.closing[i] = columns::closing_slot(&self.table, i, got, used, self.clock);
        self
    }

    // The record once its clock has closed every LO row that is open and whose deadline it has reached: the second half of a step (rule 19.2).
    #[tactic(auto, unfolding(crate::specs::Records::closed_run, rules::specs::Running::close_late))]
    pub fn close_late(mut self) -> Run
        requires { self.table.n ≤ 64 }
        ensures { result ≡ closed_run self }
    {
        self.closing = columns::closed_late(&self.table, self.clock, self.closing);
        self
    }

    // The first clock, in slots, at which `close_late` may close a row: before it there is nothing to close (rule 19.7).
    // By value, since it was tried with `&self`: forward then copies whole records in every slot, and takes twice as long.
    pub fn due(self) -> u32
        requires { self.table.n ≤ 64 }
        ensures { result ≡ due_of self }
    {
        columns::first_due(&self.table, &self.closing)
    }

    // The answer for the coming slot, before its supply is known: the row that it runs, or 9, or 8 at clock 2,000,000 slots (rule 8.15).
    #[tactic(auto, unfolding(crate::specs::Records::coming_slot))]
    pub fn coming(&self) -> SlotAnswer
        ensures { result ≡ coming_slot self.now }
    {
        if !is_sound(self) {
            return Err(Refusal::Unsound);
        }
        if LAST_CLOCK <= self.clock {
            return Err(Refusal::ClockOver);
        }
        Ok(columns::chosen_row(&self.table, &self.order, self.clock, &self.closing))
    }

    // One slot worked with this supply in work units: its answer, and the next record, or this one on a refusal (rules 8.9, 8.13, 8.14).
    pub fn slot(self, supply: u32) -> Stepped
        ensures { result ≡ one_slot self supply }
    {
        let answer = self.coming();
        let run = match answer {
            Ok(_) => self.work(supply).close_late(),
            Err(_) => self,
        };
        Stepped { answer, run }
    }
}
