// What check 9 asks of a table's rows (rules 8.6, 8.7) and what a slot and the clock after it do to them (sections 2 and 19 of the rules), below the
// type of the run record. The table is lent, and beside it the record's columns, one entry for each row: row i is at index i - 1. Releases, deadlines,
// clocks, loading, slots used and closing slots are in slots; work and supplies are in work units, speeds in work units per slot. Nothing here divides:
// a slot asks for no quotient.
#![tactic(auto)]

ghost use Rattle.std.specs.Prelude.{◌≡◌, cond, ◌&&◌, ◌+◌, ◌≤◌, ◌<◌, max, min, eqb, leb, get_or};
ghost use Rattle.rules.specs.Lists.{rows_to, all, first};
ghost use Rattle.rules.specs.Need.{need};
ghost use Rattle.rules.specs.Running.{closed_from};
ghost use Rattle.rules.specs.Slots.{brought};
ghost use Rattle.columns.specs.Figures.{pending_at, due_at};
ghost use Rattle.columns.specs.Entries.{SpeedsFit, spent_in, over_in, due_in, sound_in, sound_row_in};
ghost use Rattle.columns.specs.Dues.{due_clock, first_due};
ghost use Rattle.columns.specs.Places.{Placed};

use rules::Table;

// What a record holds of one row: the work units got, the slots used and the closing slot, which is 0 while the row is open (rule 2.13).
#[derive(Clone, Copy)]
struct RowState {
    got: u32,
    used: u32,
    closing: u32,
}

// Whether a row has used the need of this work at this speed, in slots (rules 1.8, 1.10): it has loaded, and at that speed the slots after
// that bring the work. The product is at most 2,000,000 slots times 1,000 work units per slot, so it fits.
#[tactic(auto, using(crate::specs::Products::need_loading, crate::specs::Products::need_product, crate::specs::Products::product_fits))]
fn need_used(work: u32, speed: u32, loading: u32, used: u32) -> bool
    requires { (1 ≤ speed) × (speed ≤ 1000) × (used ≤ 2000000) }
    ensures { result ≡ leb (need loading work speed) used }
{
    loading <= used && work <= (used - loading) * speed
}

// Whether the row at index k has used up its allowance if it is LO: the need of its work at N and that of its promised part at G, both (rule 1.9).
#[tactic(auto, using(crate::specs::Products::first_used, crate::specs::Products::first_unused))]
fn allowance_used(table: &Table, k: usize, used: u32) -> bool
    requires { (k < 64) × SpeedsFit table.now × (used ≤ 2000000) }
    ensures { result ≡ spent_in table.now k used }
{
    need_used(table.work[k], table.normal, table.loading, used)
        && need_used(table.promised[k], table.degraded, table.loading, used)
}

// Whether the row at index k is over: done, having got its work (rule 2.6), or LO with its allowance used up (rule 2.7).
#[tactic(auto, unfolding(crate::specs::Figures::over))]
fn is_over(table: &Table, k: usize, got: u32, used: u32) -> bool
    requires { (k < 64) × SpeedsFit table.now × (used ≤ 2000000) }
    ensures { result ≡ over_in table.now k got used }
{
    got == table.work[k] || table.level[k] == 0 && allowance_used(table, k, used)
}

// The closing slot of a row that ran up to the clock, the row at index k: the clock if it is over now, 0 while it is open (rule 2.10).
pub fn closing_slot(table: &Table, k: usize, got: u32, used: u32, clock: u32) -> u32
    requires { (k < 64) × SpeedsFit table.now × (used ≤ 2000000) }
    ensures { result ≡ cond (over_in table.now k got used) clock 0 }
{
    if is_over(table, k, got, used) {
        clock
    } else {
        0
    }
}

// Whether the clock closes the row at index k if it is open: it is LO, and the clock has reached its deadline (rule 19.2).
fn is_due(table: &Table, k: usize, clock: u32) -> bool
    requires { k < 64 }
    ensures { result ≡ due_in table.now k clock }
{
    table.level[k] == 0 && table.deadline[k] <= clock
}

// Whether the figures of the row at index k are sound at the clock (rules 8.6, 8.7). An open row is neither over nor due, and a closed one is over, or it
// is LO and its closing slot is its deadline (rule 19.2).
#[tactic(auto, unfolding(crate::specs::Figures::sound_at))]
fn row_sound(table: &Table, k: usize, clock: u32, row: RowState) -> bool
    requires { (k < 64) × SpeedsFit table.now × (clock ≤ 2000000) }
    ensures { result ≡ sound_in table.now k clock row.got row.used row.closing }
{
    if table.work[k] < row.got || clock < row.used || clock < row.closing {
        return false;
    }
    let over = is_over(table, k, row.got, row.used);
    if row.closing == 0 {
        !over && !is_due(table, k, clock)
    } else {
        over || table.level[k] == 0 && row.closing == table.deadline[k]
    }
}

// Whether the figures of the table's rows are sound at the clock (rules 8.6, 8.7): those of the table, and those of the record in its columns. Here and
// below one index goes through the columns of both.
pub fn rows_sound(
    table: &Table,
    clock: u32,
    got: &[u32; 64],
    used: &[u32; 64],
    closing: &[u32; 64],
) -> bool
    requires { (table.now.n ≤ 64) × SpeedsFit table.now × (clock ≤ 2000000) }
    ensures { result ≡ all (sound_row_in table.now clock got.now used.now closing.now) (rows_to table.now.n) }
{
    for k in 0..table.n as usize {
        let row = RowState {
            got: got[k],
            used: used[k],
            closing: closing[k],
        };
        if !row_sound(table, k, clock, row) {
            return false;
        }
    }
    true
}

// Whether a row with this release and closing slot is released at the clock, and open (rule 2.2).
fn is_pending(release: u32, closing: u32, clock: u32) -> bool
    ensures { result ≡ (leb release clock && eqb closing 0) }
{
    release <= clock && closing == 0
}

// The row that the slot at the clock runs: the highest in the order that is released and open, 0 if none is (rule 2.3). It is not asked what a row follows:
// under an order that passes check 6 the highest such row never waits (rule 21.2). The first n places hold rows from 1 to n, n is at most 64, and zeros
// stand after them. The 0 is what the answer of a slot tells of an idle one (rule 8.9).
pub fn chosen_row(table: &Table, order: &[u8; 64], clock: u32, closing: &[u32; 64]) -> u8
    requires { Placed table.now.n order.now }
    ensures { (result ≡ first (pending_at table.now.n clock table.now.release closing.now) order.now) × (result ≤ 64) }
{
    for k in 0..table.n as usize {
        let row = order[k];
        let i = row as usize - 1;
        if is_pending(table.release[i], closing[i], clock) {
            return row;
        }
    }
    0
}

// The work units that a row has after a slot of this supply, used being its slots before that one: no more than before while it loads
// (rule 2.14), then more by the supply, to its work at most (rule 2.5).
#[tactic(auto, using(theory::specs::Cells::brought_none, theory::specs::Cells::brought_all))]
pub fn grown(got: u32, used: u32, loading: u32, supply: u32, work: u32) -> u32
    requires { got ≤ work }
    ensures { result ≡ min work (got + brought loading used supply) }
{
    if used < loading {
        got
    } else {
        got + supply.min(work - got)
    }
}

// The closing slots once the clock has closed every row that is open and due (rule 19.2). A clock above 0 slots is meant: a closing slot of 0 would
// leave a row open.
pub fn closed_late(table: &Table, clock: u32, mut closing: [u32; 64]) -> [u32; 64]
    requires { table.now.n ≤ 64 }
    ensures { result ≡ closed_from (due_at table.now.n clock table.now.deadline table.now.level) clock 1 closing }
{
    for k in 0..table.n as usize {
        if closing[k] == 0 && is_due(table, k, clock) {
            closing[k] = clock;
        }
    }
    closing
}

// The first clock that may close a row of the table, in slots: the least deadline of the rows that are LO and open, and 4,294,967,295 if there is none,
// which no clock reaches. Before it no open row is due (rule 19.7), so that a run need not look: it compares two clocks in every slot.
#[tactic(auto, using(crate::specs::Dues::due_none, crate::specs::Dues::due_next))]
pub fn first_due(table: &Table, closing: &[u32; 64]) -> u32
    requires { table.now.n ≤ 64 }
    ensures { result ≡ first_due table.now.n table.now.deadline table.now.level closing.now }
{
    let mut due = u32::MAX;
    for k in 0..table.n as usize {
        due = due.min(due_clock(table.deadline[k], table.level[k], closing[k]));
    }
    due
}

// The deadline of a row that is LO and open; of any other a clock that none reaches.
fn due_clock(deadline: u32, level: u32, closing: u32) -> u32
    ensures { result ≡ due_clock deadline level closing }
{
    if level == 0 && closing == 0 {
        deadline
    } else {
        u32::MAX
    }
}
