// What each caller may rely on, shown of the exported functions themselves: each function here does what one caller does, through the
// C boundary alone, and its contract is that caller's conclusion in plain terms (specs/Conclusions). None of it is shipped.
#![tactic(auto)]

ghost use Rattle.std.specs.Prelude.{◌≡◌, get_or};
ghost use Rattle.rules.specs.Tables.{Accepted};
ghost use Rattle.words.specs.Words.{table_in};
ghost use Rattle.conclusions.specs.Conclusions.{TableAuthor, SheetBack, SheetAgain, NumberField, Text, Planner, PlannerWithin, Cutting, Maintainer, LeastFound, LeastRead, FreshRecord, Proposing, Committing, FirmwareWriter, Forwarding, Drawn, SalesDesk, Listing, LineRead, PlanPasted, VerdictPasted};

// What reading a sheet and writing its table back said: both numbers, and the length in bytes.
#[derive(Clone, Copy)]
pub struct Again {
    pub read: u32,
    pub written: u32,
    pub size: u32,
}

// What a fresh record was said to be, or a record after a commit: the number, and the words of its table, its order and its state.
#[derive(Clone, Copy)]
pub struct Begun {
    pub number: u32,
    pub table: [u32; 388],
    pub order: [u8; 64],
    pub state: [u32; 193],
}

// What asking answered: its number, the rows left as a word, and the words of the table and the order proposed.
#[derive(Clone, Copy)]
pub struct Proposed {
    pub number: u32,
    pub left: u64,
    pub table: [u32; 388],
    pub order: [u8; 64],
}

// What the coming slot was said to be, what the slot itself said, numbers and rows, and the state's words after it.
#[derive(Clone, Copy)]
pub struct Slots {
    pub coming: u32,
    pub coming_row: u32,
    pub number: u32,
    pub row: u32,
    pub next: [u32; 193],
}

// What a record worked forward said, its number and the slots worked, and the state's words after them.
#[derive(Clone, Copy)]
pub struct Forwards {
    pub number: u32,
    pub worked: u32,
    pub next: [u32; 193],
}

// What planning, the fresh record and working it forward said, the order, and the state's words at the end.
#[derive(Clone, Copy)]
pub struct Drawing {
    pub planned: u32,
    pub fresh: u32,
    pub forward: u32,
    pub worked: u32,
    pub order: [u8; 64],
    pub state: [u32; 193],
}

// What the judge said: its number, yes as 1 or 0 and the row of least slack; and the number that the worst finishes were answered with.
#[derive(Clone, Copy)]
pub struct Opinion {
    pub number: u32,
    pub yes: u32,
    pub row: u32,
    pub finishes: u32,
}

// What reading a sheet and searching it for a speed said, both numbers, and the words of the table that was read.
#[derive(Clone, Copy)]
pub struct Reads {
    pub read: u32,
    pub number: u32,
    pub table: [u32; 388],
}

// What is had back from a drawing: the numbers of composing a sentence and of reading it, whose answer it tells, and the fields of both answers.
#[derive(Clone, Copy)]
pub struct Pasted {
    pub composed: u32,
    pub read: u32,
    pub kind: u32,
    pub number: u32,
    pub left: u64,
    pub order: [u8; 64],
    pub trials: u32,
    pub yes: u32,
    pub row: u32,
    pub slack: i32,
}

// A table author hands in a sheet.
pub fn table_author(sheet: &[u8], table: &mut [u32; 388]) -> u32
    ensures { TableAuthor sheet.now result table.new }
{
    jasminebrace::jb_read(sheet, table)
}

// A table author has a table written back, into as many bytes as there are.
pub fn sheet_back(table: [u32; 388], sheet: &mut [u8], size: &mut u32) -> u32
    ensures { SheetBack table sheet.old result size.new sheet.new }
{
    jasminebrace::jb_write(&table, sheet, size)
}

// A table author hands in a sheet and wants it out again.
pub fn sheet_again(sheet: &[u8], out: &mut [u8; 3169]) -> Again
    ensures { SheetAgain sheet.now out.old result out.new }
{
    let mut table = [0u32; 388];
    let read = jasminebrace::jb_read(sheet, &mut table);
    let mut size: u32 = 0;
    let written = jasminebrace::jb_write(&table, out, &mut size);
    Again {
        read,
        written,
        size,
    }
}

// A table author wants one number as it stands in a sheet.
pub fn number_field(figure: u32, field: &mut [u8; 8]) -> u32
    ensures { NumberField figure result field.new }
{
    jasminebrace::jb_field(figure, field)
}

// A table author asks for what the planning program writes.
pub fn program_text(input: &[u8], text: &mut [u8; 1617]) -> u32
    ensures { Text input.now result text.new }
{
    jasminebrace::jb_program(input, text)
}

// A planner asks for an order.
pub fn planner(table: &[u32; 388], order: &mut [u8; 64], left: &mut u64) -> u32
    ensures { Planner (table_in table.now) result order.new left.new }
{
    jasminebrace::jb_plan(table, order, left)
}

// A planner at power-up, beside other work, asks for an order at a ceiling, in trials.
pub fn planner_within(
    table: &[u32; 388],
    ceiling: u32,
    order: &mut [u8; 64],
    left: &mut u64,
    trials: &mut u32,
) -> u32
    ensures { PlannerWithin (table_in table.now) ceiling result order.new left.new trials.new }
{
    jasminebrace::jb_plan_within(table, ceiling, order, left, trials)
}

// A table author plans a sheet and asks what the rows left tell.
pub fn cutting_author(table: &[u32; 388], order: &mut [u8; 64], left: &mut u64) -> u32
    ensures { Planner (table_in table.now) result order.new left.new × (Accepted (table_in table.now) → Cutting (table_in table.now) result left.new) }
{
    jasminebrace::jb_plan(table, order, left)
}

// A maintainer asks how many orders of a sheet are correct, with any scratch.
pub fn maintainer(
    table: &[u32; 388],
    scratch: &mut [u32],
    count: &mut u32,
    lowest: &mut [u32; 64],
) -> u32
    ensures { Maintainer (table_in table.now) scratch.old result count.new lowest.new scratch.new }
{
    jasminebrace::jb_count(table, scratch, count, lowest)
}

// A maker who buys a cooler asks for the least degraded speed that is enough, in work units per slot.
pub fn least_degraded(table: [u32; 388], speed: &mut u32, order: &mut [u8; 64]) -> u32
    ensures { LeastFound table 2 1 (get_or table 1 0) result speed.new order.new }
{
    jasminebrace::jb_least_degraded(&table, speed, order)
}

// A maker who buys a processor asks for the least normal speed that is enough, in work units per slot.
pub fn least_normal(table: [u32; 388], speed: &mut u32, order: &mut [u8; 64]) -> u32
    ensures { LeastFound table 1 (get_or table 2 0) 1000 result speed.new order.new }
{
    jasminebrace::jb_least_normal(&table, speed, order)
}

// The maker of the cooler has a sheet, and reads it too.
pub fn sheet_degraded(sheet: &[u8], speed: &mut u32, order: &mut [u8; 64]) -> Reads
    ensures { LeastRead sheet.now result.read result.table 2 1 (get_or result.table 1 0) result.number speed.new order.new }
{
    let mut table = [0u32; 388];
    let read = jasminebrace::jb_read(sheet, &mut table);
    let number = jasminebrace::jb_read_least_degraded(sheet, speed, order);
    Reads {
        read,
        number,
        table,
    }
}

// The maker of the processor has a sheet, and reads it too.
pub fn sheet_normal(sheet: &[u8], speed: &mut u32, order: &mut [u8; 64]) -> Reads
    ensures { LeastRead sheet.now result.read result.table 1 (get_or result.table 2 0) 1000 result.number speed.new order.new }
{
    let mut table = [0u32; 388];
    let read = jasminebrace::jb_read(sheet, &mut table);
    let number = jasminebrace::jb_read_least_normal(sheet, speed, order);
    Reads {
        read,
        number,
        table,
    }
}

// A firmware writer makes a fresh record of a table and an order.
pub fn firmware_fresh(table: [u32; 388], order: [u8; 64]) -> Begun
    ensures { FreshRecord table order result }
{
    let mut run_table = [0u32; 388];
    let mut run_order = [0u8; 64];
    let mut state = [0u32; 193];
    let number = jasminebrace::jb_fresh(&table, &order, &mut run_table, &mut run_order, &mut state);
    Begun {
        number,
        table: run_table,
        order: run_order,
        state,
    }
}

// A firmware writer asks for the next sheet while another one is plotted.
pub fn next_sheet(sheet: &[u8]) -> Proposed
    ensures { Proposing sheet.now result }
{
    let mut table = [0u32; 388];
    let mut order = [0u8; 64];
    let mut left: u64 = 0;
    let number = jasminebrace::jb_ask(sheet, &mut table, &mut order, &mut left);
    Proposed {
        number,
        left,
        table,
        order,
    }
}

// A firmware writer commits a table and an order to the words of a record.
pub fn firmware_commit(
    table: [u32; 388],
    order: [u8; 64],
    run_table: [u32; 388],
    run_order: [u8; 64],
    run_state: [u32; 193],
) -> Begun
    ensures { Committing table order run_table run_order run_state result }
{
    let mut held_table = run_table;
    let mut held_order = run_order;
    let mut held_state = run_state;
    let number = jasminebrace::jb_commit(
        &table,
        &order,
        &mut held_table,
        &mut held_order,
        &mut held_state,
    );
    Begun {
        number,
        table: held_table,
        order: held_order,
        state: held_state,
    }
}

// A firmware writer asks for the coming row, starts it, and reports the slot's supply in work units afterwards.
pub fn firmware_writer(table: [u32; 388], order: [u8; 64], state: [u32; 193], supply: u32) -> Slots
    ensures { FirmwareWriter table order state supply result }
{
    let mut coming_row: u32 = 0;
    let coming = jasminebrace::jb_coming(&table, &order, &state, &mut coming_row);
    let mut row: u32 = 0;
    let mut next = state;
    let number = jasminebrace::jb_slot(&table, &order, &mut next, supply, &mut row);
    Slots {
        coming,
        coming_row,
        number,
        row,
        next,
    }
}

// A firmware writer works a record forward over many supplies in work units.
pub fn firmware_forward(
    table: [u32; 388],
    order: [u8; 64],
    state: [u32; 193],
    supplies: &[u32],
) -> Forwards
    ensures { Forwarding table order state supplies.now result }
{
    let mut worked: u32 = 0;
    let mut next = state;
    let number = jasminebrace::jb_forward(&table, &order, &mut next, supplies, &mut worked);
    Forwards {
        number,
        worked,
        next,
    }
}

// A pen engineer has a table planned, starts it afresh and works it forward over supplies in work units.
pub fn pen_engineer(table: [u32; 388], supplies: &[u32]) -> Drawing
    ensures { Drawn table supplies.now result }
{
    let mut order = [0u8; 64];
    let mut left: u64 = 0;
    let planned = jasminebrace::jb_plan(&table, &mut order, &mut left);
    let mut run_table = [0u32; 388];
    let mut run_order = [0u8; 64];
    let mut state = [0u32; 193];
    let fresh = jasminebrace::jb_fresh(&table, &order, &mut run_table, &mut run_order, &mut state);
    let mut worked: u32 = 0;
    let forward = jasminebrace::jb_forward(
        &run_table,
        &run_order,
        &mut state,
        supplies,
        &mut worked,
    );
    Drawing {
        planned,
        fresh,
        forward,
        worked,
        order,
        state,
    }
}

// The sales desk has an order judged, with the least slack in slots, and looks at every row's worst finish.
pub fn sales_desk(
    table: &[u32; 388],
    order: &[u8; 64],
    slack: &mut i32,
    finishes: &mut [u32; 64],
) -> Opinion
    ensures { SalesDesk (table_in table.now) order.now result slack.new finishes.new }
{
    let mut yes: u32 = 0;
    let mut row: u32 = 0;
    let number = jasminebrace::jb_judge(table, order, &mut yes, &mut row, slack);
    let timed = jasminebrace::jb_finishes(table, order, finishes);
    Opinion {
        number,
        yes,
        row,
        finishes: timed,
    }
}

// The sales desk has every job listed under an order, into as many bytes as there are.
pub fn job_list(table: [u32; 388], order: [u8; 64], report: &mut [u8], size: &mut u32) -> u32
    ensures { Listing (table_in table) order report.old result size.new report.new }
{
    jasminebrace::jb_report(&table, &order, report, size)
}

// Whoever finds a line in a drawing has it read.
pub fn line_read(composed: u32, line: &[u8]) -> Pasted
    ensures { LineRead composed line.now result }
{
    let mut kind: u32 = 0;
    let mut number: u32 = 0;
    let mut left: u64 = 0;
    let mut order = [0u8; 64];
    let mut trials: u32 = 0;
    let mut yes: u32 = 0;
    let mut row: u32 = 0;
    let mut slack: i32 = 0;
    let read = jasminebrace::jb_read_sentence(
        line,
        &mut kind,
        &mut number,
        &mut left,
        &mut order,
        &mut trials,
        &mut yes,
        &mut row,
        &mut slack,
    );
    Pasted {
        composed,
        read,
        kind,
        number,
        left,
        order,
        trials,
        yes,
        row,
        slack,
    }
}

// A planner pastes an answer of the planner's into a drawing, whatever it holds, and has it read again.
pub fn plan_pasted(number: u32, left: u64, order: [u8; 64], trials: u32) -> Pasted
    ensures { PlanPasted number left order trials result }
{
    let mut line = [0u8; 739];
    let mut size: u32 = 0;
    let composed = jasminebrace::jb_plan_sentence(
        number, left, &order, trials, &mut line, &mut size,
    );
    let length = size as usize;
    line_read(composed, &line[..length])
}

// And an answer of the judge's, with a slack in slots.
pub fn verdict_pasted(number: u32, yes: u32, row: u32, slack: i32) -> Pasted
    ensures { VerdictPasted number yes row slack result }
{
    let mut line = [0u8; 739];
    let mut size: u32 = 0;
    let composed = jasminebrace::jb_judge_sentence(number, yes, row, slack, &mut line, &mut size);
    let length = size as usize;
    line_read(composed, &line[..length])
}

// Whoever links the archive asks which interface it has.
pub fn interface() -> u32
    ensures { result ≡ 5 }
{
    jasminebrace::jb_version()
}
