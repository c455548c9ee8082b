// The calls for C: each is that of the crate jasminebrace under the same name, with its promises stated again, and only calls it. A crate is a
// library or a static library, not both (docs/PORT.md). c/jasminebrace.h declares these functions.
// Times are in slots, work and supplies in work units, speeds in work units per slot. What is lent as & is only read, and
// what is lent as &mut is written whole by every call, refusals included, but for the bytes that a sheet, a report or a sentence is written to: those
// after it stay as they were, and with a refusal all of them do. A list is a pointer and its length.
#![tactic(auto)]

ghost use Rattle.std.specs.Prelude.{◌≡◌, ◌++◌, ◌-◌, length, replicate};
ghost use Rattle.rules.specs.Choice.{plan_of};
ghost use Rattle.ceiling.specs.Ceiling.{plan_within};
ghost use Rattle.choices.specs.Choices.{count_of};
ghost use Rattle.rules.specs.Judge.{judge_of, table_of};
ghost use Rattle.rules.specs.Numbers.{check_number, planned_number, rows_left, verdict_number, verdict_yes, verdict_row, verdict_slack};
ghost use Rattle.rules.specs.Orders.{check_both};
ghost use Rattle.texts.specs.Fields.{fits_field, written};
ghost use Rattle.texts.specs.Program.{program_text};
ghost use Rattle.proposal.specs.Proposals.{ask_of};
ghost use Rattle.texts.specs.Reports.{report_of};
ghost use Rattle.texts.specs.Sheets.{read_of, write_of};
ghost use Rattle.searches.specs.Speeds.{search_of, search_sheet};
ghost use Rattle.sentences.specs.Sentences.{plan_sentence, judge_sentence, compose_of};
ghost use Rattle.sentences.specs.Reading.{read_sentence, kind_number, number_told};
ghost use Rattle.record.specs.Answers.{slot_said, forward_said};
ghost use Rattle.record.specs.Records.{fresh_of, coming_slot, one_slot, forward_over};
ghost use Rattle.proposal.specs.Commits.{commit_of};
ghost use Rattle.words.specs.Words.{table_in, words_of, run_in, state_words};
ghost use Rattle.jasminebrace.specs.Finishes.{finishes_of, yes_word};
ghost use Rattle.jasminebrace.specs.Packed.{packed_of};
ghost use Rattle.jasminebrace.specs.Searches.{SearchTold};
ghost use Rattle.jasminebrace.specs.Version.{version};

use rules::{Row, Sought};

// Reads a sheet into the words of a table, all zero on a refusal (rule 6.8). Gives the number of the sheet's checks (rule 11.2).
#[unsafe(no_mangle)]
pub extern "C" fn jb_read(sheet: &[u8], table: &mut [u32; 388]) -> u32
    ensures { let reading = read_of sheet.now in (result ≡ check_number reading.check) × (table.new ≡ words_of reading.table) }
{
    jasminebrace::jb_read(sheet, table)
}

// Writes the sheet of a table to the start of lent bytes and gives its length in bytes (rule 15.2); no byte and 0 on a refusal
// (rule 15.5). Gives the number of the writer's checks (rule 11.6).
#[unsafe(no_mangle)]
pub extern "C" fn jb_write(table: &[u32; 388], sheet: &mut [u8], size: &mut u32) -> u32
    ensures { let back = write_of (table_in table.now) sheet.old in
        (result ≡ check_number back.said.check)
        × (size.new ≡ back.said.size)
        × (sheet.new ≡ back.bytes) }
{
    jasminebrace::jb_write(table, sheet, size)
}

// Writes a number as a field of a sheet (rule 15.9). Gives 1 if the field holds the number, 0 if only its last eight digits.
#[unsafe(no_mangle)]
pub extern "C" fn jb_field(figure: u32, field: &mut [u8; 8]) -> u32
    ensures { (result ≡ yes_word (fits_field figure)) × (field.new ≡ written figure) }
{
    jasminebrace::jb_field(figure, field)
}

// Plans an order for a table, all zero where none is made, at a ceiling that is always enough (rule 23.9). Gives 0, 7 with the word of the rows left, or a
// refusal's number (rules 4.6, 4.8, 4.10, 11.3).
#[unsafe(no_mangle)]
pub extern "C" fn jb_plan(table: &[u32; 388], order: &mut [u8; 64], left: &mut u64) -> u32
    ensures { let planning = plan_of (table_in table.now) in
        (result ≡ planned_number planning.answer)
        × (order.new ≡ planning.order)
        × (left.new ≡ rows_left planning.answer) }
{
    jasminebrace::jb_plan(table, order, left)
}

// Plans an order for a table at a ceiling, in trials, and tells the trials made (rules 23.4 to 23.7). Gives 0, 7 with the word of the rows left, 19 if
// the planning takes more trials, or a refusal's number (rule 11.11); the order is all zero where none is made.
#[unsafe(no_mangle)]
pub extern "C" fn jb_plan_within(
    table: &[u32; 388],
    ceiling: u32,
    order: &mut [u8; 64],
    left: &mut u64,
    trials: &mut u32,
) -> u32
    ensures { let counted = plan_within ceiling (table_in table.now) in
        (result ≡ planned_number counted.planning.answer)
        × (order.new ≡ counted.planning.order)
        × (left.new ≡ rows_left counted.planning.answer)
        × (trials.new ≡ counted.trials) }
{
    jasminebrace::jb_plan_within(table, ceiling, order, left, trials)
}

// Counts the correct orders of a table of up to 12 rows (rules 25.4 to 25.6), and tells for each row in how many of them it stands lowest. Afterwards entry m of
// the scratch has the choices of the rows of word m alone. Gives 0, or a refusal's number with counts of 0 and the scratch as it was: a check of the table, 20 for
// more rows, or 10 for fewer than 4,096 numbers (rule 11.13).
#[unsafe(no_mangle)]
pub extern "C" fn jb_count(
    table: &[u32; 388],
    scratch: &mut [u32],
    count: &mut u32,
    lowest: &mut [u32; 64],
) -> u32
    ensures { let back = count_of (table_in table.now) scratch.old in
        (result ≡ check_number back.said.check)
        × (count.new ≡ back.said.count)
        × (lowest.new ≡ back.said.lowest)
        × (scratch.new ≡ back.scratch) }
{
    jasminebrace::jb_count(table, scratch, count, lowest)
}

// Asks for a proposal (rule 22.2): the table of a sheet and an order for it, both all zero where none is made. Gives the reader's number, or 0, or 7 with
// the word of the rows left (rule 11.9).
#[unsafe(no_mangle)]
pub extern "C" fn jb_ask(
    sheet: &[u8],
    table: &mut [u32; 388],
    order: &mut [u8; 64],
    left: &mut u64,
) -> u32
    ensures { let asking = ask_of sheet.now in
        (result ≡ planned_number asking.answer)
        × (table.new ≡ words_of asking.table)
        × (order.new ≡ asking.order)
        × (left.new ≡ rows_left asking.answer) }
{
    jasminebrace::jb_ask(sheet, table, order, left)
}

// The least degraded speed of a table at which a correct order exists, in work units per slot, and the planner's order at it; both zero where
// none does, with 7, and on a refusal (rules 18.4 to 18.6). Gives the number of the search (rule 11.8).
#[unsafe(no_mangle)]
pub extern "C" fn jb_least_degraded(
    table: &[u32; 388],
    speed: &mut u32,
    order: &mut [u8; 64],
) -> u32
    ensures { SearchTold (search_of Sought.Degraded (table_in table.now)) result speed.new order.new }
{
    jasminebrace::jb_least_degraded(table, speed, order)
}

// The same for the normal speed.
#[unsafe(no_mangle)]
pub extern "C" fn jb_least_normal(table: &[u32; 388], speed: &mut u32, order: &mut [u8; 64]) -> u32
    ensures { SearchTold (search_of Sought.Normal (table_in table.now)) result speed.new order.new }
{
    jasminebrace::jb_least_normal(table, speed, order)
}

// The least degraded speed of a sheet (rule 18.7): the reader's numbers first, then as for its table.
#[unsafe(no_mangle)]
pub extern "C" fn jb_read_least_degraded(sheet: &[u8], speed: &mut u32, order: &mut [u8; 64]) -> u32
    ensures { SearchTold (search_sheet Sought.Degraded sheet.now) result speed.new order.new }
{
    jasminebrace::jb_read_least_degraded(sheet, speed, order)
}

// The same for the normal speed.
#[unsafe(no_mangle)]
pub extern "C" fn jb_read_least_normal(sheet: &[u8], speed: &mut u32, order: &mut [u8; 64]) -> u32
    ensures { SearchTold (search_sheet Sought.Normal sheet.now) result speed.new order.new }
{
    jasminebrace::jb_read_least_normal(sheet, speed, order)
}

// Judges an order of a table: yes as 1 or 0, the tightest row, and its slack in slots. All zero on a refusal (rules 7.2 to 7.4).
#[unsafe(no_mangle)]
pub extern "C" fn jb_judge(
    table: &[u32; 388],
    order: &[u8; 64],
    yes: &mut u32,
    row: &mut u32,
    slack: &mut i32,
) -> u32
    ensures { let verdict = judge_of (table_in table.now) order.now in
        (result ≡ verdict_number verdict)
        × (yes.new ≡ yes_word (verdict_yes verdict))
        × (row.new ≡ verdict_row verdict)
        × (slack.new ≡ verdict_slack verdict) }
{
    jasminebrace::jb_judge(table, order, yes, row, slack)
}

// Judges an order of lent rows, two speeds in work units per slot, and a loading in slots (rule 7.1). Gives the verdict in one word, as
// specs/Packed says.
#[unsafe(no_mangle)]
pub extern "C" fn jb_judge_rows(
    rows: &[Row],
    normal: u32,
    degraded: u32,
    loading: u32,
    order: &[u8; 64],
) -> u64
    ensures { result ≡ packed_of (judge_of (table_of rows.now normal degraded loading) order.now) }
{
    jasminebrace::jb_judge_rows(rows, normal, degraded, loading, order)
}

// The worst finish of each row under an order, in slots, zeros after row n (rule 3.6). All zero on a refusal.
#[unsafe(no_mangle)]
pub extern "C" fn jb_finishes(table: &[u32; 388], order: &[u8; 64], finishes: &mut [u32; 64]) -> u32
    ensures { let t = table_in table.now in
        (result ≡ check_number (check_both t order.now))
        × (finishes.new ≡ finishes_of t order.now) }
{
    jasminebrace::jb_finishes(table, order, finishes)
}

// Writes the report of a table under an order to the start of lent bytes and gives its length in bytes (rule 16.5); no byte and 0 on a
// refusal (rule 16.8). Gives the number of the report's checks (rule 11.7).
#[unsafe(no_mangle)]
pub extern "C" fn jb_report(
    table: &[u32; 388],
    order: &[u8; 64],
    report: &mut [u8],
    size: &mut u32,
) -> u32
    ensures { let back = report_of (table_in table.now) order.now report.old in
        (result ≡ check_number back.said.check)
        × (size.new ≡ back.said.size)
        × (report.new ≡ back.bytes) }
{
    jasminebrace::jb_report(table, order, report, size)
}

// Writes the sentence of a planner's answer, whatever its values are, to the start of lent bytes and gives its length in bytes; no byte and 0 with 10
// (rule 24.9). Gives 0, or 10 if there are too few bytes.
#[unsafe(no_mangle)]
pub extern "C" fn jb_plan_sentence(
    number: u32,
    left: u64,
    order: &[u8; 64],
    trials: u32,
    line: &mut [u8],
    size: &mut u32,
) -> u32
    ensures { let back = compose_of (plan_sentence (record { number = number; left = left; order = order.now; trials = trials })) line.old in
        (result ≡ check_number back.said.check)
        × (size.new ≡ back.said.size)
        × (line.new ≡ back.bytes) }
{
    jasminebrace::jb_plan_sentence(number, left, order, trials, line, size)
}

// The same for a judge's answer; yes is 1 and no is 0, and a slack is in slots.
#[unsafe(no_mangle)]
pub extern "C" fn jb_judge_sentence(
    number: u32,
    yes: u32,
    row: u32,
    slack: i32,
    line: &mut [u8],
    size: &mut u32,
) -> u32
    ensures { let back = compose_of (judge_sentence (record { number = number; yes = yes; row = row; slack = slack })) line.old in
        (result ≡ check_number back.said.check)
        × (size.new ≡ back.said.size)
        × (line.new ≡ back.bytes) }
{
    jasminebrace::jb_judge_sentence(number, yes, row, slack, line, size)
}

// Reads a sentence: whose answer it tells, and the answer; the fields of the other kind are 0. Gives 0, or 2 and zeros for all other bytes (rule 24.11).
#[unsafe(no_mangle)]
pub extern "C" fn jb_read_sentence(
    line: &[u8],
    kind: &mut u32,
    number: &mut u32,
    left: &mut u64,
    order: &mut [u8; 64],
    trials: &mut u32,
    yes: &mut u32,
    row: &mut u32,
    slack: &mut i32,
) -> u32
    ensures { let told = read_sentence line.now in
        (result ≡ check_number told.check)
        × (kind.new ≡ kind_number told.kind)
        × (number.new ≡ number_told told.kind told.plan told.verdict)
        × (left.new ≡ told.plan.left)
        × (order.new ≡ told.plan.order)
        × (trials.new ≡ told.plan.trials)
        × (yes.new ≡ told.verdict.yes)
        × (row.new ≡ told.verdict.row)
        × (slack.new ≡ told.verdict.slack) }
{
    jasminebrace::jb_read_sentence(line, kind, number, left, order, trials, yes, row, slack)
}

// Starts a run record of a table and an order, at clock 0. All zero on a refusal (rule 8.2).
#[unsafe(no_mangle)]
pub extern "C" fn jb_fresh(
    table: &[u32; 388],
    order: &[u8; 64],
    run_table: &mut [u32; 388],
    run_order: &mut [u8; 64],
    run_state: &mut [u32; 193],
) -> u32
    ensures { let made = fresh_of (table_in table.now) order.now in
        (result ≡ check_number made.check)
        × (run_table.new ≡ words_of made.run.table)
        × (run_order.new ≡ made.run.order)
        × (run_state.new ≡ state_words made.run) }
{
    jasminebrace::jb_fresh(table, order, run_table, run_order, run_state)
}

// The row that the coming slot runs, before its supply is known; 0 for an idle slot and with 8 or 9 (rule 8.15).
#[unsafe(no_mangle)]
pub extern "C" fn jb_coming(
    table: &[u32; 388],
    order: &[u8; 64],
    state: &[u32; 193],
    row: &mut u32,
) -> u32
    ensures { let said = slot_said (coming_slot (run_in table.now order.now state.now)) in
        (result ≡ said.number)
        × (row.new ≡ said.value) }
{
    jasminebrace::jb_coming(table, order, state, row)
}

// Works one slot with a supply in work units: the state after it, and the row that ran. With 8 or 9 the state stays and the row is 0
// (rules 8.9, 8.13, 8.14).
#[unsafe(no_mangle)]
pub extern "C" fn jb_slot(
    table: &[u32; 388],
    order: &[u8; 64],
    state: &mut [u32; 193],
    supply: u32,
    row: &mut u32,
) -> u32
    ensures { let stepped = one_slot (run_in table.now order.now state.old) supply in
        (result ≡ (slot_said stepped.answer).number)
        × (row.new ≡ (slot_said stepped.answer).value)
        × (state.new ≡ state_words stepped.run) }
{
    jasminebrace::jb_slot(table, order, state, supply, row)
}

// Works one slot for each supply (work units), first to last: the state after them, and the slots worked (rules 8.10, 8.12 to 8.14). The
// record goes through `forward::forward`.
#[unsafe(no_mangle)]
pub extern "C" fn jb_forward(
    table: &[u32; 388],
    order: &[u8; 64],
    state: &mut [u32; 193],
    supplies: &[u32],
    worked: &mut u32,
) -> u32
    ensures { let forwarded = forward_over (run_in table.now order.now state.old) supplies.now in
        (result ≡ (forward_said forwarded.answer).number)
        × (worked.new ≡ (forward_said forwarded.answer).value)
        × (state.new ≡ state_words forwarded.run) }
{
    jasminebrace::jb_forward(table, order, state, supplies, worked)
}

// Commits a table and an order to a run record (rules 22.3 to 22.5): the record has them, its rows are open and empty, and its clock stays. On a refusal the
// record stays as it was. Gives the number of the commit's checks (rule 11.10).
#[unsafe(no_mangle)]
pub extern "C" fn jb_commit(
    table: &[u32; 388],
    order: &[u8; 64],
    run_table: &mut [u32; 388],
    run_order: &mut [u8; 64],
    run_state: &mut [u32; 193],
) -> u32
    ensures { let after = commit_of (run_in run_table.old run_order.old run_state.old)
        (table_in table.now) order.now in
        (result ≡ check_number after.check)
        × (run_table.new ≡ words_of after.run.table)
        × (run_order.new ≡ after.run.order)
        × (run_state.new ≡ state_words after.run) }
{
    jasminebrace::jb_commit(table, order, run_table, run_order, run_state)
}

// Writes what the planning program writes for an input, zeros after it (section 12 of the rules). Gives how many bytes that is.
#[unsafe(no_mangle)]
pub extern "C" fn jb_program(input: &[u8], text: &mut [u8; 1617]) -> u32
    ensures { (result ≡ length (program_text input.now))
        × (text.new ≡ program_text input.now ++ replicate (1617 - length (program_text input.now)) 0) }
{
    jasminebrace::jb_program(input, text)
}

// The number of this interface, for a caller to compare with the one that it was compiled for.
#[unsafe(no_mangle)]
pub extern "C" fn jb_version() -> u32
    ensures { result ≡ version }
{
    jasminebrace::jb_version()
}
