// The C boundary: the library's calls over lent arrays of numbers. The crate words says how they hold a table and a run record.
// Times are in slots, work and supplies in work units, speeds in work units per slot. What is lent as & is only read, and
// what is lent as &mut is written whole by every call, refusals included, but for the bytes that a sheet, a report or a sentence is written to: those
// after it stay as they were, and with a refusal all of them do. A list is a pointer and its length.
#![tactic(auto)]

ghost use Rattle.std.specs.Prelude.{◌≡◌, ◌++◌, ◌+◌, ◌-◌, length, replicate};
ghost use Rattle.std.specs.Int.{w32};
ghost use Rattle.std.proofs.Common.{of_z};
ghost use Rattle.rules.specs.Choice.{plan_of};
ghost use Rattle.ceiling.specs.Ceiling.{plan_within};
ghost use Rattle.choices.specs.Choices.{count_of};
ghost use Rattle.rules.specs.Judge.{judge_of, table_of};
ghost use Rattle.rules.specs.Numbers.{check_number, planned_number, rows_left, verdict_number, verdict_yes, verdict_row, verdict_slack};
ghost use Rattle.rules.specs.Orders.{check_both};
ghost use Rattle.texts.specs.Fields.{fits_field, written};
ghost use Rattle.texts.specs.Program.{program_text};
ghost use Rattle.proposal.specs.Proposals.{ask_of};
ghost use Rattle.texts.specs.Reports.{report_of};
ghost use Rattle.texts.specs.Sheets.{read_of, write_of};
ghost use Rattle.searches.specs.Speeds.{search_of, search_sheet};
ghost use Rattle.sentences.specs.Sentences.{plan_sentence, judge_sentence, compose_of};
ghost use Rattle.sentences.specs.Reading.{read_sentence, kind_number, number_told};
ghost use Rattle.record.specs.Answers.{slot_said, forward_said};
ghost use Rattle.record.specs.Records.{fresh_of, coming_slot, one_slot, forward_over};
ghost use Rattle.proposal.specs.Commits.{commit_of};
ghost use Rattle.words.specs.Words.{table_in, words_of, run_in, state_words};
ghost use Rattle.jasminebrace.specs.Finishes.{finishes_of, yes_word};
ghost use Rattle.jasminebrace.specs.Packed.{packed_of};
ghost use Rattle.jasminebrace.specs.Searches.{SearchTold};
ghost use Rattle.jasminebrace.specs.Version.{version};

use proposal::Proposal;
use record::Run;
use rules::{Judgement, Planning, Row, Searching, Sought, Table, Verdict};
use sentences::{JudgeAnswer, Kind, PlanAnswer};

// The judge's number, yes as 1 or 0, the tightest row and its slack in slots (rules 7.2 to 7.4).
#[derive(Clone, Copy)]
struct VerdictNumbers {
    number: u32,
    yes: u32,
    row: u32,
    slack: i32,
}

// A verdict as numbers (rules 7.2 to 7.4, 10.0).
fn verdict_numbers(verdict: Judgement) -> VerdictNumbers
    ensures { (result.number ≡ verdict_number verdict)
        × (result.yes ≡ yes_word (verdict_yes verdict))
        × (result.row ≡ verdict_row verdict)
        × (result.slack ≡ verdict_slack verdict) }
{
    match verdict {
        Ok(Verdict::Correct { row, slack }) => VerdictNumbers {
            number: 0,
            yes: 1,
            row: row as u32,
            slack,
        },
        Ok(Verdict::Incorrect { row, slack }) => VerdictNumbers {
            number: 0,
            yes: 0,
            row: row as u32,
            slack,
        },
        Err(why) => VerdictNumbers {
            number: numbers::refusal_number(why),
            yes: 0,
            row: 0,
            slack: 0,
        },
    }
}

// The 32 bits of a slack in slots, two's complement.
fn slack_bits(slack: i32) -> u32
    ensures { result ≡ of_z w32 slack }
{
    slack.cast_unsigned()
}

// A verdict in one word: number, 16 times yes, 32 times the row of least slack, 65536 times the 32 bits of that slack in slots.
fn packed(verdict: Judgement) -> u64
    ensures { result ≡ packed_of verdict }
{
    let numbers = verdict_numbers(verdict);
    numbers.number as u64
        + 16 * numbers.yes as u64
        + 32 * numbers.row as u64
        + 65536 * slack_bits(numbers.slack) as u64
}

// Reads a sheet into the words of a table, all zero on a refusal (rule 6.8). Gives the number of the sheet's checks (rule 11.2).
pub fn jb_read(sheet: &[u8], table: &mut [u32; 388]) -> u32
    ensures { let reading = read_of sheet.now in (result ≡ check_number reading.check) × (table.new ≡ words_of reading.table) }
{
    let reading = sheet::read(sheet);
    *table = words::words_of(reading.table);
    numbers::check_number(reading.check)
}

// Writes the sheet of a table to the start of lent bytes and gives its length in bytes (rule 15.2); no byte and 0 on a refusal
// (rule 15.5). Gives the number of the writer's checks (rule 11.6).
pub fn jb_write(table: &[u32; 388], sheet: &mut [u8], size: &mut u32) -> u32
    ensures { let back = write_of (table_in table.now) sheet.old in
        (result ≡ check_number back.said.check)
        × (size.new ≡ back.said.size)
        × (sheet.new ≡ back.bytes) }
{
    let writing = sheet::write(words::table_in(table), sheet);
    *size = writing.size;
    numbers::check_number(writing.check)
}

// Writes a number as a field of a sheet (rule 15.9). Gives 1 if the field holds the number, 0 if only its last eight digits.
pub fn jb_field(figure: u32, field: &mut [u8; 8]) -> u32
    ensures { (result ≡ yes_word (fits_field figure)) × (field.new ≡ written figure) }
{
    *field = fields::written(figure);
    if figure < 100000000 { 1 } else { 0 }
}

// Plans an order for a table, all zero where none is made, at a ceiling that is always enough (rule 23.9). Gives 0, 7 with the word of the rows left, or a
// refusal's number (rules 4.6, 4.8, 4.10, 11.3).
pub fn jb_plan(table: &[u32; 388], order: &mut [u8; 64], left: &mut u64) -> u32
    ensures { let planning = plan_of (table_in table.now) in
        (result ≡ planned_number planning.answer)
        × (order.new ≡ planning.order)
        × (left.new ≡ rows_left planning.answer) }
{
    let Planning {
        answer,
        order: made,
    } = planner::plan(words::table_in(table));
    let numbers = numbers::plan_numbers(answer);
    *order = made;
    *left = numbers.left;
    numbers.number
}

// Plans an order for a table at a ceiling, in trials, and tells the trials made (rules 23.4 to 23.7). Gives 0, 7 with the word of the rows left, 19 if
// the planning takes more trials, or a refusal's number (rule 11.11); the order is all zero where none is made.
pub fn jb_plan_within(
    table: &[u32; 388],
    ceiling: u32,
    order: &mut [u8; 64],
    left: &mut u64,
    trials: &mut u32,
) -> u32
    ensures { let counted = plan_within ceiling (table_in table.now) in
        (result ≡ planned_number counted.planning.answer)
        × (order.new ≡ counted.planning.order)
        × (left.new ≡ rows_left counted.planning.answer)
        × (trials.new ≡ counted.trials) }
{
    let counted = planner::plan_within(words::table_in(table), ceiling);
    let Planning {
        answer,
        order: made,
    } = counted.planning;
    let numbers = numbers::plan_numbers(answer);
    *order = made;
    *left = numbers.left;
    *trials = counted.trials;
    numbers.number
}

// Counts the correct orders of a table of up to 12 rows (rules 25.4 to 25.6), and tells for each row in how many of them it stands lowest. Afterwards entry m of
// the scratch has the choices of the rows of word m alone. Gives 0, or a refusal's number with counts of 0 and the scratch as it was: a check of the table, 20 for
// more rows, or 10 for fewer than 4,096 numbers (rule 11.13).
pub fn jb_count(
    table: &[u32; 388],
    scratch: &mut [u32],
    count: &mut u32,
    lowest: &mut [u32; 64],
) -> u32
    ensures { let back = count_of (table_in table.now) scratch.old in
        (result ≡ check_number back.said.check)
        × (count.new ≡ back.said.count)
        × (lowest.new ≡ back.said.lowest)
        × (scratch.new ≡ back.scratch) }
{
    let choices = counter::count(words::table_in(table), scratch);
    // Here and below: an array that is a field is stored by way of a variable.
    let each = choices.lowest;
    *count = choices.count;
    *lowest = each;
    numbers::check_number(choices.check)
}

// Asks for a proposal (rule 22.2): the table of a sheet and an order for it, both all zero where none is made. Gives the reader's number, or 0, or 7 with
// the word of the rows left (rule 11.9).
pub fn jb_ask(sheet: &[u8], table: &mut [u32; 388], order: &mut [u8; 64], left: &mut u64) -> u32
    ensures { let asking = ask_of sheet.now in
        (result ≡ planned_number asking.answer)
        × (table.new ≡ words_of asking.table)
        × (order.new ≡ asking.order)
        × (left.new ≡ rows_left asking.answer) }
{
    let asking = proposal::ask(sheet);
    let numbers = numbers::plan_numbers(asking.answer);
    let made = asking.order;
    *table = words::words_of(asking.table);
    *order = made;
    *left = numbers.left;
    numbers.number
}

// Writes the speed and the order that a search found, and gives its number (rules 18.4 to 18.6).
fn put_search(searching: Searching, speed: &mut u32, order: &mut [u8; 64]) -> u32
    ensures { SearchTold searching result speed.new order.new }
{
    let Searching {
        answer,
        order: made,
    } = searching;
    let numbers = numbers::search_numbers(answer);
    *speed = numbers.speed;
    *order = made;
    numbers.number
}

// Two calls of one search, here and for sheets, since these are the names that C calls.
// The least degraded speed of a table at which a correct order exists, in work units per slot, and the planner's order at it; both zero where
// none does, with 7, and on a refusal (rules 18.4 to 18.6). Gives the number of the search (rule 11.8).
pub fn jb_least_degraded(table: &[u32; 388], speed: &mut u32, order: &mut [u8; 64]) -> u32
    ensures { SearchTold (search_of Sought.Degraded (table_in table.now)) result speed.new order.new }
{
    let searching = speeds::least_speed(Sought::Degraded, words::table_in(table));
    put_search(searching, speed, order)
}

// The same for the normal speed.
pub fn jb_least_normal(table: &[u32; 388], speed: &mut u32, order: &mut [u8; 64]) -> u32
    ensures { SearchTold (search_of Sought.Normal (table_in table.now)) result speed.new order.new }
{
    let searching = speeds::least_speed(Sought::Normal, words::table_in(table));
    put_search(searching, speed, order)
}

// The least degraded speed of a sheet (rule 18.7): the reader's numbers first, then as for its table.
pub fn jb_read_least_degraded(sheet: &[u8], speed: &mut u32, order: &mut [u8; 64]) -> u32
    ensures { SearchTold (search_sheet Sought.Degraded sheet.now) result speed.new order.new }
{
    let searching = speeds::sheet_speed(Sought::Degraded, sheet);
    put_search(searching, speed, order)
}

// The same for the normal speed.
pub fn jb_read_least_normal(sheet: &[u8], speed: &mut u32, order: &mut [u8; 64]) -> u32
    ensures { SearchTold (search_sheet Sought.Normal sheet.now) result speed.new order.new }
{
    let searching = speeds::sheet_speed(Sought::Normal, sheet);
    put_search(searching, speed, order)
}

// Judges an order of a table: yes as 1 or 0, the tightest row, and its slack in slots. All zero on a refusal (rules 7.2 to 7.4).
pub fn jb_judge(
    table: &[u32; 388],
    order: &[u8; 64],
    yes: &mut u32,
    row: &mut u32,
    slack: &mut i32,
) -> u32
    ensures { let verdict = judge_of (table_in table.now) order.now in
        (result ≡ verdict_number verdict)
        × (yes.new ≡ yes_word (verdict_yes verdict))
        × (row.new ≡ verdict_row verdict)
        × (slack.new ≡ verdict_slack verdict) }
{
    let verdict = judge::judge_table(words::table_in(table), *order);
    let numbers = verdict_numbers(verdict);
    *yes = numbers.yes;
    *row = numbers.row;
    *slack = numbers.slack;
    numbers.number
}

// Judges an order of lent rows, two speeds in work units per slot, and a loading in slots (rule 7.1). Gives the verdict in one word, as
// specs/Packed says.
pub fn jb_judge_rows(
    rows: &[Row],
    normal: u32,
    degraded: u32,
    loading: u32,
    order: &[u8; 64],
) -> u64
    ensures { result ≡ packed_of (judge_of (table_of rows.now normal degraded loading) order.now) }
{
    packed(judge::judge(rows, normal, degraded, loading, *order))
}

// The worst finish of each row under an order, in slots, zeros after row n (rule 3.6). All zero on a refusal.
pub fn jb_finishes(table: &[u32; 388], order: &[u8; 64], finishes: &mut [u32; 64]) -> u32
    ensures { let t = table_in table.now in
        (result ≡ check_number (check_both t order.now))
        × (finishes.new ≡ finishes_of t order.now) }
{
    let t = words::table_in(table);
    match checks::check_both(&t, *order) {
        Ok(()) => {
            *finishes = judge::worst_finishes(t, *order);
            0
        }
        Err(why) => {
            *finishes = [0; 64];
            numbers::refusal_number(why)
        }
    }
}

// Writes the report of a table under an order to the start of lent bytes and gives its length in bytes (rule 16.5); no byte and 0 on a
// refusal (rule 16.8). Gives the number of the report's checks (rule 11.7).
pub fn jb_report(table: &[u32; 388], order: &[u8; 64], report: &mut [u8], size: &mut u32) -> u32
    ensures { let back = report_of (table_in table.now) order.now report.old in
        (result ≡ check_number back.said.check)
        × (size.new ≡ back.said.size)
        × (report.new ≡ back.bytes) }
{
    let writing = report::report(words::table_in(table), *order, report);
    *size = writing.size;
    numbers::check_number(writing.check)
}

// Whose answer a sentence tells, as a number: 1 for the planner's, 2 for the judge's, 0 for neither's (rule 24.11).
#[tactic(auto, unfolding(sentences::specs::Reading::kind_number))]
fn kind_number(kind: Kind) -> u32
    ensures { result ≡ kind_number kind }
{
    kind as u32
}

// The number of the answer that a sentence tells (rule 24.11). Each arm reads another field, so that no closure is plainer.
fn number_told(kind: Kind, plan: PlanAnswer, verdict: JudgeAnswer) -> u32
    ensures { result ≡ number_told kind plan verdict }
{
    match kind {
        Kind::Neither => 0,
        Kind::Planner => plan.number,
        Kind::Judge => verdict.number,
    }
}

// Writes the sentence of a planner's answer, whatever its values are, to the start of lent bytes and gives its length in bytes; no byte and 0 with 10
// (rule 24.9). Gives 0, or 10 if there are too few bytes.
// As many parameters as C hands over; here and below, and in jasminebrace_c.
pub fn jb_plan_sentence(
    number: u32,
    left: u64,
    order: &[u8; 64],
    trials: u32,
    line: &mut [u8],
    size: &mut u32,
) -> u32
    ensures { let back = compose_of (plan_sentence (record { number = number; left = left; order = order.now; trials = trials })) line.old in
        (result ≡ check_number back.said.check)
        × (size.new ≡ back.said.size)
        × (line.new ≡ back.bytes) }
{
    let answer = PlanAnswer {
        number,
        left,
        order: *order,
        trials,
    };
    let writing = composer::plan_sentence(answer, line);
    *size = writing.size;
    numbers::check_number(writing.check)
}

// The same for a judge's answer; yes is 1 and no is 0, and a slack is in slots.
pub fn jb_judge_sentence(
    number: u32,
    yes: u32,
    row: u32,
    slack: i32,
    line: &mut [u8],
    size: &mut u32,
) -> u32
    ensures { let back = compose_of (judge_sentence (record { number = number; yes = yes; row = row; slack = slack })) line.old in
        (result ≡ check_number back.said.check)
        × (size.new ≡ back.said.size)
        × (line.new ≡ back.bytes) }
{
    let answer = JudgeAnswer {
        number,
        yes,
        row,
        slack,
    };
    let writing = composer::judge_sentence(answer, line);
    *size = writing.size;
    numbers::check_number(writing.check)
}

// Reads a sentence: whose answer it tells, and the answer; the fields of the other kind are 0. Gives 0, or 2 and zeros for all other bytes (rule 24.11).
pub fn jb_read_sentence(
    line: &[u8],
    kind: &mut u32,
    number: &mut u32,
    left: &mut u64,
    order: &mut [u8; 64],
    trials: &mut u32,
    yes: &mut u32,
    row: &mut u32,
    slack: &mut i32,
) -> u32
    ensures { let told = read_sentence line.now in
        (result ≡ check_number told.check)
        × (kind.new ≡ kind_number told.kind)
        × (number.new ≡ number_told told.kind told.plan told.verdict)
        × (left.new ≡ told.plan.left)
        × (order.new ≡ told.plan.order)
        × (trials.new ≡ told.plan.trials)
        × (yes.new ≡ told.verdict.yes)
        × (row.new ≡ told.verdict.row)
        × (slack.new ≡ told.verdict.slack) }
{
    let told = parser::read(line);
    *kind = kind_number(told.kind);
    *number = number_told(told.kind, told.plan, told.verdict);
    *left = told.plan.left;
    let made = told.plan.order;
    *order = made;
    *trials = told.plan.trials;
    *yes = told.verdict.yes;
    *row = told.verdict.row;
    *slack = told.verdict.slack;
    numbers::check_number(told.check)
}

// Starts a run record of a table and an order, at clock 0. All zero on a refusal (rule 8.2).
pub fn jb_fresh(
    table: &[u32; 388],
    order: &[u8; 64],
    run_table: &mut [u32; 388],
    run_order: &mut [u8; 64],
    run_state: &mut [u32; 193],
) -> u32
    ensures { let made = fresh_of (table_in table.now) order.now in
        (result ≡ check_number made.check)
        × (run_table.new ≡ words_of made.run.table)
        × (run_order.new ≡ made.run.order)
        × (run_state.new ≡ state_words made.run) }
{
    let made = record::fresh(words::table_in(table), *order);
    let begun = made.run.order;
    *run_table = words::words_of(made.run.table);
    *run_order = begun;
    *run_state = words::state_words(made.run);
    numbers::check_number(made.check)
}

// The row that the coming slot runs, before its supply is known; 0 for an idle slot and with 8 or 9 (rule 8.15).
pub fn jb_coming(table: &[u32; 388], order: &[u8; 64], state: &[u32; 193], row: &mut u32) -> u32
    ensures { let said = slot_said (coming_slot (run_in table.now order.now state.now)) in
        (result ≡ said.number)
        × (row.new ≡ said.value) }
{
    let run = words::run_in(table, *order, *state);
    let numbers = numbers::slot_numbers(run.coming());
    *row = numbers.value;
    numbers.number
}

// Works one slot with a supply in work units: the state after it, and the row that ran. With 8 or 9 the state stays and the row is 0
// (rules 8.9, 8.13, 8.14).
pub fn jb_slot(
    table: &[u32; 388],
    order: &[u8; 64],
    state: &mut [u32; 193],
    supply: u32,
    row: &mut u32,
) -> u32
    ensures { let stepped = one_slot (run_in table.now order.now state.old) supply in
        (result ≡ (slot_said stepped.answer).number)
        × (row.new ≡ (slot_said stepped.answer).value)
        × (state.new ≡ state_words stepped.run) }
{
    let stepped = words::run_in(table, *order, *state).slot(supply);
    let numbers = numbers::slot_numbers(stepped.answer);
    *state = words::state_words(stepped.run);
    *row = numbers.value;
    numbers.number
}

// Works one slot for each supply (work units), first to last: the state after them, and the slots worked (rules 8.10, 8.12 to 8.14). The
// record goes through `forward::forward`.
pub fn jb_forward(
    table: &[u32; 388],
    order: &[u8; 64],
    state: &mut [u32; 193],
    supplies: &[u32],
    worked: &mut u32,
) -> u32
    ensures { let forwarded = forward_over (run_in table.now order.now state.old) supplies.now in
        (result ≡ (forward_said forwarded.answer).number)
        × (worked.new ≡ (forward_said forwarded.answer).value)
        × (state.new ≡ state_words forwarded.run) }
{
    let run = words::run_in(table, *order, *state);
    let forwarded = forward::forwarded(run, supplies);
    let numbers = numbers::forward_numbers(forwarded.answer);
    *state = words::state_words(forwarded.run);
    *worked = numbers.value;
    numbers.number
}

// Commits a table and an order to a run record (rules 22.3 to 22.5): the record has them, its rows are open and empty, and its clock stays. On a refusal the
// record stays as it was. Gives the number of the commit's checks (rule 11.10).
pub fn jb_commit(
    table: &[u32; 388],
    order: &[u8; 64],
    run_table: &mut [u32; 388],
    run_order: &mut [u8; 64],
    run_state: &mut [u32; 193],
) -> u32
    ensures { let after = commit_of (run_in run_table.old run_order.old run_state.old)
        (table_in table.now) order.now in
        (result ≡ check_number after.check)
        × (run_table.new ≡ words_of after.run.table)
        × (run_order.new ≡ after.run.order)
        × (run_state.new ≡ state_words after.run) }
{
    let proposal = Proposal {
        table: words::table_in(table),
        order: *order,
    };
    let run = words::run_in(run_table, *run_order, *run_state);
    let committed = proposal::commit_held(run, proposal);
    *run_table = words::words_of(committed.run.table);
    let left = committed.run.order;
    *run_order = left;
    *run_state = words::state_words(committed.run);
    numbers::check_number(committed.check)
}

// Writes what the planning program writes for an input, zeros after it (section 12 of the rules). Gives how many bytes that is.
pub fn jb_program(input: &[u8], text: &mut [u8; 1617]) -> u32
    ensures { (result ≡ length (program_text input.now))
        × (text.new ≡ program_text input.now ++ replicate (1617 - length (program_text input.now)) 0) }
{
    *text = [0; 1617];
    text::program(input, text) as u32
}

// The number of this interface, for a caller to compare with the one that it was compiled for.
pub fn jb_version() -> u32
    ensures { result ≡ version }
{
    5
}
