// A new sheet while plotting (section 22 of the rules): asking for a proposal, and committing one to a run record. What they mean stands in
// specs/Proposals and specs/Commits. Clocks, releases and closing slots are in slots.
#![tactic(auto)]

ghost use Rattle.std.specs.Prelude.{◌≡◌, ◌≤◌, leb};
ghost use Rattle.rules.specs.Choice.{plan_of};
ghost use Rattle.rules.specs.Judge.{judge_of};
ghost use Rattle.rules.specs.Lists.{rows_to, all};
ghost use Rattle.rules.specs.Numbers.{verdict_yes};
ghost use Rattle.proposal.specs.Proposals.{nothing_asked, ask_planned, ask_of, check_turn};
ghost use Rattle.rules.specs.Rows.{at};
ghost use Rattle.record.specs.Records.{state_of};
ghost use Rattle.proposal.specs.Commits.{check_commit, commit_of};

use record::Run;
use rules::{Check, Plan, Planned, Planning, Refusal, Table, Verdict};

// What asking answers of a sheet: the reader's refusal, or what the planner answers of its table; and the table and the order proposed, both
// all zero unless an order was made (rule 22.2). No `Result`, since the zeros are promised.
#[derive(Clone, Copy)]
pub struct Asking {
    pub answer: Planned,
    pub table: Table,
    pub order: [u8; 64],
}

// What is proposed to a run record (rule 22.3): a table, and an order for it, row numbers from the highest place down and zeros behind them.
#[derive(Clone, Copy)]
pub struct Proposal {
    pub table: Table,
    pub order: [u8; 64],
}

// The answer of a commit's checks, and the record after it (rules 22.4, 22.5), which a refusal hands back too. Beside the
// fresh record's answer, since each is that of a rule of its own.
#[derive(Clone, Copy)]
pub struct Committed {
    pub check: Check,
    pub run: Run,
}

// Nothing is proposed: a table and an order of zeros beside the answer (rule 22.2).
fn nothing(answer: Planned) -> Asking
    ensures { result ≡ nothing_asked answer }
{
    Asking {
        answer,
        table: record::zero_table(),
        order: [0; 64],
    }
}

// What the planner answers of a table, with the table itself where an order was made.
fn planned(table: Table) -> Asking
    ensures { result ≡ ask_planned (plan_of table).answer table (plan_of table).order }
{
    let Planning { answer, order } = planner::plan(table);
    match answer {
        Ok(Plan::Ordered) => Asking {
            answer,
            table,
            order,
        },
        Ok(Plan::NoOrder(_)) | Err(_) => nothing(answer),
    }
}

// Asking (rule 22.2): the table and the order of a sheet, or the reader's or the planner's refusal with both of them zeros. No record is touched.
pub fn ask(sheet: &[u8]) -> Asking
    ensures { result ≡ ask_of sheet.now }
{
    let reading = sheet::read(sheet);
    match reading.check {
        Err(why) => nothing(Err(why)),
        Ok(()) => planned(reading.table),
    }
}

// Whether each of the first n entries of a column is at least so much.
fn at_least(n: u32, least: u32, column: &[u32; 64]) -> bool
    requires { n ≤ 64 }
    ensures { result ≡ all (λ i. leb least (at column.now i)) (rows_to n) }
{
    column
        .iter()
        .take(n as usize)
        .all(|figure| least <= *figure)
}

// Whether the judge says yes to an order of a table (rule 10.16).
#[tactic(auto, unfolding(rules::specs::Numbers::verdict_yes))]
fn is_correct(table: Table, order: [u8; 64]) -> bool
    ensures { result ≡ verdict_yes (judge_of table order) }
{
    let verdict = judge::judge_table(table, order);
    matches!(verdict, Ok(Verdict::Correct { .. }))
}

// 16, 17 and 18, in this order (rule 11.10): the order is correct, every row of the record is closed, no row proposed is released before its clock.
fn check_turn(run: &Run, proposal: &Proposal) -> Check
    requires { (run.now.table.n ≤ 64) × (proposal.now.table.n ≤ 64) }
    ensures { result ≡ check_turn run.now.table (state_of run.now) proposal.now.table proposal.now.order }
{
    if !is_correct(proposal.table, proposal.order) {
        return Err(Refusal::NotCorrect);
    }
    if !at_least(run.table.n, 1, &run.closing) {
        return Err(Refusal::RowOpen);
    }
    if !at_least(proposal.table.n, run.clock, &proposal.table.release) {
        return Err(Refusal::ReleasedBefore);
    }
    Ok(())
}

// All checks of a commit (rule 11.10): 9 for the record, then those of the proposal.
fn check_commit(run: &Run, proposal: &Proposal) -> Check
    ensures { result ≡ check_commit run.now proposal.now.table proposal.now.order }
{
    if !record::is_sound(run) {
        return Err(Refusal::Unsound);
    }
    checks::check_both(&proposal.table, proposal.order)?;
    check_turn(run, proposal)
}

// A commit on a lent record, which is changed where it is (rules 22.3 to 22.5): it has the table and the order proposed, at the clock that it had and with
// every row open and empty; on a refusal the record is as it was.
pub fn commit(run: &mut Run, proposal: Proposal) -> Check
    ensures { (result ≡ (commit_of run.old proposal.table proposal.order).check)
        × (run.new ≡ (commit_of run.old proposal.table proposal.order).run) }
{
    check_commit(run, &proposal)?;
    let clock = run.clock;
    let next = record::start(proposal.table, proposal.order, clock);
    *run = next;
    Ok(())
}

// A commit for callers that hold the record by value: it is lent to `commit` and handed back with the answer. Rule 22.3 has both forms.
pub fn commit_held(mut run: Run, proposal: Proposal) -> Committed
    ensures { result ≡ commit_of run proposal.table proposal.order }
{
    let check = commit(&mut run, proposal);
    Committed { check, run }
}
