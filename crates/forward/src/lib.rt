// Forward, the second entry (rule 8.10): a lent run record is worked over lent supplies, one slot for each, by the record's own by-value
// halves of a step, `Run::work` and `Run::close_late`. It keeps a clock that no open LO row's deadline is before; from there on the rows are
// looked through for late ones, and the clock is asked for anew. Supplies are in work units, the clock and the slots worked in slots. What it means stands in record/specs/Records.
#![tactic(auto)]

ghost use Rattle.std.specs.Prelude.{◌≡◌, true};
ghost use Rattle.record.specs.Records.{is_sound, work_on, forward_over};

use record::{ForwardAnswer, Forwarded, Run};
use rules::Refusal;

// The slots worked on a sound record, one for each supply from the first on, until a supply comes at clock 2,000,000 slots (rule 8.13).
fn worked(mut run: Run, supplies: &[u32]) -> Forwarded
    requires { is_sound run ≡ true }
    ensures { result ≡ work_on 0 supplies.now run }
{
    let mut due = run.due();
    let mut slots: u32 = 0;
    for supply in supplies {
        if run.clock >= record::LAST_CLOCK {
            return Forwarded {
                answer: ForwardAnswer::ClockOver(slots),
                run,
            };
        }
        run = run.work(*supply);
        if due <= run.clock {
            run = run.close_late();
            due = run.due();
        }
        slots += 1;
    }
    Forwarded {
        answer: ForwardAnswer::Worked(slots),
        run,
    }
}

// The record is checked once, before its first slot; an unsound one is refused and handed back as it was (rules 8.14, 11.5).
#[tactic(auto, unfolding(record::specs::Records::forward_over))]
fn checked(run: Run, supplies: &[u32]) -> Forwarded
    ensures { result ≡ forward_over run supplies.now }
{
    if !record::is_sound(&run) {
        return Forwarded {
            answer: ForwardAnswer::Refused(Refusal::Unsound),
            run,
        };
    }
    worked(run, supplies)
}

// The second entry: works a lent record over lent supplies, which are only read (rule 9.3), and answers the slots worked or a refusal.
pub fn forward(run: &mut Run, supplies: &[u32]) -> ForwardAnswer
    ensures { (result ≡ (forward_over run.old supplies.now).answer)
        × (run.new ≡ (forward_over run.old supplies.now).run) }
{
    let w = checked(*run, supplies);
    *run = w.run;
    w.answer
}

// The second entry for callers that hold the record by value: it is lent to `forward` and handed back with the answer. Both stand, since rule 8.10 borrows the
// record, and C's call and the claim hold it by value.
pub fn forwarded(mut run: Run, supplies: &[u32]) -> Forwarded
    ensures { result ≡ forward_over run supplies.now }
{
    let answer = forward(&mut run, supplies);
    Forwarded { answer, run }
}
