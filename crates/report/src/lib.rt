// The report: every job of a table under an order, a line for each place and a last line of totals, written into lent bytes (section 16
// of the rules). Worst finishes and slacks are the judge's own. Each function that puts something writes it where the text goes on, and the
// text goes on after it.
#![tactic(auto)]

ghost use Rattle.std.specs.Prelude.{◌≡◌, [], ◌∷◌, ◌++◌, ◌+◌, ◌*◌, ◌≤◌, ◌<◌, pos, nat_abs, length};
ghost use Rattle.rules.specs.Checks.{Passed};
ghost use Rattle.rules.specs.Lists.{rows_to, joined};
ghost use Rattle.rules.specs.Orders.{check_both};
ghost use Rattle.texts.specs.Reports.{figure, figures, is_late, job_line, needs_of, late_rows, report_text, check_report, report_of};
ghost use Rattle.fields.specs.Texts.{Puts};
ghost use Rattle.report.specs.Jobs.{Timed, JobOf};

use fields::Text;
use judge::Times;
use rules::{Check, Table, Writing};

// A job as its line shows it: the place, from 1, and its row; the row's need at N, worst finish and slack, in slots.
#[derive(Clone, Copy)]
struct Job {
    place: u32,
    row: u8,
    need: u32,
    finish: u32,
    slack: i32,
}

// What the lines of all places come to: their needs at N added up in slots, and how many of their rows have a slack below 0 slots.
#[derive(Clone, Copy)]
struct Listed {
    needs: u32,
    late: u32,
}

// The job at a place, from 1.
fn job_at(t: &Table, order: [u8; 64], times: &Times, place: u32) -> Job
    requires { Timed t.now order times.now × (1 ≤ place) × (place ≤ t.now.n) }
    ensures { JobOf t.now order place result }
{
    let row = order[(place - 1) as usize];
    let due = sweep::entry(&t.deadline, row);
    let need = sweep::entry(&times.need, row);
    let finish = sweep::entry(&times.finish, row);
    let clock = sweep::entry(&times.latest, row);
    let slack = judge::slack(due, clock);
    Job {
        place,
        row,
        need,
        finish,
        slack,
    }
}

// 1 for a slack below 0 slots, else 0.
fn late(slack: i32) -> u32
    ensures { result ≡ is_late slack }
{
    if slack < 0 { 1 } else { 0 }
}

// Two figures that are not below 0.
fn put_counts(text: &mut Text, first: u32, second: u32)
    requires { (first < 100000000) × (second < 100000000) × (text.old.at + 20 ≤ length text.old.out.now) }
    ensures { Puts text.old text.new (figure (pos first) ++ figure (pos second)) }
{
    text.put_count(first);
    text.put_count(second);
}

// The line of a job.
fn put_job(text: &mut Text, job: Job)
    requires { (job.place < 100000000) × (job.need < 100000000) × (job.finish < 100000000) × (nat_abs job.slack < 100000000) × (text.old.at + 51 ≤ length text.old.out.now) }
    ensures { Puts text.old text.new (figures (pos job.place ∷ pos job.row ∷ pos job.need ∷ pos job.finish ∷ job.slack ∷ [])) }
{
    put_counts(text, job.place, job.row as u32);
    put_counts(text, job.need, job.finish);
    text.put_figure(job.slack);
    text.put_byte(b'\n');
}

// The last line: needs added up in slots, and how many rows have a slack below 0 slots.
fn put_totals(text: &mut Text, needs: u32, late: u32)
    requires { (needs < 100000000) × (late < 100000000) × (text.old.at + 21 ≤ length text.old.out.now) }
    ensures { Puts text.old text.new (figures (pos needs ∷ pos late ∷ [])) }
{
    put_counts(text, needs, late);
    text.put_byte(b'\n');
}

// The lines of all places, highest first.
fn put_jobs(text: &mut Text, t: &Table, order: [u8; 64], times: &Times) -> Listed
    requires { Timed t.now order times.now × (text.old.at + 51 * t.now.n ≤ length text.old.out.now) }
    ensures { Puts text.old text.new (joined (job_line t.now order) (rows_to t.now.n))
        × (result.needs ≡ needs_of t.now)
        × (result.late ≡ late_rows t.now order) }
{
    let mut needs: u32 = 0;
    let mut lates: u32 = 0;
    for k in 0..t.n {
        let job = job_at(t, order, times, k + 1);
        put_job(text, job);
        needs += job.need;
        lates += late(job.slack);
    }
    Listed { needs, late: lates }
}

// The text of the report.
fn put_report(text: &mut Text, t: &Table, order: [u8; 64])
    requires { (check_both t.now order ≡ Passed) × (text.old.at + (51 * t.now.n + 21) ≤ length text.old.out.now) }
    ensures { Puts text.old text.new (report_text t.now order) }
{
    let times = judge::timed(*t, order);
    let jobs = put_jobs(text, t, order, &times);
    put_totals(text, jobs.needs, jobs.late);
}

// The report's checks: those of the table and 6, then 10.
fn check_report(t: Table, order: [u8; 64], room: usize) -> Check
    ensures { result ≡ check_report t order room }
{
    let size = 51 * t.n as usize + 21;
    checks::check_both(&t, order).and(checks::check_room(size, room))
}

// The report's answer for any table, any sixty-four numbers and any lent bytes: the report from byte 0 on and its length, the bytes after
// it as they were; or the first check that fails, length 0 and all bytes as they were (rules 16.5 to 16.8, 11.7). 3,285 bytes are enough
// for every table (rule 16.9).
pub fn report(t: Table, order: [u8; 64], out: &mut [u8]) -> Writing
    ensures { let back = report_of t order out.old in (result ≡ back.said) × (out.new ≡ back.bytes) }
{
    let check = check_report(t, order, out.len());
    match check {
        Err(why) => Writing {
            check: Err(why),
            size: 0,
        },
        Ok(()) => {
            let mut text = Text { out, at: 0 };
            put_report(&mut text, &t, order);
            Writing {
                check: Ok(()),
                size: text.at as u32,
            }
        }
    }
}
