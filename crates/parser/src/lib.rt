// The reader of sentences (rule 24.11). The figures in any bytes, in their sequence, give one planner's answer and one judge's answer; the bytes are a
// sentence exactly if they are that of one of the two, composed again.
#![tactic(auto)]

ghost use Rattle.std.specs.Prelude.{◌≡◌, not, ◌≤◌, eqb, length, get_or, take, drop};
ghost use Rattle.rules.specs.Lists.{same, count};
ghost use Rattle.sentences.specs.Sentences.{plan_sentence, judge_sentence};
ghost use Rattle.sentences.specs.RoundTrip.{PlanFits, JudgeFits};
ghost use Rattle.sentences.specs.Reading.{grown, figures_in, at_most, marked, word_of, small, plan_in, slack_of, judge_from, judge_in, no_plan, no_verdict, read_sentence};
ghost use Rattle.parser.specs.Figures.{FigureAt, PlacesAt};

use rules::Refusal;
use sentences::{JudgeAnswer, Kind, PlanAnswer, Told};

// A figure that was read, 0 if there is none, and the byte to go on from.
#[derive(Clone, Copy)]
struct Figure {
    value: u32,
    next: usize,
}

// Sixty-four small numbers that were read, and the byte to go on from. An array with zeros after the last, as an order is: there is no heap.
#[derive(Clone, Copy)]
struct Places {
    order: [u8; 64],
    next: usize,
}

// A digit more; 4,294,967,295 stands for all that is above it.
#[tactic(auto, unfolding(sentences::specs::Reading::grown))]
fn grown(value: u32, b: u8) -> u32
    ensures { result ≡ grown value b }
{
    let more = 10 * (value as u64) + fields::digit(b) as u64;
    more.min(4294967295) as u32
}

// The first figure from a byte on.
fn next_figure(bytes: &[u8], from: usize) -> Figure
    requires { from ≤ length bytes.now }
    ensures { FigureAt bytes.now from result }
{
    let mut begun = false;
    let mut value: u32 = 0;
    for i in from..bytes.len() {
        let b = bytes[i];
        if fields::digit_from(b'0', b) {
            begun = true;
            value = grown(value, b);
        } else if begun {
            return Figure { value, next: i };
        }
    }
    Figure {
        value,
        next: bytes.len(),
    }
}

// At most 64 of them.
fn at_most(many: u32) -> usize
    ensures { result ≡ at_most many }
{
    many.min(64) as usize
}

// At most 255.
fn small(value: u32) -> u8
    ensures { result ≡ small value }
{
    value.min(255) as u8
}

// The next so many figures as small numbers, zeros after them.
fn read_places(bytes: &[u8], from: usize, many: usize) -> Places
    requires { (from ≤ length bytes.now) × (many ≤ 64) }
    ensures { PlacesAt bytes.now from many result }
{
    let mut order = [0u8; 64];
    let mut next = from;
    for i in 0..many {
        let figure = next_figure(bytes, next);
        next = figure.next;
        order[i] = small(figure.value);
    }
    Places { order, next }
}

// A row more in a word, if it is one of 64 and not there yet.
#[tactic(auto, unfolding(sentences::specs::Reading::marked, sweep::specs::Masks::bit))]
fn marked(word: u64, row: u32) -> u64
    ensures { result ≡ marked word row }
{
    if row < 1 || 64 < row || sweep::has(word, row as u8) {
        return word;
    }
    sweep::with(word, row as u8)
}

// The word of the next so many figures.
fn read_rows(bytes: &[u8], from: usize, many: usize) -> u64
    requires { from ≤ length bytes.now }
    ensures { result ≡ word_of 0 (take many (figures_in (drop from bytes.now))) }
{
    let mut word: u64 = 0;
    let mut next = from;
    for _ in 0..many {
        let figure = next_figure(bytes, next);
        next = figure.next;
        word = marked(word, figure.value);
    }
    word
}

// The planner's answer in the bytes.
fn read_plan(bytes: &[u8]) -> PlanAnswer
    ensures { result ≡ plan_in (figures_in bytes.now) }
{
    let number = next_figure(bytes, 0);
    let trials = next_figure(bytes, number.next);
    let filled = next_figure(bytes, trials.next);
    let Places { order, next } = read_places(bytes, filled.next, at_most(filled.value));
    let rows = next_figure(bytes, next);
    let left = read_rows(bytes, rows.next, at_most(rows.value));
    PlanAnswer {
        number: number.value,
        left,
        order,
        trials: trials.value,
    }
}

// Some byte is a minus.
fn has_minus(bytes: &[u8]) -> bool
    ensures { result ≡ not (eqb (count 45 bytes.now) 0) }
{
    bytes.contains(&b'-')
}

// The byte at which yes or no begins, 0 if there are not so many.
fn letter(bytes: &[u8]) -> u8
    ensures { result ≡ get_or bytes.now 15 0 }
{
    bytes.get(15).copied().unwrap_or(0)
}

// The slack of this size in slots, below 0 or not.
fn slack_of(minus: bool, size: u32) -> i32
    ensures { result ≡ slack_of minus size }
{
    if minus {
        -(size.min(2147483648) as i64) as i32
    } else {
        size.min(2147483647) as i32
    }
}

// A judge's answer with this yes or no, and the other fields from a byte on.
fn judge_from(bytes: &[u8], from: usize, yes: u32) -> JudgeAnswer
    requires { from ≤ length bytes.now }
    ensures { result ≡ judge_from (not (eqb (count 45 bytes.now) 0)) yes (figures_in (drop from bytes.now)) }
{
    let number = next_figure(bytes, from);
    let row = next_figure(bytes, number.next);
    let size = next_figure(bytes, row.next);
    JudgeAnswer {
        number: number.value,
        yes,
        row: row.value,
        slack: slack_of(has_minus(bytes), size.value),
    }
}

// The judge's answer in the bytes.
#[tactic(auto, unfolding(sentences::specs::Reading::judge_in))]
fn read_judge(bytes: &[u8]) -> JudgeAnswer
    ensures { result ≡ judge_in bytes.now }
{
    match letter(bytes) {
        b'y' => judge_from(bytes, 0, 1),
        b'n' => judge_from(bytes, 0, 0),
        _ => {
            let yes = next_figure(bytes, 0);
            judge_from(bytes, yes.next, yes.value)
        }
    }
}

// Two runs of bytes are the same. By hand, and not by `==`: to take other bytes of the same length an edit of `==` would need another form, and be refused for
// that alone.
fn same(first: &[u8], second: &[u8]) -> bool
    ensures { result ≡ same first.now second.now }
{
    if first.len() != second.len() {
        return false;
    }
    for (i, byte) in first.iter().enumerate() {
        if *byte != second[i] {
            return false;
        }
    }
    true
}

// The bytes are the first so many of those that were made.
fn are_made(bytes: &[u8], made: &[u8], size: u32) -> bool
    requires { size ≤ length made.now }
    ensures { result ≡ same bytes.now (take size made.now) }
{
    same(bytes, &made[..size as usize])
}

// The bytes are the sentence of this planner's answer.
fn is_plan(bytes: &[u8], answer: PlanAnswer) -> bool
    requires { PlanFits answer }
    ensures { result ≡ same bytes.now (plan_sentence answer) }
{
    let mut made = [0u8; composer::LONGEST];
    let writing = composer::plan_sentence(answer, &mut made);
    are_made(bytes, &made, writing.size)
}

// The bytes are the sentence of this judge's answer.
fn is_judge(bytes: &[u8], answer: JudgeAnswer) -> bool
    requires { JudgeFits answer }
    ensures { result ≡ same bytes.now (judge_sentence answer) }
{
    let mut made = [0u8; composer::LONGEST_VERDICT];
    let writing = composer::judge_sentence(answer, &mut made);
    are_made(bytes, &made, writing.size)
}

// A planner's answer of zeros.
fn no_plan() -> PlanAnswer
    ensures { result ≡ no_plan }
{
    PlanAnswer {
        number: 0,
        left: 0,
        order: [0; 64],
        trials: 0,
    }
}

// A judge's answer of zeros.
fn no_verdict() -> JudgeAnswer
    ensures { result ≡ no_verdict }
{
    JudgeAnswer {
        number: 0,
        yes: 0,
        row: 0,
        slack: 0,
    }
}

// What any bytes tell: whose answer, and that answer; or 2, and zeros (rule 24.11).
pub fn read(bytes: &[u8]) -> Told
    ensures { result ≡ read_sentence bytes.now }
{
    let no_plan = no_plan();
    let no_verdict = no_verdict();
    let plan = read_plan(bytes);
    if is_plan(bytes, plan) {
        return Told {
            check: Ok(()),
            kind: Kind::Planner,
            plan,
            verdict: no_verdict,
        };
    }
    let verdict = read_judge(bytes);
    if is_judge(bytes, verdict) {
        return Told {
            check: Ok(()),
            kind: Kind::Judge,
            plan: no_plan,
            verdict,
        };
    }
    Told {
        check: Err(Refusal::Malformed),
        kind: Kind::Neither,
        plan: no_plan,
        verdict: no_verdict,
    }
}
