// Verdicts as sentences (section 24 of the rules): what an answer is when it is told, whatever values its fields hold. What its sentence is, and what
// is read from a sentence, stands in specs/; this file has no function.
#![tactic(auto)]

use rules::Check;

// A planner's answer: its number, the rows left as a word, the order, and the trials made (rule 24.1).
#[derive(Clone, Copy)]
pub struct PlanAnswer {
    pub number: u32,
    pub left: u64,
    pub order: [u8; 64],
    pub trials: u32,
}

// A judge's answer: its number, yes as 1 or no as 0, the tightest row, and its slack in slots (rule 24.1). Yes is the number that C holds, which may be any.
#[derive(Clone, Copy)]
pub struct JudgeAnswer {
    pub number: u32,
    pub yes: u32,
    pub row: u32,
    pub slack: i32,
}

// Whose answer a sentence tells (rule 24.11).
#[derive(Clone, Copy)]
pub enum Kind {
    Neither,
    Planner,
    Judge,
}

// The answer of the reader of sentences: the check, whose answer was read, and that answer; the other one is all zero, and with a refusal both are
// (rule 24.11). No `Result` of an enum, since the zeros are promised.
#[derive(Clone, Copy)]
pub struct Told {
    pub check: Check,
    pub kind: Kind,
    pub plan: PlanAnswer,
    pub verdict: JudgeAnswer,
}
