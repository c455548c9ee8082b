// The numbers and values of the answers, as numbers (section 10 of the rules).
#![tactic(auto)]

ghost use Rattle.std.specs.Prelude.{◌≡◌};
ghost use Rattle.rules.specs.Numbers.{refusal_number, check_number, planned_number, rows_left, searched_number, searched_speed};
ghost use Rattle.record.specs.Answers.{slot_said, forward_said};

use record::{ForwardAnswer, SlotAnswer};
use rules::{Check, Plan, Planned, Refusal, Searched};

// A run call's number, and its value: the row run, or the slots worked.
#[derive(Clone, Copy)]
pub struct CallNumbers {
    pub number: u32,
    pub value: u32,
}

// The planner's number, and the word of the rows left.
#[derive(Clone, Copy)]
pub struct PlanNumbers {
    pub number: u32,
    pub left: u64,
}

// The number of a search for a speed, and the speed found in work units per slot.
#[derive(Clone, Copy)]
pub struct SearchNumbers {
    pub number: u32,
    pub speed: u32,
}

// The number of a refusal.
#[tactic(auto, unfolding(rules::specs::Numbers::refusal_number))]
pub fn refusal_number(why: Refusal) -> u32
    ensures { result ≡ refusal_number why }
{
    why as u32
}

// The number of a check.
#[tactic(auto, unfolding(rules::specs::Numbers::check_number))]
pub fn check_number(check: Check) -> u32
    ensures { result ≡ check_number check }
{
    match check {
        Ok(()) => 0,
        Err(why) => refusal_number(why),
    }
}

// The number of the planner's answer, and the rows left.
#[tactic(auto, unfolding(rules::specs::Numbers::planned_number, rules::specs::Numbers::rows_left))]
pub fn plan_numbers(answer: Planned) -> PlanNumbers
    ensures { (result.number ≡ planned_number answer) × (result.left ≡ rows_left answer) }
{
    match answer {
        Ok(Plan::Ordered) => PlanNumbers { number: 0, left: 0 },
        Ok(Plan::NoOrder(left)) => PlanNumbers { number: 7, left },
        Err(why) => PlanNumbers {
            number: refusal_number(why),
            left: 0,
        },
    }
}

// The number of a search's answer, and the speed found.
#[tactic(auto, unfolding(rules::specs::Numbers::searched_number, rules::specs::Numbers::searched_speed))]
pub fn search_numbers(answer: Searched) -> SearchNumbers
    ensures { (result.number ≡ searched_number answer) × (result.speed ≡ searched_speed answer) }
{
    match answer {
        Ok(Some(speed)) => SearchNumbers { number: 0, speed },
        Ok(None) => SearchNumbers {
            number: 7,
            speed: 0,
        },
        Err(why) => SearchNumbers {
            number: refusal_number(why),
            speed: 0,
        },
    }
}

// The number of one slot's answer, and the row run.
#[tactic(auto, unfolding(record::specs::Answers::slot_said))]
pub fn slot_numbers(answer: SlotAnswer) -> CallNumbers
    ensures { (result.number ≡ (slot_said answer).number) × (result.value ≡ (slot_said answer).value) }
{
    match answer {
        Ok(row) => CallNumbers {
            number: 0,
            value: row as u32,
        },
        Err(why) => CallNumbers {
            number: refusal_number(why),
            value: 0,
        },
    }
}

// The number of the second entry's answer, and the slots worked.
#[tactic(auto, unfolding(record::specs::Answers::forward_said))]
pub fn forward_numbers(answer: ForwardAnswer) -> CallNumbers
    ensures { (result.number ≡ (forward_said answer).number) × (result.value ≡ (forward_said answer).value) }
{
    match answer {
        ForwardAnswer::Worked(slots) => CallNumbers {
            number: 0,
            value: slots,
        },
        ForwardAnswer::ClockOver(slots) => CallNumbers {
            number: 8,
            value: slots,
        },
        ForwardAnswer::Refused(why) => CallNumbers {
            number: refusal_number(why),
            value: 0,
        },
    }
}
