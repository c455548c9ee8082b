// How many trials the planner makes, and its answer at a ceiling (section 23 of the rules). What the answer means stands in specs/; this file has no
// function.
#![tactic(auto)]

use rules::Planning;

// The planner's answer at a ceiling: what was planned, and the trials made (rules 23.4, 23.5).
#[derive(Clone, Copy)]
pub struct Counted {
    pub planning: Planning,
    pub trials: u32,
}
