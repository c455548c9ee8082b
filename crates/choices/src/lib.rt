// How much choice there is (section 25 of the rules): how many orders of a table are correct. What the answer means stands in specs/; this file has no
// function.
#![tactic(auto)]

use rules::Check;

// What counting answers: passed or why not, the count of correct orders, and for each row in how many of them it stands lowest, zeros after the last
// (rules 25.4 to 25.6). No `Result`, since counts of 0 are promised with a refusal.
#[derive(Clone, Copy)]
pub struct Choices {
    pub check: Check,
    pub count: u32,
    pub lowest: [u32; 64],
}
