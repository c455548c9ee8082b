// Least workable speeds by the rules (section 18 of the rules). This crate has specs/ only; the types stand in the crate rules.
#![tactic(auto)]
