// Texts by the rules: fields, sheets, the planning program's text, the report, and what a text leaves in lent bytes (sections 6, 12, 15
// and 16 of the rules). This crate has specs/ only; the types stand in the crate rules.
#![tactic(auto)]
