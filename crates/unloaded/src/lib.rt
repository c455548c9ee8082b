// The rules as they were before jobs could load (rule 1.10), as a time of the crate unwaited, and that a table with K = 0 whose r and w are all 0 is answered
// as by them. This crate has specs/ only: Unloaded and OldSheets are definitions, and the other files are what is shown of them.
#![tactic(auto)]
