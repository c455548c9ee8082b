// The rules as they were before a job could be promised a part of its work (rule 1.11), as a time of the crate unwaited, and that a table whose r and w are
// all 0 is answered as by them. This crate has specs/ only: Unpromised is a definition, and the other files are what is shown of it.
#![tactic(auto)]
