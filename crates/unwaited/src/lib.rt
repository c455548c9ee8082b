// The rules as they were before a row could follow another (rule 1.12), kept to be compared with, and that a table whose w is all 0 is answered as by
// them. This crate has no function: Unwaited, OldSheets, OldTexts and OldRecords are definitions, and the other files are what is shown of them.
#![tactic(auto)]
