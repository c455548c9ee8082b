// The rows left are the whole trouble (section 26 of the rules): definitions and theorems alone; this file has no function.
#![tactic(auto)]
