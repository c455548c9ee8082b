// Counting orders by their lowest rows (rule 25.7): theorems alone; this file has no function.
#![tactic(auto)]
