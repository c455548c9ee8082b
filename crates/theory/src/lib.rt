// The theory of the rules: its definitions and first lemmas stand in specs/, its theorems in proofs/, and proofs/Results.antt is the file to cite.
#![tactic(auto)]
