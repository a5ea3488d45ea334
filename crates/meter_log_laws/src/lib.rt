// Theorems only: a column added to the log leaves what its lines come to the same (document 02, Q-5). See specs/Added.antt and proofs/.
#![tactic(auto)]
