// Theorems only: what is written reads back the same, and what is read is written back the same. See proofs/.
#![tactic(auto)]
