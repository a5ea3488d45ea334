// Theorems only: the starred cases, and laws of conflicts for all cells and lists. See proofs/.
#![tactic(auto)]
