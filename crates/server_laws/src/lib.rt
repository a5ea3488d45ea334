// Theorems only: the server's slots after each step, what a success implies, and that every call keeps check 8. See proofs/.
#![tactic(auto)]
