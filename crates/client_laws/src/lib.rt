// Theorems only: what the client's steps imply, keep and move, for the theorems on whole runs. See proofs/.
#![tactic(auto)]
