// Theorems only: what the log program prints is what the log comes to, line by line (document 02, Q-5). See specs/Readings.antt and proofs/.
#![tactic(auto)]
