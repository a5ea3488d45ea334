// Theorems only: a client with the table of before document 02's Q-2 halts at an operation of kind 5 or 6. See specs/ and proofs/.
#![tactic(auto)]
