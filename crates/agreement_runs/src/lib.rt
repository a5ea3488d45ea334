// Runs of several clients, for any keys, that show what demand 3 says: see proofs/Witness.antt, proofs/OldPlace.antt
// and proofs/EarlyCommit.antt.
#![tactic(auto)]
