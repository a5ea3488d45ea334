// What an input of the trial program prints is what the words of trial_laws say, numbered: a theorem, in proofs/Printed.antt.
#![tactic(auto)]
