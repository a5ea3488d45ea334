// Theorems on trials: no code. Definitions: specs/TrialRuns.antt.
#![tactic(auto)]
