// What the lines between clients and server hold in a trial: laws, no code.
#![tactic(auto)]
