// What is proved of the rules of placement: a proof library, with no code.
#![tactic(auto)]
