// What is proved of the effects of instructions on words.
#![tactic(auto)]
