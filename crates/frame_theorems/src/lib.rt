// No code: the frames of a segment and their chain, and the machine of words that they are part of.
#![tactic(auto)]
