// No code: the plan of every instruction fits the segment that it was told from, and keeps words of 32 bits.
#![tactic(auto)]
