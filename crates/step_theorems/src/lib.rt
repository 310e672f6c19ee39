// The next instruction of an accepted segment: its plan, and what is known of it.
#![tactic(auto)]
