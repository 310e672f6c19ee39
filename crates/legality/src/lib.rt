// No code: a legal machine is what the view of an accepted segment is, told by cells, and every instruction keeps it so.
#![tactic(auto)]
