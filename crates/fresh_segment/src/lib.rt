// What a lay out makes of a segment.
#![tactic(auto)]
