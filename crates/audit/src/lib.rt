// The three demands of document 01, and what they say of the auditor's par list.
#![tactic(auto)]
