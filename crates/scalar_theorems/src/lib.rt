// No code: the theorems that say that the definitions of `scalar` are the right ones.
#![tactic(auto)]
