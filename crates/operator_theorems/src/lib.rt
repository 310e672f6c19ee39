// No code: the theorems about a table of operators that is lent.
#![tactic(auto)]
