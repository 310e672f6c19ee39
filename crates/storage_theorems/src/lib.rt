// The theorems of array storage: blocks and ring, and the words that own arrays. A proof library, with no code.
#![tactic(auto)]
