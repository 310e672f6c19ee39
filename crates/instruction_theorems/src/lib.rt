// The encoder of instructions, as a definition, and what holds of decoding. This crate has no code: specs/ states, proofs/ proves.
#![tactic(auto)]
