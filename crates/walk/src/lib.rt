// The fused walk: definitions and laws, no code.
#![tactic(auto)]
