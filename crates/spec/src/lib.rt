// The specification is in specs/ and proofs/; it has no code.
#![tactic(auto)]
