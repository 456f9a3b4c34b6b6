// No code: what the contracts of the parameter make of demand 3, of bursts of cancels and of a session's cost (specs/ and proofs/).
#![tactic(auto)]
