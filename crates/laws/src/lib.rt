// No code: a parameter's invariant (specs/), and theorems over `rules` that many proofs want (proofs/).
#![tactic(auto)]
