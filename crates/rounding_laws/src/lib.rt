// No code: laws of rounding over the format, for every crate that rounds.
#![tactic(auto)]
