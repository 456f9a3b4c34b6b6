// No code: theorems over the rules.
#![tactic(auto)]
