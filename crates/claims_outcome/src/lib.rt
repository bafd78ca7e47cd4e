// No second outcome: for every callable function, what its contract allows is one outcome. In proofs/; there is no code.
#![tactic(auto)]
