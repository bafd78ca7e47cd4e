// Theorems about the frame layer's definitions, in proofs/; there is no code.
#![tactic(auto)]
