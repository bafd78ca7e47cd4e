// Theorems about capture records and their conversion, in proofs/; there is no code.
#![tactic(auto)]
