// Theorems about the chip's definition: a good state stays good, and the chip's refusals do not occur; there is no code.
#![tactic(auto)]
