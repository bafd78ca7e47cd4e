// Theorems about the chip's definition: a whole frame fed is the frame done, and what a frame does that is not good; there is no code.
#![tactic(auto)]
