// Theorems about the chip's definition: what a single event can do to flash, and what power-on keeps; there is no code.
#![tactic(auto)]
