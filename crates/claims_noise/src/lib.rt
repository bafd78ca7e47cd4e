// Theorems about the chip's definition: noise changes nothing, and one changed byte makes a frame bad; there is no code.
#![tactic(auto)]
