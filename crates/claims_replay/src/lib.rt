// Theorems about the replay of captures: the chip's refusals do not occur, pieces print what the whole does, and document 01's whole case prints what it
// prints; there is no code.
#![tactic(auto)]
