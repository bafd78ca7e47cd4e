// A first rehearsal: the dock's definition joined to the chip's on an undamaged line, in specs/ and proofs/; there is no code.
#![tactic(auto)]
