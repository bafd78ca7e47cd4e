// Theorems about the kept sums: what the call that works them out leaves, that right sums stay right, and which slot an event changes; there is no code.
#![tactic(auto)]
