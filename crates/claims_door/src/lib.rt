// Theorems about the door: reading and writing its layouts are inverse, a refused call keeps the state, and a job's end is told once, with its counts; there is no code.
#![tactic(auto)]
