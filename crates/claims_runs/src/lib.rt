// Theorems about runs of the chip's definition: what a refusal, the window, A0h and A2h, a cut and a job's frames can change; there is no code.
#![tactic(auto)]
