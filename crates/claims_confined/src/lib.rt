// Theorems about the chip's definition and a job of the dock: a job's frames change nothing outside the job's range; there is no code.
#![tactic(auto)]
