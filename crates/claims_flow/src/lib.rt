// Theorems about the dock's flow, in specs/ and proofs/: the undisturbed flow of every job, written out, and any dock that is not the flow; there is no code.
#![tactic(auto)]
