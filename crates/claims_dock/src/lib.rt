// Theorems about the dock, in specs/ and proofs/: stepped, it is the flow, its one result has the flow's counts, and they stay within their bounds; there is no code.
#![tactic(auto)]
