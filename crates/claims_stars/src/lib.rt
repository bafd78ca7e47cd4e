// The ★ examples of document 01 as one table under one claim, in specs/ and proofs/; there is no code.
#![tactic(auto)]
