// The words that every definition of the house is written with; they stand in specs/, and there is no code.
#![tactic(auto)]
