// Wrong chips that document 01 names, each with an input on which it differs from the definition; there is no code.
#![tactic(auto)]
