// Theorems about the rule of 13h as document 02, §2 corrects it: what its pages are told, what the awaited-data record remembers, and who looks at it; there is no code.
#![tactic(auto)]
