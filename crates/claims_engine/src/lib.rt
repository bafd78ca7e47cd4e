// Theorems about the plain engine of document 02, section 7: it does what feeding the bytes one by one does; there is no code.
#![tactic(auto)]
