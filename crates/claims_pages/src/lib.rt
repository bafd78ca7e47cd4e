// Theorems about a page of 40h as document 02, §6 corrects it: what programming makes of bytes, what is told and left, and that bits only clear; there is no code.
#![tactic(auto)]
