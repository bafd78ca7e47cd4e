// Theorems about the chip beside the chip with the rules before a request: what B0h and pages of 13h and 40h do under both, all else being as it was; there is no code.
#![tactic(auto)]
