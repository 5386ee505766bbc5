// Document 02's new subjects as definitions (specs/) and the laws about them (proofs/): no code.
#![tactic(auto)]
