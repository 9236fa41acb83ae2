// zini.rs of ms-toollib as functions on values, and the theorem that its clicks are ours: specs/ and proofs/ are what this crate is for.
#![tactic(auto)]
