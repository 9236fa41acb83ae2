// docs/RULES.md as definitions and the theorems about them: specs/ and proofs/ are what this crate is for.
#![tactic(auto)]
