// The MBF form of a board: definitions alone, and the theorems about them.
#![tactic(auto)]
