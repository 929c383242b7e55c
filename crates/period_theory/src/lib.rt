// The theory of the period of a map and of the greatest period of n points: no function runs here. The definitions are in specs, the theorems in proofs.
#![tactic(auto)]
