// The theory of sums and products: no function runs here. Their definitions are in crate patterns; the theorems are in proofs.
#![tactic(auto)]
