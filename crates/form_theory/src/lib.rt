// The theory of the written form: no function runs here. Its definitions are in crate patterns; the theorems are in proofs.
#![tactic(auto)]
