// The theory of which of two codes comes first: no function runs here. The definitions are in specs, the theorems in proofs.
#![tactic(auto)]
