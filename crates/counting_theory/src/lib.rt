// The theory of how many tables have a code: no function runs here. The definitions are in specs, the theorems in proofs.
#![tactic(auto)]
