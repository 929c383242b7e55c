// The theory of components: no function runs here. Definitions of the local step and of paths are in specs, theorems in proofs.
#![tactic(auto)]
