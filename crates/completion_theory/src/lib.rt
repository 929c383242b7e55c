// The theory of the first table within spans that has a system: no function runs here. The definitions are in specs, the theorems in proofs.
#![tactic(auto)]
