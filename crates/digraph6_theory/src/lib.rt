// The theory of digraph6 lines: no function runs here. The definitions are in specs, the theorems in proofs.
#![tactic(auto)]
