// The theory of digraph6 lines [document 02, paper 10]: no function runs here. The definitions are in patterns, the theorems in proofs.
#![tactic(auto)]
