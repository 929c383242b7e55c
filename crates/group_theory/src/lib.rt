// The theory of codes that write equal components once: no function runs here. The definitions are in specs, the theorems in proofs.
#![tactic(auto)]
