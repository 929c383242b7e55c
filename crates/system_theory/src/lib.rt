// The theory of systems and of the list of all codes: no function runs here. The definition of the step is in specs, theorems in proofs.
#![tactic(auto)]
