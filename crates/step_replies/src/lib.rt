// The theory of the entries that step from a code to the one beside it: no function runs here. The laws are in proofs.
#![tactic(auto)]
