// The theory of maps: the code of a map, the map of a code, isomorphisms, cycles. There is no code here.
#![tactic(auto)]
