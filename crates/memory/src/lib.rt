// What lent slices hold, said once for every crate that reads or writes them: specs/Memory.antt. There is no code here.
#![tactic(auto)]
