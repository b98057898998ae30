// What calls through the doors come to, one behind the other, over the bytes that a program in C sees. There is no code
// here: the definitions stand in specs/, and what is proved of the crates below in proofs/Claims.antt.
#![tactic(auto)]
