// What a frame is answered that was damaged on its way to the receiver. There is no code here: the definitions stand in
// specs/, and what is proved of the crates below in proofs/Claims.antt.
#![tactic(auto)]
