// What a store of pages has come to, told from the frames that it took. There is no code here: the definitions stand in
// specs/, and what is proved of the crate below in proofs/Claims.antt.
#![tactic(auto)]
