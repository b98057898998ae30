// What every public function promises is held to one question: are any two outcomes that its contract allows on
// the same arguments equal? The question stands in specs/, the laws by which it is answered in proofs/. Each crate
// answers it for its own functions, in its proofs/Settled.antt. The law on the arms of a `match`, which several crates
// need, stands beside them. There is no code here.
#![tactic(auto)]
