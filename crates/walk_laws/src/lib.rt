// Laws of the checker's logic for a proof by hand that follows a function's code: its locals, its calls and loops, its exit, and a slice or
// an array of structs that it lends for one call. There is no code here, so nothing is asked: the laws stand in proofs/. Rattle proves functions
// over such slices itself, and a proof needs these laws only where it walks the code by hand; none does now.
#![tactic(auto)]
