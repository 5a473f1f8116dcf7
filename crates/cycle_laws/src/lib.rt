// What the functions of the cycle promise, and the part of their proof that speaks of no code: each way through an offer, a code line and a
// body. It has no code, and so asks nothing: the promises stand in specs/, the laws in proofs/.
#![tactic(auto)]
