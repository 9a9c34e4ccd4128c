// Polynomials over the bits and their product modulo a primitive polynomial: what the byte field and the half-byte field compute.
// There is no code here, only the definitions (specs) and the proof that they keep the laws of a field (proofs).
#![tactic(auto)]
