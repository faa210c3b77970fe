// A plain second opinion, document 02's Wish 13, and two announces in either order. The definitions are in specs/
// and the theorems in proofs/: no function stands here.
#![tactic(auto)]
