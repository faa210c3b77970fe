// Document 02's Wish 13, about the bytes of both: the second opinion's engine and the core answer alike. The
// statement is in specs/ and its proof in proofs/: no function stands here.
#![tactic(auto)]
