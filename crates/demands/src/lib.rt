// What the relay promises of the bytes that it is lent. Definitions in specs/, theorems in proofs/: no function
// stands here.
#![tactic(auto)]
