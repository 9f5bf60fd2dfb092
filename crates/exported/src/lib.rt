// What the exported functions promise, each of which answers one 64-bit number: see specs/ for the words, proofs/ for what follows of them. The functions are those of `capi`.
#![tactic(auto)]
