// What the conditions and the requests say of whole series of the calls that users make: see specs/ for the words, proofs/ for why.
#![tactic(auto)]
