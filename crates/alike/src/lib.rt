// Scripts that are alike are compiled alike: specs/ has what that says, proofs/ why.
#![tactic(auto)]
