// The examples P1 to P9 as theorems: specs/ has the list and the claim, proofs/ the theorem. There is no code.

#![tactic(auto)]
