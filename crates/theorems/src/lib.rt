// No code: specs/ has the words of the demands' theorems, and proofs/ the theorems.
#![tactic(auto)]
