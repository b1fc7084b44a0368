// No code: specs/ has the three demands over the bytes of the C calls, and what is promised besides; proofs/ has their proofs.
#![tactic(auto)]
