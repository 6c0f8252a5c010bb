// That a cabinet goes on: definitions in specs/, and what is proved of them in proofs/; there is no code here.
#![tactic(auto)]
