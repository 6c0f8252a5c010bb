// Document 01 as definitions, and what is proved of them. They are all in specs/ and proofs/; there is no code here.
#![tactic(auto)]
