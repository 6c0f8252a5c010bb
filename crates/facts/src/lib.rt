// Facts about lists, numbers and tests that know nothing of cabinets. They are all in specs/; there is no code here.
#![tactic(auto)]
