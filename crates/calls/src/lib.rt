// What the calls answer, number by number.
#![tactic(auto)]
