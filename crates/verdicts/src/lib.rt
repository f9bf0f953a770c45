// The file's answer, number by number.
#![tactic(auto)]
