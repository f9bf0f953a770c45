// Written and read again it is the same.
#![tactic(auto)]
