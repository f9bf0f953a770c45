// Laws that several crates need.
#![tactic(auto)]
