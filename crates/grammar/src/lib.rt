// A section's reading is the grammar's: accepted exactly, refused exactly, counted.
#![tactic(auto)]
