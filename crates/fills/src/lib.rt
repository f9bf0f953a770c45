// What refuses the fill of a field that is there.
#![tactic(auto)]

mod filling;

pub use filling::judge_fill;
