// The machine over a section's lines.
#![tactic(auto)]

mod machine;

pub use machine::{Moved, step};
