// Sections of the written file.
#![tactic(auto)]

mod section;

pub use section::put_section;
