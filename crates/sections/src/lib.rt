// One section of a file, by value.
#![tactic(auto)]

mod answers;
mod reading;
mod records;
mod walk;

pub use answers::section;
pub use reading::read_section;
pub use walk::{locate, refuse_with};
