// The rules of a header's lines.
#![tactic(auto)]

mod met;
mod names;
mod rules;

pub use met::{end_header, meet, was_met};
pub use names::is_latin_name;
pub use rules::{holds, read_mode};
