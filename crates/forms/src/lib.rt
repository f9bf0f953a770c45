// A file written, stripped and filled, and what refuses it.
#![tactic(auto)]

mod answer;

pub use answer::{fill, strip, write};
