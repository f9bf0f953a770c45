// A file's header and trailer.
#![tactic(auto)]

mod answer;
mod find;
mod steps;
mod values;

pub use answer::{header, refuse_header};
pub use steps::read_header;
pub use values::{read_charset, read_values};
