// A file's trailer.
#![tactic(auto)]

mod trailer;

pub use trailer::read_trailer;
