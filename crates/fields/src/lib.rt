// One field of a record, read as document 01 says.
#![tactic(auto)]

mod columns;

pub use columns::{Reading, read_field, worth};
