// The records of a section by their keys.
#![tactic(auto)]

mod scan;

pub use scan::{bears_key, find_from, find_rise, find_start, is_again, key_in};
