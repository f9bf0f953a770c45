// The keys of records, by value.
#![tactic(auto)]

mod key;
mod read;

pub use key::{Key, PLACES, hash_key, mix};
pub use read::read_chosen;
