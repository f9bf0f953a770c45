// Sets of hashes as bits: what is not in one is new.
#![tactic(auto)]

mod bits;

pub use bits::{choose_four, choose_two, choose_word, find_lane, has_hash, put_hash};
