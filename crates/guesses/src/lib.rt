// Guesses where a record may stand.
#![tactic(auto)]

mod follow;
mod guesses;
mod hashes;
mod known;
mod noted;

pub use follow::{find_guessed, find_near};
pub use guesses::{most_keys, note_key, note_place};
pub use hashes::{hash_key, hash_line};
pub use known::Known;
pub use noted::{add_place, is_noted, set_noted};
