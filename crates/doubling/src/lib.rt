// Texts put into lent output: with their quotes, where one inside is doubled, or their own bytes alone.
#![tactic(auto)]

mod own;
mod texts;

pub use own::hand_own;
pub use texts::{put_quoted, put_raw, put_raw_part};
