// Numbers and the digits that they are written with.
#![tactic(auto)]

mod numbers;
mod walk;

pub use numbers::{is_digit, read_digits, read_number};
pub use walk::{Counted, ends_at, number_at, skip_space};
