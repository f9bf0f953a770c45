// Each answer as one flat struct, the paper's number first.
#![tactic(auto)]

mod answers;

pub use answers::{HeaderAnswer, LengthAnswer, RowAnswer, TextAnswer, ValueAnswer};
