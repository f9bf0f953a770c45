// The file's answer.
#![tactic(auto)]

mod answer;
mod unsound;

pub use answer::{check, check_file, check_known};
