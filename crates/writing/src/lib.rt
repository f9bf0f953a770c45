// The written form of a file by one writer into lent output: writing, stripping and filling are three plans.
#![tactic(auto)]

mod checked;
mod file;

pub use checked::{fill_checked, strip_checked, write_checked};
