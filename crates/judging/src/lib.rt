// A record judged: its fields, its table's rules, its mark.
#![tactic(auto)]

mod records;

pub use records::{judge_record, passes};
