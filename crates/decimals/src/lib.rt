// Numbers, dates and formats put into lent output.
#![tactic(auto)]

mod numbers;

pub use numbers::{put_date, put_decimal, put_format, put_time};
