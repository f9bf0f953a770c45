// Dates and times.
#![tactic(auto)]

mod dates;
mod places;

pub use dates::{is_date, is_time, read_date, read_time};
