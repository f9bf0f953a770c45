// How a file is written, and what of a record already stands as the form has it.
#![tactic(auto)]

mod plan;
mod standing;

pub use plan::{Change, Fill, Plan, does_stay, plan_record, plan_section};
pub use standing::{all_written, written_end};
