// One record of the written file.
#![tactic(auto)]

mod record;

pub use record::put_record;
