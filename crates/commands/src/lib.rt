// A line's command, and its fields.
#![tactic(auto)]

mod command;
mod fields;

pub use command::{Command, begins_end, begins_table, begins_with, is_clean, is_record};
pub use fields::{Field, Fields, count_fields, field_at, field_end, fields_of, find_field};
