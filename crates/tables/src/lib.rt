// "The columns, kinds, ranges and keys stand once, as fixed tables": for the reader, the checker and the writer alike.
#![tactic(auto)]

mod columns;
mod references;
mod rows;

pub use columns::{
    find_column, find_name, find_number, find_rule, find_title, find_width, is_fillable, is_text,
};
pub use references::{count_references, find_key, find_reference, find_target};
pub use rows::Rule;

pub const TABLES: usize = 10;

// The columns of the widest table, and the most references that a table has.
pub const WIDEST: usize = 20;

pub const MOST: usize = 3;
