// The lines around records: the header, a table's head, marks and counts.
#![tactic(auto)]

mod heads;
mod titles;
mod written_lines;

pub use heads::put_head;
pub use titles::put_table_head;
pub use written_lines::{put_count_line, put_line, put_mark};
