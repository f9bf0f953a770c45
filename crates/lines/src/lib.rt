// Lines, and the fields of a line.
#![tactic(auto)]

mod blocks;
mod content;
mod cursor;
mod ends;
mod iter;
mod scan;

pub use content::{
    all_allowed, content_len, content_of, find_semicolon, is_allowed, is_blank, rest_of,
};
pub use cursor::{Cursor, Walked};
pub use iter::{Line, Lines, lines_from, lines_of};
pub use scan::{equal, kept, trim_in, trimmed, unpadded};
