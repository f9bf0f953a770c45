// Quoted texts, and the marks that they make.
#![tactic(auto)]

mod marks;
mod texts;
mod walk;

pub use marks::{read_remark, wait_on};
pub use texts::{is_empty_text, text_size};
pub use walk::{Met, text_at};
