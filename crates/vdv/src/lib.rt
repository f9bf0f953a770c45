// The library's public face: what Rust and C programs call. No call has a condition, and none keeps anything of the file.
#![tactic(auto)]

mod lending;
mod reading;

pub use lending::{vdv_fill, vdv_list, vdv_strip, vdv_table, vdv_text, vdv_write};
pub use reading::{vdv_check, vdv_header, vdv_section, vdv_value};
