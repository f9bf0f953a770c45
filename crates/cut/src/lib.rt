// The cut of a file into header, sections and trailer.
#![tactic(auto)]

mod cut;
mod sections;
mod seek;

pub use cut::{Survey, count_sections, header_size, survey_file};
pub use sections::{Section, Sections, sections_of};
pub use seek::{find_nth, find_section, section_end};
