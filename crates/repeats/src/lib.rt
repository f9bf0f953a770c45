// 18, 19: "primary key, second key met before".
#![tactic(auto)]

mod repeats;
mod section;

pub use repeats::first_repeat;
