// 20: "a reference finds no record".
#![tactic(auto)]

mod children;
mod references;

pub use references::first_lost;
