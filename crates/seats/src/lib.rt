// Where each table stands.
#![tactic(auto)]

mod seating;

pub use seating::{Seat, Seats, seat_tables};
