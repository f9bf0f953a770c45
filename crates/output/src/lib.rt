// Bytes put into lent output, one form after another. Each function writes only inside the room and always moves on: with no room it only
// counts.
#![tactic(auto)]

mod bytes;
mod handed;
mod room;

pub use bytes::Output;
pub use handed::{Form, put_whole};
pub use room::refuse_room;
