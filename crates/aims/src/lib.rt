// Where the references of a table go: asked for once a section.
#![tactic(auto)]

ghost use Rattle.std.specs.Prelude.{◌≡◌};
ghost use Rattle.arrangement.specs.Orders.{held, Stands};
ghost use Rattle.seats.specs.Seating.{Ready};
ghost use Rattle.aims.specs.Aims.{aim_at, Aimed, Aiming};

use choices::{Choice, choose_key, choose_reference};
use seats::{Seat, Seats};

// A reference's fields, its target by its place in the list of tables, the bytes of the target's section, none if it has no section, and
// the fields of the target's key.
#[derive(Clone, Copy)]
pub struct Aim<'a> {
    pub refer: Choice,
    pub target: usize,
    pub part: &'a [u8],
    pub key: Choice,
}

// Each has its own field, not a place in an array, so that what a loop needs of them stays in the machine's registers.
#[derive(Clone, Copy)]
pub struct Aims<'a> {
    pub first: Aim<'a>,
    pub second: Aim<'a>,
    pub third: Aim<'a>,
}

impl<'a> Aims<'a> {
    pub fn aim(&self, r: usize) -> Aim<'a>
        ensures { result ≡ aim_at self.now r }
    {
        match r {
            0 => self.first,
            1 => self.second,
            _ => self.third,
        }
    }
}

// Of the section at a seat.
fn take_aim<'a>(s: &'a [u8], seats: &Seats, seat: &Seat, r: usize) -> Aim<'a>
    requires { Ready s.now seats.now × Stands seat.now.table seat.now.order }
    ensures { Aimed s.now seats.now seat.now.table (held seat.now.table seat.now.order) r result }
{
    let refer = choose_reference(seat.table, r, &seat.order);
    let target = tables::find_target(seat.table, r);
    let Some(there) = seats.seat_of(target) else {
        return Aim {
            refer,
            target,
            part: &s[..0],
            key: Choice { kinds: 0, slots: 0 },
        };
    };
    let key = choose_key(target, false, &there.order);
    let from = there.from;
    let to = there.to;
    Aim {
        refer,
        target,
        part: &s[from..to],
        key,
    }
}

pub fn take_aims<'a>(s: &'a [u8], seats: &Seats, seat: &Seat) -> Aims<'a>
    requires { Ready s.now seats.now × Stands seat.now.table seat.now.order }
    ensures { Aiming s.now seats.now seat.now.table (held seat.now.table seat.now.order) result }
{
    Aims {
        first: take_aim(s, seats, seat, 0),
        second: take_aim(s, seats, seat, 1),
        third: take_aim(s, seats, seat, 2),
    }
}
