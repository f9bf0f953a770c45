// Where each table stands.
ghost use Rattle.std.specs.Prelude.{◌≡◌, ◌-◌, ◌<◌, ◌⊎◌, get_or, MatchOption};
ghost use Rattle.page.specs.Tables.{TABLES};
ghost use Rattle.page.specs.Answers.{sound};
ghost use Rattle.page.specs.File.{rows_of, first_unsound};
ghost use Rattle.seats.specs.Seating.{seat_at, Seating};

use page::Refusal;
use tables::{TABLES, WIDEST};

// A section: its table by its place in the list of tables, its bytes, and which column stands where in it, so that its `atr` line is read no
// more.
#[derive(Clone, Copy)]
pub struct Seat {
    pub table: usize,
    pub from: usize,
    pub to: usize,
    pub order: [u8; WIDEST],
}

// The sections in file order, and the section of each table, from 1, or 0: `Seating.Seated` speaks of these numbers.
#[derive(Clone, Copy)]
pub struct Seats {
    pub count: usize,
    pub seats: [Seat; TABLES],
    pub place: [usize; TABLES],
}

impl Seats {
    pub fn seat(&self, i: usize) -> &Seat
        requires { i < TABLES }
        ensures { result.now ≡ seat_at self.now i }
    {
        &self.seats[i]
    }

    // The section of a table, if the file has one.
    pub fn seat_of(&self, table: usize) -> Option<&Seat>
        ensures { MatchOption result ((get_or self.now.place table 0 ≡ 0) ⊎ (TABLES < get_or self.now.place table 0))
            (λ a. (0 < get_or self.now.place table 0) × (a.now ≡ seat_at self.now (get_or self.now.place table 0 - 1))) }
    {
        let k = *self.place.get(table)?;
        if k == 0 || TABLES < k {
            return None;
        }
        Some(&self.seats[k - 1])
    }
}

// One walk over the sections, so that the file is never searched for a table again. "17: a table stands a second time".
pub fn seat_tables(s: &[u8]) -> Result<Seats, Refusal>
    requires { first_unsound 1 (rows_of s.now) ≡ sound }
    ensures { Seating s.now result }
{
    let mut seats = [Seat {
        table: 0,
        from: 0,
        to: 0,
        order: [0; WIDEST],
    }; TABLES];
    let mut place = [0; TABLES];
    let mut count = 0;
    for section in cut::sections_of(s) {
        let table = names::table_at(s, section.at);
        if place[table] != 0 {
            return Err(Refusal {
                number: 17,
                section: count + 1,
                line: 1,
            });
        }
        let order = names::find_order(section.bytes, table);
        seats[count] = Seat {
            table,
            from: section.at,
            to: section.end(),
            order,
        };
        count += 1;
        place[table] = count;
    }
    Ok(Seats {
        count,
        seats,
        place,
    })
}
