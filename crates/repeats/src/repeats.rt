// 18, 19: "primary key, second key met before".
ghost use Rattle.std.specs.Prelude.{◌≡◌, [], ◌≤◌, length};
ghost use Rattle.page.specs.File.{repeats, first_record, filed_of};
ghost use Rattle.tables.specs.Keys.{by_key};
ghost use Rattle.page.specs.Answers.{answered};
ghost use Rattle.seats.specs.Seating.{Ready};
ghost use Rattle.seats.specs.Faults.{repeat_number, scan_end};
ghost use Rattle.repeats.specs.Parts.{scan_part};

use crate::section::find_repeat;
use choices::{Choice, choose_key};
use keys::{Key, PLACES};
use lines::lines_of;
use page::Refusal;
use scans::find_rise;
use seats::{Seat, Seats};

fn repeat_number(second: bool) -> u32
    ensures { result ≡ repeat_number second }
{
    if second { 19 } else { 18 }
}

// A table without the key has nothing to repeat.
fn find_end(seat: &Seat, choice: Choice) -> usize
    ensures { result ≡ scan_end seat.now choice }
{
    if choice.kinds == 0 {
        seat.from
    } else {
        seat.to
    }
}

fn find_part<'a>(s: &'a [u8], seat: &Seat, choice: Choice) -> &'a [u8]
    requires { (seat.now.from ≤ seat.now.to) × (seat.now.to ≤ length s.now) }
    ensures { result.now ≡ scan_part s.now seat.now choice }
{
    let from = seat.from;
    let to = find_end(seat, choice);
    &s[from..to]
}

// "each at the first record in file order that breaks it": a scan of sections and lines, left by a label at the first offender, is the form
// that document 01 names for it.
pub fn first_repeat(s: &[u8], seats: &Seats, second: bool) -> Result<(), Refusal>
    requires { Ready s.now seats.now }
    ensures { result ≡ answered (first_record (repeat_number second) (repeats (by_key second)) [] (filed_of s.now)) tt }
{
    let mut found = Ok(());
    'scan: for i in 0..seats.count {
        let seat = seats.seat(i);
        let choice = choose_key(seat.table, second, &seat.order);
        let w = find_part(s, seat, choice);
        let mut top = Key { k: [0; PLACES] };
        for line in lines_of(w) {
            match find_rise(line.bytes, choice, top) {
                Ok(key) => top = key,
                Err(_) => {
                    let Some(n) = find_repeat(w, choice) else {
                        continue 'scan;
                    };
                    found = Err(Refusal {
                        number: repeat_number(second),
                        section: i + 1,
                        line: n,
                    });
                    break 'scan;
                }
            }
        }
    }
    found
}
