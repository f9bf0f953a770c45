// 20: "a reference finds no record".
ghost use Rattle.std.specs.Prelude.{◌≡◌, true, not, [], ◌<◌, ◌≤◌, ◌^◌, MatchOption, IfSome, is_some};
ghost use Rattle.page.specs.Lines.{lines};
ghost use Rattle.page.specs.Tables.{MOST};
ghost use Rattle.page.specs.Answers.{answered};
ghost use Rattle.page.specs.File.{lost, first_record, filed_of};
ghost use Rattle.scans.specs.Scan.{first_line};
ghost use Rattle.seats.specs.Seating.{seat_at, Ready};
ghost use Rattle.seats.specs.Faults.{lost_line, Looked};
ghost use Rattle.aims.specs.Aims.{aim_at, reached, lacks_some, lacks_any};
ghost use Rattle.references.specs.Recently.{Recently};

use crate::children::{guess_from, guess_target, hash_sought, recall};
use aims::{Aim, Aims, take_aims};
use guesses::{Known, find_guessed, find_near};
use keys::Key;
use lines::{Line, lines_of};
use page::Refusal;
use scans::find_from;
use seats::Seats;

// Files of fewer bytes are short, and so are sections.
const FEW: usize = 8192;

// What is known from record to record: where references found theirs; and the key by which the first reference of the last record found its
// own, if one did. It is the version's, which seldom changes.
#[derive(Clone, Copy)]
struct Seen {
    known: Known,
    recent: Option<Key>,
}

// A section whose references are looked for: its table, its bytes, where the references go, and whether the file is short.
#[derive(Clone, Copy)]
struct Section<'a> {
    table: usize,
    bytes: &'a [u8],
    aims: Aims<'a>,
    short: bool,
}

// How many lines from the last record on are read before guesses are made: fewer in a short file, where these cost little.
fn count_near(short: bool) -> usize {
    if short { 4 } else { 16 }
}

impl<'a> Section<'a> {
    // Where the record that a key names stands, if it is soon found. `at` is the place of the line that refers to it.
    fn reach_soon(
        &self,
        at: usize,
        a: Aim,
        r: usize,
        key: Key,
        known: Known,
        g: &[u32],
    ) -> Option<usize>
        ensures { IfSome result (λ _. reached a.entry key.k ≡ true) }
    {
        if at < known.until && known.is_guessed(r) {
            return find_guessed(a.part, g, hash_sought(key, a), a.key, key);
        }
        find_near(
            a.part,
            known.last_place(r),
            count_near(self.short),
            a.key,
            key,
        )
    }

    // With guesses for a reference, unless it has them at a place.
    fn guess_more(&self, at: usize, r: usize, known: Known, g: &mut [u32]) -> Known {
        if at < known.until && known.is_guessed(r) {
            return known;
        }
        if self.short {
            guess_target(self.aims.aim(r), g);
            return known.with_guess(r);
        }
        guess_from(self.bytes, at, &self.aims, known.with_guess(r), g)
    }

    fn reach_late(
        &self,
        at: usize,
        a: Aim,
        r: usize,
        key: Key,
        known: Known,
        g: &[u32],
    ) -> Option<usize>
        ensures { is_some result ≡ reached a.entry key.k }
    {
        if let Some(found) = self.reach_soon(at, a, r, key, known, g) {
            return Some(found);
        }
        find_from(a.part, known.last_place(r), a.key, key)
    }

    // What is known when reference r of the record at a place has found the record that has the key, if it has.
    fn reach(&self, at: usize, r: usize, key: Key, seen: Seen, g: &mut [u32]) -> Option<Known>
        requires { Recently self.now.aims seen.recent }
        ensures { is_some result ≡ reached (aim_at self.now.aims r) key.k }
    {
        if r == 0 && seen.recent == Some(key) {
            return Some(seen.known);
        }
        let a = self.aims.aim(r);
        if let Some(soon) = self.reach_soon(at, a, r, key, seen.known, &g[..]) {
            return Some(seen.known.with_place(r, soon));
        }
        let more = self.guess_more(at, r, seen.known, g);
        let late = self.reach_late(at, a, r, key, more, &g[..])?;
        Some(more.with_place(r, late))
    }

    // What is seen when a line has been read; nothing if it is a record with a reference that finds none.
    fn read_line(&self, line: Line, seen: Seen, g: &mut [u32]) -> Option<Seen>
        requires { Recently self.now.aims seen.recent }
        ensures found { is_some result ≡ not (lacks_some self.now.aims self.now.table line.entry.bytes.now) }
        ensures recent { IfSome result (λ x. Recently self.now.aims x.recent) }
    {
        if !commands::is_record(line.bytes) {
            return Some(seen);
        }
        let f = lines::rest_of(lines::content_of(line.bytes));
        let n = tables::count_references(self.table);
        let mut known = seen.known;
        let mut recent = seen.recent;
        for r in 0..n {
            let key = keys::read_chosen(f, self.aims.aim(r).refer);
            known = self.reach(line.at, r, key, Seen { known, recent }, g)?;
            if r == 0 {
                recent = Some(key);
            }
        }
        Some(Seen { known, recent })
    }

    // The first line with a reference that finds no record, from 1.
    fn find_lost(&self, known: Known, g: &mut [u32]) -> Option<usize>
        ensures { MatchOption result (first_line (lacks_any self.now.aims self.now.table) [] 0 (lines self.now.bytes.now) ≡ 0)
            (λ n. (0 < n) × (first_line (lacks_any self.now.aims self.now.table) [] 0 (lines self.now.bytes.now) ≡ n)) }
    {
        let mut seen = Seen {
            known,
            recent: None,
        };
        for (i, line) in lines_of(self.bytes).enumerate() {
            let Some(next) = self.read_line(line, seen, g) else {
                return Some(i + 1);
            };
            seen = next;
        }
        None
    }
}

// The first such line of section i. Guesses are made in the room g.
fn lost_in(s: &[u8], seats: &Seats, i: usize, g: &mut [u32]) -> Option<usize>
    requires { Ready s.now seats.now × (i < seats.now.count) }
    ensures { MatchOption result (lost_line s.now seats.now (seat_at seats.now i) ≡ 0) (λ n. (0 < n) × (lost_line s.now seats.now (seat_at seats.now i) ≡ n)) }
{
    let seat = seats.seat(i);
    let table = seat.table;
    if tables::count_references(table) == 0 {
        return None;
    }
    let from = seat.from;
    let to = seat.to;
    let section = Section {
        table,
        bytes: &s[from..to],
        aims: take_aims(s, seats, seat),
        short: s.len() < FEW,
    };
    section.find_lost(recall(&section.aims, &g[..]), g)
}

// Entries of the room for the guesses of a short section or file, and of that for any other section.
const LITTLE: usize = 2048;

const MUCH: usize = 57344;

// With a room of so many entries.
fn lost_by<const ROOM: usize>(s: &[u8], seats: &Seats, i: usize) -> Option<usize>
    requires { Ready s.now seats.now × (i < seats.now.count) × (ROOM < 2 ^ 20) }
    ensures { MatchOption result (lost_line s.now seats.now (seat_at seats.now i) ≡ 0) (λ n. (0 < n) × (lost_line s.now seats.now (seat_at seats.now i) ≡ n)) }
{
    let mut g: [u32; ROOM] = [0; ROOM];
    lost_in(s, seats, i, &mut g)
}

// Little room is made for few bytes.
fn lost_line(s: &[u8], seats: &Seats, i: usize) -> Option<usize>
    requires { Ready s.now seats.now × (i < seats.now.count) }
    ensures { MatchOption result (lost_line s.now seats.now (seat_at seats.now i) ≡ 0) (λ n. (0 < n) × (lost_line s.now seats.now (seat_at seats.now i) ≡ n)) }
{
    let seat = seats.seat(i);
    if seat.to - seat.from < FEW {
        lost_by::<LITTLE>(s, seats, i)
    } else {
        lost_by::<MUCH>(s, seats, i)
    }
}

// Among the first n sections. A function that calls itself is never made a part of its caller, nor is one with so much room made a part of
// it: so the larger room of `lost_by` and that of the search for repeated keys are not on the stack together.
fn lost_before(s: &[u8], seats: &Seats, n: usize) -> Result<(), Refusal>
    requires { Ready s.now seats.now × (n ≤ seats.now.count) }
    ensures { Looked s.now seats.now n result }
{
    if n == 0 {
        return Ok(());
    }
    lost_before(s, seats, n - 1)?;
    let Some(line) = lost_line(s, seats, n - 1) else {
        return Ok(());
    };
    Err(Refusal {
        number: 20,
        section: n,
        line,
    })
}

// In a short file one room serves all sections, which refer to the same tables.
fn lost_in_short(s: &[u8], seats: &Seats) -> Result<(), Refusal>
    requires { Ready s.now seats.now }
    ensures { Looked s.now seats.now seats.now.count result }
{
    let mut g: [u32; LITTLE] = [0; LITTLE];
    for i in 0..seats.count {
        if let Some(line) = lost_in(s, seats, i, &mut g) {
            return Err(Refusal {
                number: 20,
                section: i + 1,
                line,
            });
        }
    }
    Ok(())
}

// "each at the first record in file order that breaks it"
pub fn first_lost(s: &[u8], seats: &Seats) -> Result<(), Refusal>
    requires { Ready s.now seats.now }
    ensures { result ≡ answered (first_record 20 (λ before. lost (filed_of s.now)) [] (filed_of s.now)) tt }
{
    if s.len() < FEW {
        lost_in_short(s, seats)
    } else {
        lost_before(s, seats, seats.count)
    }
}
