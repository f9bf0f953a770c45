// Guesses for references. In a short file, the records of a target, all of them and once. Else those of the records of a section, from one
// record on until the room is used up: one walk over these records, and one over the records of each target.
ghost use Rattle.std.specs.Prelude.{◌≤◌};
ghost use Rattle.page.specs.Tables.{MOST};

use aims::{Aim, Aims};
use choices::Choice;
use guesses::{
    Known, add_place, hash_key, hash_line, is_noted, most_keys, note_key, note_place, set_noted,
};
use keys::Key;
use lines::lines_from;
use tables::MOST;

fn widen(t: usize) -> u64 {
    t as u64
}

// Of the record that a line refers to: its table and its key.
fn hash_reference(w: &[u8], at: usize, a: Aim) -> u64 {
    hash_line(w, at, a.refer).hash ^ widen(a.target)
}

// The same by the key.
pub fn hash_sought(key: Key, a: Aim) -> u64 {
    hash_key(key) ^ widen(a.target)
}

// How many keys that were not marked a line refers to.
fn note_record(w: &[u8], at: usize, aims: &Aims, known: Known, g: &mut [u32]) -> usize
    ensures { result ≤ MOST }
{
    let mut new = 0;
    for r in 0..MOST {
        if known.is_guessed(r) && note_key(g, hash_reference(w, at, aims.aim(r))) {
            new += 1;
        }
    }
    new
}

// Where the guesses end.
fn note_records(w: &[u8], at: usize, aims: &Aims, known: Known, g: &mut [u32]) -> usize {
    let most = most_keys(g.len());
    let mut count = 0;
    for line in lines_from(w, at) {
        if most <= count {
            return line.at;
        }
        count += note_record(w, line.at, aims, known, g);
    }
    w.len()
}

// `marked`: only a record whose key is marked is noted.
fn note_target(g: &mut [u32], h: u64, at: usize, marked: bool) {
    if marked {
        note_place(g, h, at);
    } else {
        add_place(g, h, at);
    }
}

// Not by `Lines`: the walk that hashes a line finds where it ends.
fn note_targets(w: &[u8], t: usize, choice: Choice, marked: bool, g: &mut [u32]) {
    let mut from = 0;
    while from < w.len() {
        let here = from;
        let x = hash_line(w, here, choice);
        from = x.next;
        if from <= here {
            return;
        }
        note_target(g, x.hash ^ widen(t), here, marked);
    }
}

// Are the records of the third reference's target noted already, for the second?
fn is_shared(aims: &Aims, known: Known, r: usize) -> bool {
    r == 2 && known.is_guessed(1) && aims.second.target == aims.third.target
}

// `w` is the section, `at` the record's line in it.
pub fn guess_from(w: &[u8], at: usize, aims: &Aims, known: Known, g: &mut [u32]) -> Known {
    g.fill(0);
    let until = note_records(w, at, aims, known, g);
    for r in 0..MOST {
        if known.is_guessed(r) && !is_shared(aims, known, r) {
            let a = aims.aim(r);
            note_targets(a.part, a.target, a.key, true, g);
        }
    }
    known.with_end(until)
}

// Of a short file, the records of a reference's target, unless they are noted.
pub fn guess_target(a: Aim, g: &mut [u32]) {
    if is_noted(&g[..], a.target) {
        return;
    }
    set_noted(g, a.target);
    note_targets(a.part, a.target, a.key, false, g);
}

fn guess_if(known: Known, r: usize, noted: bool) -> Known {
    if noted { known.with_guess(r) } else { known }
}

// What is known before a section is read: which of its references go to a table that is noted.
pub fn recall(aims: &Aims, g: &[u32]) -> Known {
    let a = guess_if(Known::NOTHING, 0, is_noted(g, aims.first.target));
    let b = guess_if(a, 1, is_noted(g, aims.second.target));
    guess_if(b, 2, is_noted(g, aims.third.target))
}
