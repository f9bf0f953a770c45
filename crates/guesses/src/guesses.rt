// Where the record that a reference names may stand: an open table by the hash of the target and the key. An entry is 0; or the mark of a
// key that is referred to; or, once the target's record with that mark was met, the record's place and seven bits of the hash. What it
// holds is a guess: the record is read before it is believed, so a wrong one costs time only.
ghost use Rattle.std.specs.Prelude.{◌≡◌, ◌*◌, ◌/◌, ◌<◌, ◌≤◌};

use bits::choose_word;

// Marks begin here, so that no place is taken for one.
const MARKS: u64 = 2147483648;

// A section's places end here: a file is no longer.
const PLACES: usize = 16777216;

// How many keys are marked in a room of n entries: with more the walk from a slot is long.
pub fn most_keys(n: usize) -> usize
    ensures { result ≡ n / 10 * 7 }
{
    n / 10 * 7
}

// Where a key's entries begin, in a room of n. They follow each other without a turn at the end: the last slot has some behind it.
pub fn find_slot(h: u64, n: usize) -> usize
    ensures { result ≤ n }
{
    choose_word(h / 1073741824, n - n / 64 + 1)
}

fn find_mark(h: u64) -> u32 {
    (h % MARKS + MARKS) as u32
}

// The bits of a hash that stand beside a place.
pub fn find_bits(h: u64) -> u32
    ensures { result < 128 }
{
    (h % 127 + 1) as u32
}

// At the first entry from a key's slot on that is its mark or 0, puts what is to stand there in either case. Was it 0?
fn put_entry(g: &mut [u32], h: u64, marked: u32, empty: u32) -> bool {
    let mark = find_mark(h);
    let slot = find_slot(h, g.len());
    for x in &mut g[slot..] {
        if *x == mark {
            *x = marked;
            return false;
        }
        if *x == 0 {
            *x = empty;
            return true;
        }
    }
    false
}

// Marks a key as referred to. Was it not before?
pub fn note_key(g: &mut [u32], h: u64) -> bool {
    let mark = find_mark(h);
    put_entry(g, h, mark, mark)
}

// What stands for a record at a place; nothing past the last place.
pub fn entry_at(h: u64, at: usize) -> Option<u32> {
    if at < PLACES {
        Some(find_bits(h) * 16777216 + at as u32)
    } else {
        None
    }
}

// Puts a record's place where its key is marked.
pub fn note_place(g: &mut [u32], h: u64, at: usize) {
    if let Some(entry) = entry_at(h, at) {
        put_entry(g, h, entry, 0);
    }
}
