// A hash of the numbers that a line has in the fields of a choice, in one walk over its bytes. It is for guesses: nothing is checked, and
// a line that is no record has one too. Records whose numbers are equal have the same, however they are written and in whatever order.
use choices::Choice;
use keys::Key;
use lines::lines_from;

// A line's hash, and where the next line begins.
#[derive(Clone, Copy)]
pub struct Hashed {
    pub hash: u64,
    pub next: usize,
}

// The number that a field's digits make, where the next field begins, and whether that is in another line.
#[derive(Clone, Copy)]
struct Digits {
    value: u64,
    next: usize,
    last: bool,
}

fn read_digits(w: &[u8], at: usize) -> Digits {
    let mut value: u64 = 0;
    let mut inside = false;
    for i in at..w.len() {
        let b = w[i];
        if (b'0' <= b) & (b <= b'9') {
            value = value % 1152921504606846976 * 10 + u64::from(b % 16);
        } else {
            if (b == b'\n') | (b == b';') & !inside {
                return Digits {
                    value,
                    next: i + 1,
                    last: b == b'\n',
                };
            }
            inside ^= b == b'"';
        }
    }
    Digits {
        value,
        next: w.len(),
        last: true,
    }
}

// A number is mixed with its place in the key, not with those before it: so records whose fields stand in another order have the same
// hash. One that is missing is 0 in a key, and changes nothing.
fn mix_number(value: u64, place: u64) -> u64 {
    if value == 0 {
        return 0;
    }
    keys::mix(value ^ place % 8 * 536870909)
}

// With a number, if its field is chosen.
fn add_field(hash: u64, rest: u64, slots: u64, value: u64) -> u64 {
    if rest % 4 == 1 {
        return hash ^ mix_number(value, slots);
    }
    hash
}

// The command is a field that is not chosen. Behind the last chosen field the line is only passed over. The high bits of a hash choose its
// slot, and numbers that lie near each other part only in the low ones: so it is mixed once more.
pub fn hash_line(w: &[u8], at: usize, choice: Choice) -> Hashed {
    let mut rest = choice.kinds % 4611686018427387904 * 4;
    let mut slots = choice.slots % 2305843009213693952 * 8;
    let mut hash: u64 = 0;
    let mut next = at;
    // No `for`: the digits that are left say whether the walk goes on.
    while 0 < rest {
        let x = read_digits(w, next);
        next = x.next;
        hash = add_field(hash, rest, slots, x.value);
        rest /= 4;
        slots /= 8;
        if x.last {
            return Hashed {
                hash: keys::mix(hash),
                next,
            };
        }
    }
    if let Some(line) = lines_from(w, next).next() {
        next = line.end();
    }
    Hashed {
        hash: keys::mix(hash),
        next,
    }
}

// The hash of a line that has a key's numbers.
pub fn hash_key(key: Key) -> u64 {
    let mut hash: u64 = 0;
    for (i, &value) in key.k.iter().enumerate() {
        hash ^= mix_number(value, i as u64);
    }
    keys::mix(hash)
}
