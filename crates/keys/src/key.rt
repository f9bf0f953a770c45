// A key as seven numbers.
ghost use Rattle.std.specs.Prelude.{◌≡◌};
ghost use Rattle.keys.specs.Orders.{mixed, hashed};

pub const PLACES: usize = 7;

// The numbers of a key's values, the last ones 0 where it has fewer. Keys are in order by the first place where they differ.
#[derive(Clone, Copy, PartialEq, Eq, PartialOrd, Ord)]
pub struct Key {
    pub k: [u64; PLACES],
}

pub fn mix(x: u64) -> u64
    ensures { result ≡ mixed x }
{
    x % 4294967296 * 2654435761 ^ x / 4294967296 * 2246822519
}

pub fn hash_key(key: Key) -> u64
    ensures { result ≡ hashed 0 key.k }
{
    key.k.iter().fold(0, |h, x| mix(h ^ x))
}
