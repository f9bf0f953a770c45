// Tables of bits that hashes are put into: a hash whose bits are not all set was never put there.
ghost use Rattle.std.specs.Prelude.{◌≡◌, ◌<◌, length};
ghost use Rattle.bits.specs.Bits.{two_of, four_of, word_of, lane_of, Touched, Added, Probed};

// In which of n rounds a hash is looked at.
pub fn find_lane(h: u64, n: u32) -> u64
    ensures { result ≡ lane_of h n }
{
    h / 1125899906842624 % 256 * u64::from(n) / 256
}

// For a table that is to be crowded: few bits a hash.
pub fn choose_two(h: u64) -> u64
    ensures { result ≡ two_of h }
{
    1 << h / 268435456 % 64 | 1 << h / 17179869184 % 64
}

// For a table that stays sparse.
pub fn choose_four(h: u64) -> u64
    ensures { result ≡ four_of h }
{
    choose_two(h) | 1 << h / 1099511627776 % 64 | 1 << h / 70368744177664 % 64
}

// The word of n that a hash has, without a division.
pub fn choose_word(h: u64, n: usize) -> usize
    requires { 0 < n }
    ensures { (result ≡ word_of h n) × (result < n) }
{
    let k = n as u64;
    (h % 1048576 * (k % 4294967296) / 1048576) as usize
}

// Sets the bits m of word i. Were they all set?
fn set_bits(t: &mut [u64], i: usize, m: u64) -> bool
    requires { i < length t.old }
    ensures { Touched t.old i m result t.new }
{
    let old = t[i];
    t[i] = old | m;
    old & m == m
}

// Sets the bits m in the two words of a hash. Were they all set? A slice, so that one function serves tables of each size; each
// caller shows that it has a word.
pub fn put_hash(t: &mut [u64], h: u64, m: u64) -> bool
    requires { 0 < length t.old }
    ensures { Added t.old (length t.old) h m result t.new }
{
    let n = t.len();
    let a = set_bits(t, choose_word(h, n), m);
    let b = set_bits(t, choose_word(h / 256, n), m);
    a && b
}

// Are the bits m set in the two words of a hash?
pub fn has_hash(t: &[u64], h: u64, m: u64) -> bool
    requires { 0 < length t.now }
    ensures { Probed t.now (length t.now) h m result }
{
    let n = t.len();
    t[choose_word(h, n)] & m == m && t[choose_word(h / 256, n)] & m == m
}
