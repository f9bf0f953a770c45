// Digits and bytes at fixed places of a field, as dates and times have them; a place past the end holds no digit, and byte 0.
ghost use Rattle.std.specs.Prelude.{◌≡◌, ◌&&◌, ◌+◌, ◌-◌, ◌≤◌, length, take, drop};
ghost use Rattle.page.specs.Fields.{value};
ghost use Rattle.page.specs.Dates.{number_in, digits_in, byte_is, quoted_size};

use digits::is_digit;

// At most n bytes from a place on.
fn cut_out(f: &[u8], at: usize, n: usize) -> &[u8]
    ensures { result.now ≡ take n (drop at f.now) }
{
    let rest = &f[at.min(f.len())..];
    &rest[..n.min(rest.len())]
}

// What a byte adds to a number, whether or not it is a digit: no conversion of the library, which would refuse it.
fn weigh(b: u8) -> u64
    ensures { (result ≡ b - 48) × (result ≤ 207) }
{
    u64::from(b.saturating_sub(48))
}

fn value_of(w: &[u8]) -> u64
    requires { length w.now ≤ 4 }
    ensures { result ≡ value 0 w.now }
{
    let mut v: u64 = 0;
    for b in w {
        v = v * 10 + weigh(*b);
    }
    v
}

pub fn number_at(f: &[u8], at: usize, n: usize) -> u64
    requires { n ≤ 4 }
    ensures { result ≡ number_in at n f.now }
{
    value_of(cut_out(f, at, n))
}

pub fn has_digits(f: &[u8], at: usize, n: usize) -> bool
    ensures { result ≡ digits_in at n f.now }
{
    cut_out(f, at, n).iter().all(|b| is_digit(*b))
}

#[tactic(auto, unfolding(page::specs::Dates::byte_is))]
pub fn has_byte(f: &[u8], at: usize, b: u8) -> bool
    ensures { result ≡ byte_is at b f.now }
{
    f.get(at).copied().unwrap_or(0) == b
}

// A quoted string of n bytes.
#[tactic(auto, unfolding(page::specs::Dates::quoted_size))]
pub fn is_quoted(f: &[u8], n: usize) -> bool
    ensures { result ≡ quoted_size n f.now }
{
    2 <= f.len() && f.len() - 2 == n && has_byte(f, 0, 34) && has_byte(f, n + 1, 34)
}

// Three numbers of p, 2 and q digits with a separator between them, from place 1 on.
pub fn is_triple(f: &[u8], p: usize, q: usize, sep: u8) -> bool
    requires { p ≤ 4 }
    ensures { result ≡ (digits_in 1 p f.now
        && byte_is (p + 1) sep f.now
        && digits_in (p + 2) 2 f.now
        && byte_is (p + 4) sep f.now
        && digits_in (p + 5) q f.now) }
{
    has_digits(f, 1, p)
        && has_byte(f, p + 1, sep)
        && has_digits(f, p + 2, 2)
        && has_byte(f, p + 4, sep)
        && has_digits(f, p + 5, q)
}
