// Fields of the header that are one of a few names, byte for byte.
ghost use Rattle.std.specs.Prelude.{◌≡◌};
ghost use Rattle.page.specs.Header.{form_named, names_ascii, names_latin};

// "`chs` is quoted `ASCII`, `ISO8859-1` or `ISO-8859-1`; the last two mean the same."
#[tactic(auto, using(page::proofs::ChainLaws::same_is), unfolding(page::specs::Bytes::bytes, page::specs::Header::names_ascii))]
pub fn is_ascii_name(f: &[u8]) -> bool
    ensures { result ≡ names_ascii f.now }
{
    f == b"\"ASCII\"".as_slice()
}

#[tactic(auto, using(page::proofs::ChainLaws::same_is), unfolding(page::specs::Bytes::bytes, page::specs::Header::names_latin))]
pub fn is_latin_name(f: &[u8]) -> bool
    ensures { result ≡ names_latin f.now }
{
    f == b"\"ISO8859-1\"".as_slice() || f == b"\"ISO-8859-1\"".as_slice()
}

// The date's form that a `mod` line names: 1 is DD.MM.YYYY, 2 is YYYY/MM/DD, 0 is neither: the definition's numbers.
#[tactic(auto, using(page::proofs::ChainLaws::same_is), unfolding(page::specs::Bytes::bytes, page::specs::Header::form_named))]
pub fn form_named(f: &[u8]) -> u32
    ensures { result ≡ form_named f.now }
{
    if f == b"DD.MM.YYYY".as_slice() {
        1
    } else if f == b"YYYY/MM/DD".as_slice() {
        2
    } else {
        0
    }
}
