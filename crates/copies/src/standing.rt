// What stands in a record as it is written, so that it can be copied. A record's fields passed the rules of their columns.
ghost use Rattle.std.specs.Prelude.{◌≡◌, true, false, ◌+◌, ◌-◌, ◌<◌, ◌≤◌, length, get_or, drop, IfSome};
ghost use Rattle.page.specs.Fields.{field_size};
ghost use Rattle.copies.specs.Parts.{stands, Spaced, Ends, Whole};

// "Numbers without leading zeros": one with a minus is a zero. A text has no space before its closing quote.
fn is_written(f: &[u8]) -> bool
    ensures { result ≡ stands f.now }
{
    if f.is_empty() {
        return true;
    }
    match f[0] {
        b'-' => false,
        b'0' => f.len() == 1,
        b'"' => f.len() == 1 || f[f.len() - 2] != 32,
        _ => true,
    }
}

// What stands between two `;`: "One space after each separating `;`, none elsewhere outside texts". A missing number is a field of
// nothing, with the space before it.
fn is_spaced(g: &[u8]) -> bool
    ensures { result ≡ true → Spaced g.now }
{
    if g.len() < 2 {
        return g.len() == 1 && g[0] == 32;
    }
    let last = g.len() - 1;
    if g[0] != 32 || g[1] == 32 || g[last] == 32 {
        return false;
    }
    is_written(&g[1..])
}

// Where digits end at a `;` or with the bytes, if no other byte stands among them.
fn digits_end(w: &[u8], from: usize) -> Option<usize>
    requires { from ≤ length w.now }
    ensures { IfSome result (λ e.
        (e ≡ from + field_size false (drop from w.now)) × (from < e → 48 ≤ get_or w.now (e - 1) 0)) }
{
    for i in from..w.len() {
        let b = w[i];
        if !digits::is_digit(b) {
            return if b == 59 { Some(i) } else { None };
        }
    }
    Some(w.len())
}

// Where a number that stands as it is written ends, if it begins with no zero.
fn number_end(w: &[u8], p: usize) -> Option<usize>
    requires { p ≤ length w.now }
    ensures { IfSome result (λ e. Ends w.now p e) }
{
    if w.len() - p < 2 || w[p] != 32 || w[p + 1] == 48 || !digits::is_digit(w[p + 1]) {
        return None;
    }
    digits_end(w, p + 2)
}

// Where a field that stands as it is written ends.
pub fn written_end(w: &[u8], p: usize) -> Option<usize>
    requires { p ≤ length w.now }
    ensures { IfSome result (λ e. Ends w.now p e) }
{
    if let Some(e) = number_end(w, p) {
        return Some(e);
    }
    let e = commands::field_end(w, p);
    if is_spaced(&w[p..e]) { Some(e) } else { None }
}

// w is what stands after the record's first `;`.
pub fn all_written(w: &[u8]) -> bool
    ensures { result ≡ true → Whole w.now }
{
    let mut p = 0;
    // No `for` over the fields: what stands as it is written says where its field ends.
    while p <= w.len() {
        let Some(e) = written_end(w, p) else {
            return false;
        };
        p = e + 1;
    }
    true
}
