// The records of a section by their keys: `w` is a section's bytes, or whole lines of it.
ghost use Rattle.std.specs.Prelude.{◌≡◌, true, false, ◌≤◌, length, MatchOption, MatchResult, IfSome, is_some};
ghost use Rattle.page.specs.Lines.{lines};
ghost use Rattle.page.specs.File.{any};
ghost use Rattle.scans.specs.Scan.{is_record, line_key, bears, again, rises, raised, Starts};

use choices::Choice;
use keys::Key;
use lines::lines_of;

// What a record has in the fields of a choice; nothing of a line that is no record.
pub fn key_in(line: &[u8], choice: Choice) -> Option<Key>
    ensures { MatchOption result (is_record line.now ≡ false) (λ k. (is_record line.now ≡ true) × (k.k ≡ line_key choice line.now)) }
{
    if !commands::is_record(line) {
        return None;
    }
    let fields = lines::rest_of(lines::content_of(line));
    Some(keys::read_chosen(fields, choice))
}

// Is a line a record that has a key in the fields of a choice?
pub fn bears_key(line: &[u8], choice: Choice, key: Key) -> bool
    ensures { result ≡ bears choice key.k line.now }
{
    key_in(line, choice) == Some(key)
}

// Where the first record that has a key begins.
fn find_key(w: &[u8], choice: Choice, key: Key) -> Option<usize>
    ensures met { is_some result ≡ any (bears choice key.k) (lines w.now) }
    ensures within { IfSome result (λ at. at ≤ length w.now) }
{
    for line in lines_of(w) {
        if bears_key(line.bytes, choice, key) {
            return Some(line.at);
        }
    }
    None
}

// A place, if a line begins there; else the first line's.
pub fn find_start(w: &[u8], at: usize) -> usize
    ensures { Starts w.now result }
{
    if at == 0 || w.len() < at || w[at - 1] != b'\n' {
        return 0;
    }
    at
}

// From the line at a place on to the last, then from the first: the next record wanted often stands where the last one did, or soon after.
pub fn find_from(w: &[u8], at: usize, choice: Choice, key: Key) -> Option<usize>
    ensures { is_some result ≡ any (bears choice key.k) (lines w.now) }
{
    let from = find_start(w, at);
    if let Some(ahead) = find_key(&w[from..], choice, key) {
        return Some(from + ahead);
    }
    find_key(&w[..from], choice, key)
}

// "met before": is a line a record whose key stands in the lines before it?
pub fn is_again(before: &[u8], line: &[u8], choice: Choice) -> bool
    ensures { result ≡ again choice (lines before.now) line.now }
{
    match key_in(line, choice) {
        Some(key) => find_key(before, choice, key).is_some(),
        None => false,
    }
}

// Ok: the largest key up to a line that does not fall, as one that is no record does not. Err: the key of one that does. A key above the
// largest before it is new without a search.
pub fn find_rise(line: &[u8], choice: Choice, top: Key) -> Result<Key, Key>
    ensures { MatchResult result (λ k. (rises choice top.k line.now ≡ true) × (k.k ≡ raised choice top.k line.now))
        (λ k. (rises choice top.k line.now ≡ false) × (k.k ≡ raised choice top.k line.now)) }
{
    match key_in(line, choice) {
        None => Ok(top),
        Some(key) if top < key => Ok(key),
        Some(key) => Err(key),
    }
}
