// One round over the lines of a section: the first, of those whose hash falls into the round, whose key stands before it.
#![tactic(auto)]

ghost use Rattle.std.specs.Prelude.{◌≡◌, true, ◌<◌, ◌^◌, length};
ghost use Rattle.page.specs.Lines.{lines};
ghost use Rattle.bits.specs.Bits.{two_of, lane_of};
ghost use Rattle.scans.specs.Scan.{is_record};
ghost use Rattle.rounds.specs.Rounds.{hash_of, Round, Sieved, MarkedLine, Doubted, SettledLine, Settled};

use bits::{choose_four, choose_two, find_lane, has_hash, put_hash};
use choices::Choice;
use commands::is_record;
use lines::lines_of;
use scans::is_again;

// Words of the table that all records of a round are put into, and of that of the doubtful ones.
const CROWD: usize = 20480;

const DOUBTS: usize = 4096;

// A section of so few bytes has few records: their tables are little, and one round is enough.
const FEW: usize = 65536;

const LITTLE_CROWD: usize = 512;

const LITTLE_DOUBTS: usize = 128;

// What is looked for in a round: lines before line `last` whose hash falls into one of the lanes, by the fields of a choice. `last` is also
// the answer where none is found: `Round` has it so, and the next round looks before what this one answered.
#[derive(Clone, Copy)]
pub struct Pass {
    pub choice: Choice,
    pub lane: u64,
    pub lanes: u32,
    pub last: usize,
}

fn hash_line(line: &[u8], choice: Choice) -> u64
    ensures { result ≡ hash_of choice line.now }
{
    let c = lines::content_of(line);
    keys::hash_key(keys::read_chosen(lines::rest_of(c), choice))
}

// A record of the round is put into the table of all records. Were its bits all set?
fn put_in_round(line: &[u8], h: u64, pass: Pass, t: &mut [u64]) -> bool
    requires { 0 < length t.old }
    ensures { Sieved ((lane_of h pass.lanes ≡ pass.lane) × (is_record line.now ≡ true)) (length t.old) h (two_of h) t.old result t.new }
{
    find_lane(h, pass.lanes) == pass.lane && is_record(line) && put_hash(t, h, choose_two(h))
}

// A record of the round whose bits were all set is put among the doubtful ones. Was it?
fn mark_line(line: &[u8], pass: Pass, t: &mut [u64], doubts: &mut [u64]) -> bool
    requires { (0 < length t.old) × (0 < length doubts.old) }
    ensures { MarkedLine line.now (hash_of pass.choice line.now) pass.lane pass.lanes (length t.old) t.old t.new (length doubts.old) doubts.old result doubts.new }
{
    let h = hash_line(line, pass.choice);
    if put_in_round(line, h, pass, t) {
        put_hash(doubts, h, choose_four(h));
        return true;
    }
    false
}

// One pass over the records of the round: each whose bits were not all set is new, the others are put among the doubtful ones. Are there
// any?
fn mark_doubts(w: &[u8], pass: Pass, t: &mut [u64], doubts: &mut [u64]) -> bool
    requires { (0 < length t.old) × (0 < length doubts.old) }
    ensures { Doubted pass.choice (lines w.now) pass.lane pass.lanes pass.last (length doubts.old) doubts.new result }
{
    let mut some = false;
    for (i, line) in lines_of(w).enumerate() {
        if i == pass.last {
            return some;
        }
        if mark_line(line.bytes, pass, t, doubts) {
            some = true;
        }
    }
    some
}

// A doubtful line is put into a table of its own. Were its bits all set?
fn put_doubtful(line: &[u8], choice: Choice, doubts: &[u64], t: &mut [u64]) -> bool
    requires { (0 < length doubts.now) × (0 < length t.old) }
    ensures { SettledLine (hash_of choice line.now) (length doubts.now) doubts.now (length t.old) t.old result t.new }
{
    let h = hash_line(line, choice);
    let m = choose_four(h);
    has_hash(doubts, h, m) && put_hash(t, h, m)
}

// One more pass, over the doubtful records alone: they leave most bits clear, and only those whose bits were all set are searched for.
fn settle_doubts(w: &[u8], choice: Choice, last: usize, doubts: &[u64], t: &mut [u64]) -> usize
    requires { (0 < length doubts.now) × (0 < length t.old) }
    ensures { Settled choice (lines w.now) (length doubts.now) doubts.now last result }
{
    for (i, line) in lines_of(w).enumerate() {
        if i == last {
            return last;
        }
        if put_doubtful(line.bytes, choice, doubts, t)
            && is_again(&w[..line.at], line.bytes, choice)
        {
            return i;
        }
    }
    last
}

// The first line of a round whose key stands before it; or `last`. Both tables are empty.
fn sift_in(w: &[u8], pass: Pass, t: &mut [u64], doubts: &mut [u64]) -> usize
    requires { (0 < length t.old) × (0 < length doubts.old) }
    ensures { Round pass.choice (lines w.now) pass.lane pass.lanes pass.last result }
{
    if !mark_doubts(w, pass, t, doubts) {
        return pass.last;
    }
    t.fill(0);
    settle_doubts(w, pass.choice, pass.last, &doubts[..], t)
}

// In tables of so many words.
fn sift_by<const CROWD: usize, const DOUBTS: usize>(w: &[u8], pass: Pass) -> usize
    requires { (0 < CROWD) × (CROWD < 2 ^ 20) × (0 < DOUBTS) × (DOUBTS < 2 ^ 20) }
    ensures { Round pass.choice (lines w.now) pass.lane pass.lanes pass.last result }
{
    let mut t = [0; CROWD];
    let mut doubts = [0; DOUBTS];
    sift_in(w, pass, &mut t, &mut doubts)
}

// In tables of the size that the section needs.
pub fn sift_round(w: &[u8], pass: Pass) -> usize
    ensures { Round pass.choice (lines w.now) pass.lane pass.lanes pass.last result }
{
    if w.len() < FEW {
        sift_by::<LITTLE_CROWD, LITTLE_DOUBTS>(w, pass)
    } else {
        sift_by::<CROWD, DOUBTS>(w, pass)
    }
}

// Of 400,000 records about 30,000 are doubtful, and hardly one of these is searched for.
pub fn count_rounds(w: &[u8]) -> u32
    ensures { 0 < result }
{
    if w.len() < FEW {
        return 1;
    }
    let n = lines_of(w).count();
    if n < 100000000 {
        return (n / 400000) as u32 + 1;
    }
    256
}
