// The types that document 01's definitions and the code share.
#![tactic(auto)]

// Bytes of a file, from the first to before the last place.
#[derive(Clone, Copy)]
pub struct Span {
    pub from: usize,
    pub to: usize,
}

// A number is an optional `-` and 1 to 18 digits, `-0` being 0.
#[derive(Clone, Copy)]
pub enum Number {
    Plus(u64),
    Minus(u64),
    Nothing,
}

// "Each text handed out says whose it is: the operator's, or a suggestion."
#[derive(Clone, Copy)]
pub enum Owner {
    Operator,
    Suggestion,
}

// A record's text: its bytes in the file, between the quotes, and whose it is.
#[derive(Clone, Copy)]
pub struct Text {
    pub from: usize,
    pub to: usize,
    pub owner: Owner,
}

// "a record's value is from now on a number, a missing number or a text with its owner"
#[derive(Clone, Copy)]
pub enum Value {
    Number(u64),
    Missing,
    Words(Text),
}

// What a field of a record is read as: a text by its bytes between the quotes, a number by its value, a missing number, or a refusal by
// its number.
#[derive(Clone, Copy)]
pub enum Field {
    Text(Span),
    Number(u64),
    Missing,
    Refused(u32),
}

// A column of the fixed tables: its kind (a text of at most `hi` bytes, or a number from `lo` to `hi`, which may have to be a day), the size
// written in `frm`, its keys, whether it may be marked and filled, and whether its number may be missing.
#[derive(Clone, Copy)]
pub struct Column {
    pub text: bool,
    pub day: bool,
    pub lo: u64,
    pub hi: u64,
    pub size: u64,
    pub primary: bool,
    pub second: bool,
    pub fillable: bool,
    pub optional: bool,
}

// What a `com` line's rest says.
#[derive(Clone, Copy)]
pub enum Remark {
    Comment,
    Unreadable,
    Mark(u64),
}

// Where a section's reading stands: the table by its place in the list of tables, the field of the mark that waits (0: none), the
// records so far.
#[derive(Clone, Copy)]
pub enum Phase {
    Tbl,
    Atr(usize),
    Frm(usize),
    Rows(usize, u64, usize),
    Ended(usize, usize),
}

// A section's answer: its table's number (0 if the `tbl` line fails), its records, its verdict and the line that fails.
#[derive(Clone, Copy)]
pub struct Outcome {
    pub table: u32,
    pub records: usize,
    pub verdict: u32,
    pub line: usize,
}

// "One row a section with table number, place, length, record count and verdict; the verdict stands with its line."
#[repr(C)]
#[derive(Clone, Copy)]
pub struct Row {
    pub table: u32,
    pub place: usize,
    pub length: usize,
    pub records: usize,
    pub verdict: u32,
    pub line: usize,
}

// The verdict of a header or of a trailer, with its line.
#[derive(Clone, Copy)]
pub struct Finding {
    pub verdict: u32,
    pub line: usize,
}

// A Gregorian date, and a time of day.
#[derive(Clone, Copy)]
pub struct Date {
    pub year: u64,
    pub month: u64,
    pub day: u64,
}

#[derive(Clone, Copy)]
pub struct Time {
    pub hour: u64,
    pub minute: u64,
    pub second: u64,
}

// What a header has met so far: the date's form (0: no `mod` line yet, 1: DD.MM.YYYY, 2: YYYY/MM/DD), and which other lines.
#[derive(Clone, Copy)]
pub struct Met {
    pub form: u32,
    pub src: bool,
    pub chs: bool,
    pub ver: bool,
    pub ifv: bool,
    pub dve: bool,
    pub fft: bool,
}

// A header's values: its texts by their bytes between the quotes.
#[derive(Clone, Copy)]
pub struct Header {
    pub source: Span,
    pub date: Date,
    pub time: Time,
    pub latin: bool,
    pub ver: Span,
    pub ifv: Span,
    pub dve: Option<Span>,
    pub fft: Option<Span>,
}

// A refusal: the paper's number, and its place.
#[repr(C)]
#[derive(Clone, Copy)]
pub struct Refusal {
    pub number: u32,
    pub section: usize,
    pub line: usize,
}

// A text's own bytes in lent output: how many they are, and whose the text is.
#[derive(Clone, Copy)]
pub struct Copied {
    pub length: usize,
    pub owner: Owner,
}

// How the lines of a written file end.
#[derive(Clone, Copy)]
pub enum LineEnd {
    Lf,
}

// Which records of a file are written.
#[derive(Clone, Copy)]
pub enum Stays {
    All,
}
