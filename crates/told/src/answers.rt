// What C is handed, where a call answers a value or a refusal: the paper's number first, 0 for a call that was not refused.
ghost use Rattle.std.specs.Prelude.{◌≡◌};
ghost use Rattle.told.specs.Told.{told_headed, told_listed, told_got, told_written, told_handed, told_header, told_value};
ghost use Rattle.page.specs.Handing.{owner_cell};

use page::{Copied, Header, Owner, Refusal, Row, Span, Value};

// A header's values, or a refusal: texts by their bytes between the quotes; `dve` and `fft` say whether such a line stands.
#[repr(C)]
#[derive(Clone, Copy)]
pub struct HeaderAnswer {
    pub number: u32,
    pub section: usize,
    pub line: usize,
    pub source_from: usize,
    pub source_to: usize,
    pub year: u64,
    pub month: u64,
    pub day: u64,
    pub hour: u64,
    pub minute: u64,
    pub second: u64,
    pub latin: bool,
    pub ver_from: usize,
    pub ver_to: usize,
    pub ifv_from: usize,
    pub ifv_to: usize,
    pub dve: bool,
    pub dve_from: usize,
    pub dve_to: usize,
    pub fft: bool,
    pub fft_from: usize,
    pub fft_to: usize,
}

// A section's row, or a refusal.
#[repr(C)]
#[derive(Clone, Copy)]
pub struct RowAnswer {
    pub number: u32,
    pub section: usize,
    pub line: usize,
    pub row: Row,
}

// A value, or a refusal: kind 0 is a number, 1 the operator's text, 2 a suggestion, 3 a missing number.
#[repr(C)]
#[derive(Clone, Copy)]
pub struct ValueAnswer {
    pub number: u32,
    pub section: usize,
    pub line: usize,
    pub kind: u32,
    pub amount: u64,
    pub from: usize,
    pub to: usize,
}

// How much was written, or a refusal.
#[repr(C)]
#[derive(Clone, Copy)]
pub struct LengthAnswer {
    pub number: u32,
    pub section: usize,
    pub line: usize,
    pub length: usize,
}

// How much was written of a text, and whose it is: 1 the operator's, 2 a suggestion; or a refusal.
#[repr(C)]
#[derive(Clone, Copy)]
pub struct TextAnswer {
    pub number: u32,
    pub section: usize,
    pub line: usize,
    pub length: usize,
    pub owner: u32,
}

// What stands beside a refusal, and what an answer does not say.
const NO_ROW: Row = Row {
    table: 0,
    place: 0,
    length: 0,
    records: 0,
    verdict: 0,
    line: 0,
};

const NOWHERE: Span = Span { from: 0, to: 0 };

const NO_VALUE: ValueAnswer = ValueAnswer {
    number: 0,
    section: 0,
    line: 0,
    kind: 0,
    amount: 0,
    from: 0,
    to: 0,
};

const NO_HEADER: HeaderAnswer = HeaderAnswer {
    number: 0,
    section: 0,
    line: 0,
    source_from: 0,
    source_to: 0,
    year: 0,
    month: 0,
    day: 0,
    hour: 0,
    minute: 0,
    second: 0,
    latin: false,
    ver_from: 0,
    ver_to: 0,
    ifv_from: 0,
    ifv_to: 0,
    dve: false,
    dve_from: 0,
    dve_to: 0,
    fft: false,
    fft_from: 0,
    fft_to: 0,
};

impl From<Result<Row, Refusal>> for RowAnswer {
    ghost from_gives = { λ x r. r ≡ told_listed x };

    fn from(x: Result<Row, Refusal>) -> RowAnswer {
        match x {
            Ok(row) => RowAnswer {
                number: 0,
                section: 0,
                line: 0,
                row,
            },
            Err(r) => RowAnswer {
                number: r.number,
                section: r.section,
                line: r.line,
                row: NO_ROW,
            },
        }
    }
}

impl From<Result<usize, Refusal>> for LengthAnswer {
    ghost from_gives = { λ x r. r ≡ told_written x };

    fn from(x: Result<usize, Refusal>) -> LengthAnswer {
        match x {
            Ok(n) => LengthAnswer {
                number: 0,
                section: 0,
                line: 0,
                length: n,
            },
            Err(r) => LengthAnswer {
                number: r.number,
                section: r.section,
                line: r.line,
                length: 0,
            },
        }
    }
}

// Beside `cells`' `number_owner`, which answers a u64 of its own: this crate is of the exports for C, and no crate asks it but `vdv`.
fn owner_kind(x: Owner) -> u32
    ensures { result ≡ owner_cell x }
{
    match x {
        Owner::Operator => 1,
        Owner::Suggestion => 2,
    }
}

impl From<Result<Copied, Refusal>> for TextAnswer {
    ghost from_gives = { λ x r. r ≡ told_handed x };

    fn from(x: Result<Copied, Refusal>) -> TextAnswer {
        match x {
            Ok(t) => TextAnswer {
                number: 0,
                section: 0,
                line: 0,
                length: t.length,
                owner: owner_kind(t.owner),
            },
            Err(r) => TextAnswer {
                number: r.number,
                section: r.section,
                line: r.line,
                length: 0,
                owner: 0,
            },
        }
    }
}

impl From<Value> for ValueAnswer {
    ghost from_gives = { λ x r. r ≡ told_value x };

    fn from(x: Value) -> ValueAnswer {
        match x {
            Value::Number(n) => ValueAnswer {
                amount: n,
                ..NO_VALUE
            },
            Value::Missing => ValueAnswer {
                kind: 3,
                ..NO_VALUE
            },
            Value::Words(t) => ValueAnswer {
                kind: owner_kind(t.owner),
                from: t.from,
                to: t.to,
                ..NO_VALUE
            },
        }
    }
}

impl From<Result<Value, Refusal>> for ValueAnswer {
    ghost from_gives = { λ x r. r ≡ told_got x };

    fn from(x: Result<Value, Refusal>) -> ValueAnswer {
        match x {
            Ok(v) => ValueAnswer::from(v),
            Err(r) => ValueAnswer {
                number: r.number,
                section: r.section,
                line: r.line,
                ..NO_VALUE
            },
        }
    }
}

impl From<Header> for HeaderAnswer {
    ghost from_gives = { λ x r. r ≡ told_header x };

    fn from(h: Header) -> HeaderAnswer {
        let dve = h.dve.unwrap_or(NOWHERE);
        let fft = h.fft.unwrap_or(NOWHERE);
        HeaderAnswer {
            number: 0,
            section: 0,
            line: 0,
            source_from: h.source.from,
            source_to: h.source.to,
            year: h.date.year,
            month: h.date.month,
            day: h.date.day,
            hour: h.time.hour,
            minute: h.time.minute,
            second: h.time.second,
            latin: h.latin,
            ver_from: h.ver.from,
            ver_to: h.ver.to,
            ifv_from: h.ifv.from,
            ifv_to: h.ifv.to,
            dve: h.dve.is_some(),
            dve_from: dve.from,
            dve_to: dve.to,
            fft: h.fft.is_some(),
            fft_from: fft.from,
            fft_to: fft.to,
        }
    }
}

impl From<Result<Header, Refusal>> for HeaderAnswer {
    ghost from_gives = { λ x r. r ≡ told_headed x };

    fn from(x: Result<Header, Refusal>) -> HeaderAnswer {
        match x {
            Ok(h) => HeaderAnswer::from(h),
            Err(r) => HeaderAnswer {
                number: r.number,
                section: r.section,
                line: r.line,
                ..NO_HEADER
            },
        }
    }
}
