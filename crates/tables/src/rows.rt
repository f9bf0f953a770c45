// The tables as document 01 gives them, those of document 02 after them; past the last stands a table of no columns, and past a table's last
// column one that takes nothing.
ghost use Rattle.page.specs.Tables.{table_at, columns, no_column};
ghost use Rattle.tables.specs.Rows.{AllSay, Says, Tells};
ghost use Rattle.std.specs.Prelude.{get_or};

use crate::TABLES;
use page::Column;

// A column by its name.
pub struct Named {
    pub name: &'static [u8],
    pub column: Column,
}

// The columns, from 0, that hold the primary key of a record of another table, by its place in the list.
pub struct Reference {
    pub columns: &'static [usize],
    pub target: usize,
}

// A rule of a table's records: the column, from 0, where the four of the two points begin; that of LEITSTELLENKENNUNG, and that where the
// three texts that go with it begin.
#[derive(Clone, Copy)]
pub enum Rule {
    Points(usize),
    Feeder(usize, usize),
}

pub struct Table {
    pub number: u32,
    pub name: &'static [u8],
    pub columns: &'static [Named],
    pub references: &'static [Reference],
    pub rule: Option<Rule>,
}

// A column of no key, P of the primary key, C of the second key, PC of both; F a text that may be marked and filled; N a number that may be
// missing.
const PLAIN: Column = Column {
    text: false,
    day: false,
    lo: 0,
    hi: 0,
    size: 0,
    primary: false,
    second: false,
    fillable: false,
    optional: false,
};

const P: Column = Column {
    primary: true,
    ..PLAIN
};

const C: Column = Column {
    second: true,
    ..PLAIN
};

const PC: Column = Column { second: true, ..P };

const F: Column = Column {
    fillable: true,
    ..PLAIN
};

const N: Column = Column {
    optional: true,
    ..PLAIN
};

// A number from its lower to its upper bound, written with its size.
macro_rules! num {
    ($name:literal, $lo:literal, $hi:literal, $size:literal, $mark:ident) => {
        Named {
            name: $name,
            column: Column {
                lo: $lo,
                hi: $hi,
                size: $size,
                ..$mark
            },
        }
    };
}

// A text of at most as many bytes.
macro_rules! text {
    ($name:literal, $size:literal, $mark:ident) => {
        Named {
            name: $name,
            column: Column {
                text: true,
                hi: $size,
                size: $size,
                ..$mark
            },
        }
    };
}

// "VER_GUELTIGKEIT and BETRIEBSTAG must be Gregorian dates"
macro_rules! day {
    ($name:literal, $mark:ident) => {
        Named {
            name: $name,
            column: Column {
                day: true,
                lo: 1,
                hi: 99999999,
                size: 8,
                ..$mark
            },
        }
    };
}

macro_rules! version {
    ($mark:ident) => {
        num!(b"BASIS_VERSION", 1, 999999999, 9, $mark)
    };
}

macro_rules! to {
    ([$($column:literal),+], $target:ident) => {
        Reference { columns: &[$($column),+], target: $target }
    };
}

const VERSIONS: usize = 0;

const DAY_TYPES: usize = 3;

const POINT_TYPES: usize = 4;

const LINKS: usize = 6;

const CONNECTIONS: usize = 8;

static ALL: [Table; TABLES] = [
    Table {
        number: 485,
        name: b"MENGE_BASIS_VERSIONEN",
        columns: &[version!(P), text!(b"BASIS_VERSION_TEXT", 40, F)],
        references: &[],
        rule: None,
    },
    Table {
        number: 993,
        name: b"BASIS_VER_GUELTIGKEIT",
        columns: &[day!(b"VER_GUELTIGKEIT", P), version!(PLAIN)],
        references: &[to!([1], VERSIONS)],
        rule: None,
    },
    Table {
        number: 348,
        name: b"FIRMENKALENDER",
        columns: &[
            version!(P),
            day!(b"BETRIEBSTAG", P),
            text!(b"BETRIEBSTAG_TEXT", 40, F),
            num!(b"TAGESART_NR", 1, 999, 3, PLAIN),
        ],
        references: &[to!([0], VERSIONS), to!([0, 3], DAY_TYPES)],
        rule: None,
    },
    Table {
        number: 290,
        name: b"MENGE_TAGESART",
        columns: &[
            version!(P),
            num!(b"TAGESART_NR", 1, 999, 3, P),
            text!(b"TAGESART_TEXT", 40, F),
        ],
        references: &[to!([0], VERSIONS)],
        rule: None,
    },
    Table {
        number: 998,
        name: b"MENGE_ONR_TYP",
        columns: &[
            version!(PC),
            num!(b"ONR_TYP_NR", 1, 7, 2, P),
            text!(b"STR_ONR_TYP", 6, C),
            text!(b"ONR_TYP_TEXT", 40, F),
        ],
        references: &[to!([0], VERSIONS)],
        rule: None,
    },
    Table {
        number: 332,
        name: b"MENGE_FAHRTART",
        columns: &[
            version!(PC),
            num!(b"FAHRTART_NR", 1, 4, 2, P),
            text!(b"STR_FAHRTART", 6, C),
        ],
        references: &[to!([0], VERSIONS)],
        rule: None,
    },
    Table {
        number: 225,
        name: b"REC_UEB",
        columns: &[
            version!(P),
            num!(b"BEREICH_NR", 0, 252, 3, P),
            num!(b"ONR_TYP_NR", 1, 2, 2, P),
            num!(b"ORT_NR", 1, 999999, 6, P),
            num!(b"UEB_ZIEL_TYP", 1, 2, 2, P),
            num!(b"UEB_ZIEL", 1, 999999, 6, P),
            num!(b"UEB_LAENGE", 1, 81890, 6, PLAIN),
        ],
        references: &[
            to!([0], VERSIONS),
            to!([0, 2], POINT_TYPES),
            to!([0, 4], POINT_TYPES),
        ],
        rule: Some(Rule::Points(2)),
    },
    Table {
        number: 247,
        name: b"UEB_FZT",
        columns: &[
            version!(P),
            num!(b"BEREICH_NR", 0, 252, 3, P),
            num!(b"FGR_NR", 1, 999999999, 9, P),
            num!(b"ONR_TYP_NR", 1, 2, 2, P),
            num!(b"ORT_NR", 1, 999999, 6, P),
            num!(b"UEB_ZIEL_TYP", 1, 2, 2, P),
            num!(b"UEB_ZIEL", 1, 999999, 6, P),
            num!(b"UEB_FAHRZEIT", 1, 65532, 6, PLAIN),
        ],
        references: &[to!([0], VERSIONS), to!([0, 1, 3, 4, 5, 6], LINKS)],
        rule: Some(Rule::Points(3)),
    },
    Table {
        number: 432,
        name: b"EINZELANSCHLUSS",
        columns: &[
            version!(P),
            num!(b"EINAN_NR", 1, 32764, 5, P),
            text!(b"ANSCHLUSS_NAME", 40, F),
            text!(b"ANSCHLUSS_GRUPPE", 6, PLAIN),
            num!(b"LEITSTELLENKENNUNG", 0, 255, 3, PLAIN),
            num!(b"ZUB_LI_NR", 0, 999, 6, PLAIN),
            num!(b"ZUB_LI_RI_NR", 0, 2, 3, PLAIN),
            num!(b"ZUB_ORT_REF_ORT", 0, 999999, 6, PLAIN),
            num!(b"ZUB_ONR_TYP_NR", 1, 99, 2, N),
            num!(b"ZUB_ORT_NR", 1, 999999, 6, N),
            num!(b"VON_ORT_REF_ORT", 1, 999999, 6, N),
            text!(b"LinienID", 6, PLAIN),
            text!(b"RichtungsID", 6, PLAIN),
            text!(b"ASBID", 10, PLAIN),
            num!(b"ABB_LI_NR", 1, 999, 6, PLAIN),
            num!(b"ABB_LI_RI_NR", 0, 2, 3, PLAIN),
            num!(b"ABB_ORT_REF_ORT", 1, 999999, 6, PLAIN),
            num!(b"ABB_ONR_TYP_NR", 1, 99, 2, N),
            num!(b"ABB_ORT_NR", 1, 999999, 6, N),
            num!(b"NACH_ORT_REF_ORT", 1, 999999, 6, N),
        ],
        references: &[to!([0], VERSIONS)],
        rule: Some(Rule::Feeder(4, 11)),
    },
    Table {
        number: 232,
        name: b"REC_UMS",
        columns: &[
            version!(P),
            num!(b"EINAN_NR", 1, 32764, 5, P),
            num!(b"TAGESART_NR", 1, 999, 3, P),
            num!(b"UMS_BEGINN", 0, 129599, 6, P),
            num!(b"UMS_ENDE", 0, 129599, 6, P),
            num!(b"UMS_MIN", 0, 65532, 5, PLAIN),
            num!(b"UMS_MAX", 0, 65532, 5, PLAIN),
            num!(b"MAX_VERZ_MAN", 0, 65532, 5, PLAIN),
            num!(b"MAX_VERZ_AUTO", 0, 65532, 5, PLAIN),
        ],
        references: &[
            to!([0], VERSIONS),
            to!([0, 1], CONNECTIONS),
            to!([0, 2], DAY_TYPES),
        ],
        rule: None,
    },
];

static NO_TABLE: Table = Table {
    number: 0,
    name: b"",
    columns: &[],
    references: &[],
    rule: None,
};

static NO_COLUMN: Named = Named {
    name: b"",
    column: PLAIN,
};

// The one place that reads them: what is proved of a table elsewhere rests on what is said here of all.
fn list_tables() -> &'static [Table]
    ensures { AllSay result.now }
{
    &ALL
}

pub fn find_table(t: usize) -> &'static Table
    ensures { Says result.now (table_at t) }
{
    let tables = list_tables();
    if t < tables.len() {
        &tables[t]
    } else {
        &NO_TABLE
    }
}

pub fn find_named(t: usize, k: usize) -> &'static Named
    ensures { Tells result.now (get_or (columns t) k no_column) }
{
    let columns = find_table(t).columns;
    if k < columns.len() {
        &columns[k]
    } else {
        &NO_COLUMN
    }
}
