// How a file is written.
ghost use Rattle.std.specs.Prelude.{◌≡◌, ◌<◌, MatchOption};
ghost use Rattle.page.specs.Records.{Record};
ghost use Rattle.copies.specs.Changed.{field_of, text_of, stays_in};
ghost use Rattle.copies.specs.Planned.{record_plan, section_plan};

use page::{LineEnd, Stays};

// A text that is put into one field. Section, record and field count from 1.
#[derive(Clone, Copy)]
pub struct Fill<'a> {
    pub section: usize,
    pub rec: usize,
    pub field: usize,
    pub text: &'a [u8],
}

// What is changed of what a file says: nothing, marked texts go, or a text is put in.
#[derive(Clone, Copy)]
pub enum Change<'a> {
    Nothing,
    Strip,
    Fill(Fill<'a>),
}

impl<'a> Change<'a> {
    // The text that is put into field f, from 1, of the record at hand.
    pub fn text_for(self, f: usize) -> Option<&'a [u8]>
        requires { 0 < f }
        ensures { MatchOption result (field_of self.entry ≡ f → ⊥)
            (λ text. (field_of self.entry ≡ f) × (text.now ≡ text_of self.entry)) }
    {
        match self {
            Change::Nothing | Change::Strip => None,
            Change::Fill(fill) if fill.field == f => Some(fill.text),
            Change::Fill(_) => None,
        }
    }
}

// How lines end, which records stay, and what is changed.
#[derive(Clone, Copy)]
pub struct Plan<'a> {
    pub ends: LineEnd,
    pub stays: Stays,
    pub change: Change<'a>,
}

// Does a record stay?
pub fn does_stay(stays: Stays) -> bool
    ensures { (vs : Record) → result ≡ stays_in stays vs }
{
    match stays {
        Stays::All => true,
    }
}

// The plan of the record after n others: no text is put into one that is not named.
// Not one with `plan_section`: the field that is asked differs in the second arm's guard, and asking it by a closure takes more lines.
pub fn plan_record(plan: Plan<'_>, n: usize) -> Plan<'_>
    requires { n < 18446744073709551615 }
    ensures { result ≡ record_plan plan.entry n }
{
    match plan.change {
        Change::Nothing | Change::Strip => plan,
        Change::Fill(fill) if fill.rec == n + 1 => plan,
        Change::Fill(_) => Plan {
            change: Change::Nothing,
            ..plan
        },
    }
}

// The plan of the section after n others: `plan_record`'s arms, of the field `section`.
pub fn plan_section(plan: Plan<'_>, n: usize) -> Plan<'_>
    requires { n < 18446744073709551615 }
    ensures { result ≡ section_plan plan.entry n }
{
    match plan.change {
        Change::Nothing | Change::Strip => plan,
        Change::Fill(fill) if fill.section == n + 1 => plan,
        Change::Fill(_) => Plan {
            change: Change::Nothing,
            ..plan
        },
    }
}
