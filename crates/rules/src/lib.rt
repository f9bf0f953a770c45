// The rules of a table's records, asked of the numbers that are kept of a record's fields, by column.
#![tactic(auto)]

ghost use Rattle.std.specs.Prelude.{◌≡◌, not, ◌&&◌, ◌+◌, ◌≤◌};
ghost use Rattle.page.specs.Tables.{WIDEST, points_differ, feeder_combined, rules};
ghost use Rattle.rules.specs.Broken.{nought, own_by, foreign_by, breaks, broken_by};

use tables::{Rule, WIDEST, find_rule};

// "the two points are the same": the four columns of them begin at p.
#[tactic(auto, unfolding(crate::specs::Broken::breaks))]
fn points_agree(ns: &[u64; WIDEST], p: usize) -> bool
    requires { p + 4 ≤ WIDEST }
    ensures { result ≡ breaks (points_differ p) ns.now }
{
    ns[p] == ns[p + 2] && ns[p + 1] == ns[p + 3]
}

fn are_empty(ns: &[u64; WIDEST], x: usize) -> bool
    requires { x + 3 ≤ WIDEST }
    ensures { result ≡ (nought ns.now x && (nought ns.now (x + 1) && nought ns.now (x + 2))) }
{
    ns[x] == 0 && ns[x + 1] == 0 && ns[x + 2] == 0
}

fn are_filled(ns: &[u64; WIDEST], x: usize) -> bool
    requires { x + 3 ≤ WIDEST }
    ensures { result ≡ (not (nought ns.now x) && (not (nought ns.now (x + 1)) && not (nought ns.now (x + 2)))) }
{
    ns[x] != 0 && ns[x + 1] != 0 && ns[x + 2] != 0
}

// "With LEITSTELLENKENNUNG 0, LinienID, RichtungsID and ASBID are empty, and ZUB_LI_NR and ZUB_ORT_REF_ORT lie above 0": the texts begin at x.
#[tactic(auto, unfolding(crate::specs::Broken::own_by))]
fn is_own(ns: &[u64; WIDEST], c: usize, x: usize) -> bool
    requires { (c + 4 ≤ WIDEST) × (x + 3 ≤ WIDEST) }
    ensures { result ≡ own_by c x ns.now }
{
    are_empty(ns, x) && ns[c + 1] != 0 && ns[c + 3] != 0
}

// "with 1 to 255 the three texts are filled, and ZUB_LI_NR, ZUB_LI_RI_NR and ZUB_ORT_REF_ORT are 0"
#[tactic(auto, unfolding(crate::specs::Broken::foreign_by))]
fn is_foreign(ns: &[u64; WIDEST], c: usize, x: usize) -> bool
    requires { (c + 4 ≤ WIDEST) × (x + 3 ≤ WIDEST) }
    ensures { result ≡ foreign_by c x ns.now }
{
    are_filled(ns, x) && are_empty(ns, c + 1)
}

// "wrong combination"
#[tactic(auto, unfolding(crate::specs::Broken::breaks))]
fn is_mixed(ns: &[u64; WIDEST], c: usize, x: usize) -> bool
    requires { (c + 4 ≤ WIDEST) × (x + 3 ≤ WIDEST) }
    ensures { result ≡ breaks (feeder_combined c x) ns.now }
{
    if ns[c] == 0 {
        !is_own(ns, c, x)
    } else {
        !is_foreign(ns, c, x)
    }
}

// The number of the rule of its table that a record breaks, and 0 for none, as the definition `broken_by` has it.
pub fn judge_rules(ns: &[u64; WIDEST], t: usize) -> u32
    ensures { result ≡ broken_by (rules t) ns.now }
{
    match find_rule(t) {
        Some(Rule::Points(p)) if points_agree(ns, p) => 14,
        Some(Rule::Feeder(c, x)) if is_mixed(ns, c, x) => 25,
        _ => 0,
    }
}
