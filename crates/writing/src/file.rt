// The written file.
ghost use Rattle.std.specs.Prelude.{◌≡◌, map, length};
ghost use Rattle.page.specs.Cut.{sections};
ghost use Rattle.page.specs.File.{file_refusal};
ghost use Rattle.page.specs.Model.{model_of};
ghost use Rattle.page.specs.Form.{form_of};
ghost use Rattle.output.specs.Put.{Puts};
ghost use Rattle.recording.specs.Said.{said_in, Passing};
ghost use Rattle.copies.specs.Changed.{changed_model};
ghost use Rattle.copies.specs.Planned.{tables_by};

use copies::{Plan, plan_section};
use frames::{put_count_line, put_head};
use output::Output;
use recording::put_section;

// "sections keep their order": the records of every section passed their rules. How many sections there are.
fn put_sections(out: &mut Output<'_>, s: &[u8], plan: Plan<'_>) -> usize
    requires { Passing s.now }
    ensures form { Puts out.old (tables_by plan.entry 0 (map said_in (sections s.now))) out.new }
    ensures count { result ≡ length (sections s.now) }
{
    let mut n = 0;
    for section in cut::sections_of(s) {
        put_section(out, section.bytes, plan_section(plan, n));
        n += 1;
    }
    n
}

// The planned form of an accepted file.
pub fn put_form(out: &mut Output<'_>, s: &[u8], plan: Plan<'_>)
    requires { (file_refusal s.now).number ≡ 0 }
    ensures { Puts out.old (form_of plan.entry.ends (changed_model plan.entry (model_of s.now))) out.new }
{
    put_head(out, plan.ends, s, headers::read_values(s));
    let n = put_sections(out, s, plan);
    put_count_line(out, plan.ends, b"eof", n as u64);
}
