// A section's table.
ghost use Rattle.std.specs.Prelude.{◌≡◌, ◌<◌, length};
ghost use Rattle.page.specs.Records.{table_index};
ghost use Rattle.cut.specs.Walk.{section_from};

use lines::lines_from;
use tables::TABLES;

// The table that a section's first line names.
pub fn table_at(s: &[u8], at: usize) -> usize
    requires { at < length s.now }
    ensures { result ≡ table_index (section_from s.now at).lines }
{
    let Some(line) = lines_from(s, at).next() else {
        return TABLES;
    };
    let w = lines::rest_of(lines::content_of(line.bytes));
    crate::find_table(commands::field_at(w, 0))
}
