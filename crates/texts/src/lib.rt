// A value that stands in the file, handed out: a text's own bytes, and whose it is.
#![tactic(auto)]

ghost use Rattle.std.specs.Prelude.{◌≡◌, Err};
ghost use Rattle.page.specs.Answers.{refusal};
ghost use Rattle.page.specs.declared.Value.TheVariants as Va;
ghost use Rattle.texts.specs.Own.{Lies, Spans, owned, Gave};

use page::{Copied, Owner, Refusal, Text, Value};

// "Each text handed out says whose it is."
fn tell_owner(w: Result<usize, Refusal>, owner: Owner) -> Result<Copied, Refusal>
    ensures { result ≡ owned owner w }
{
    w.map(|length| Copied { length, owner })
}

// "not a text": a number, missing or not.
fn refuse_number() -> Result<Copied, Refusal>
    ensures { result ≡ Err (refusal 11 0 0) }
{
    Err(Refusal {
        number: 11,
        section: 0,
        line: 0,
    })
}

// A text by its place in the file, between the quotes.
fn hand_words(file: &[u8], x: Text, out: &mut [u8]) -> Result<Copied, Refusal>
    requires { Lies file.now x.from x.to }
    ensures { Gave file.now (Va.Words x) out.old out.new result }
{
    let none = Refusal {
        number: 0,
        section: 0,
        line: 0,
    };
    let from = x.from;
    let to = x.to;
    let owner = x.owner;
    tell_owner(doubling::hand_own(out, none, &file[from..to]), owner)
}

// A value that stands in the file: "11 if it is a number".
pub fn hand_value(file: &[u8], v: Value, out: &mut [u8]) -> Result<Copied, Refusal>
    requires { Spans file.now v }
    ensures { Gave file.now v out.old out.new result }
{
    match v {
        Value::Number(_) => refuse_number(),
        Value::Missing => refuse_number(),
        Value::Words(x) => hand_words(file, x, out),
    }
}
