// "A text field is one closed quoted string with nothing beside it; a doubled quote inside stands for one." A text is read where it
// stands: nothing here copies it.
ghost use Rattle.std.specs.Prelude.{◌≡◌, false};
ghost use Rattle.page.specs.Fields.{body_of, text_of};
ghost use Rattle.page.specs.Section.{record_text, no_bytes};
ghost use Rattle.quoted.specs.Sizes.{size_of};

// What follows the opening quote.
fn body_size(w: &[u8]) -> Option<usize>
    ensures { result ≡ size_of (body_of false w.now) }
{
    let mut met = false;
    let mut n: usize = 0;
    for b in w {
        if met {
            if *b != 34 {
                return None;
            }
            met = false;
            n += 1; // the pair
        } else if *b == 34 {
            met = true;
        } else {
            n += 1;
        }
    }
    if met { Some(n) } else { None }
}

pub fn text_size(f: &[u8]) -> Option<usize>
    ensures { result ≡ size_of (text_of f.now) }
{
    match f {
        [34, body @ ..] => body_size(body),
        _ => None,
    }
}

// "A text of spaces only is empty": nothing but the opening quote is left before the closing one.
pub fn is_empty_text(f: &[u8]) -> bool
    ensures { result ≡ no_bytes (record_text f.now) }
{
    match text_size(f) {
        Some(_) => lines::kept(&f[..f.len() - 1]) == 1,
        None => false,
    }
}
