//! Texts.

ghost use Rattle.capdl_text.specs.TokenFaults.{after_text};
ghost use Rattle.std.specs.Prelude.{◌≡◌, option_map};

/// What is behind the quote that ends a text, whose first quote stands before.
pub(crate) fn text_end(bytes: &[u8]) -> Option<&[u8]>
    ensures { option_map (λ r. r.now) result ≡ after_text bytes.now }
{
    let mut rest = bytes;
    'text: while let [byte, tail @ ..] = rest {
        if *byte == b'"' {
            return Some(tail);
        }
        if *byte == b'\n' {
            return None;
        }
        rest = tail;
    }
    None
}
