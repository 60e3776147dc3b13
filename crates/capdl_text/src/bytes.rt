//! Bytes that are looked for among many.

ghost use Rattle.capdl_text.specs.NumberedWords.{ends_in_digit};
ghost use Rattle.std.specs.Prelude.{◌≡◌};
ghost use Rattle.std.specs.Str.{bytes_eq};

/// Whether bytes are those of a word. Most aren't, and differ in length or in the first byte.
#[inline(always)]
#[tactic(auto, using(cam_base::proofs::Bytes::other_length))]
pub(crate) fn is(bytes: &[u8], word: &[u8]) -> bool
    ensures { result ≡ bytes_eq bytes.now word.now }
{
    if bytes.len() != word.len() {
        return false;
    }
    match (bytes, word) {
        ([first, ..], [other, ..]) if first != other => false,
        _ => bytes == word,
    }
}

/// Whether the last byte is a digit.
pub(crate) fn ends_in_digit(bytes: &[u8]) -> bool
    ensures { result ≡ ends_in_digit bytes.now }
{
    match bytes.last() {
        Some(byte) => byte.is_ascii_digit(),
        None => false,
    }
}
