//! Comments.

ghost use Rattle.adl_lexer.specs.Gaps.{after_line, after_comment};
ghost use Rattle.cam_base.specs.Comments.{after_close};
ghost use Rattle.adl_lexer.specs.Pieces.{after_first, after_slash};
ghost use Rattle.std.specs.Prelude.{◌≡◌, option_map};

use memchr::memchr;

/// What is behind the first byte of this value.
#[tactic(auto, using(crate::proofs::Skips::first_absent))]
fn behind(wanted: u8, bytes: &[u8]) -> Option<&[u8]>
    ensures { option_map (λ r. r.now) result ≡ after_first wanted bytes.now }
{
    match memchr(wanted, bytes) {
        Some(at) => Some(&bytes[at + 1..]),
        None => None,
    }
}

/// What is behind the next line feed.
#[tactic(auto, using(crate::proofs::Skips::line_ends, crate::proofs::Skips::line_last))]
fn line_end(bytes: &[u8]) -> &[u8]
    ensures { result.now ≡ after_line bytes.now }
{
    match behind(b'\n', bytes) {
        Some(rest) => rest,
        None => &[],
    }
}

/// What is behind a slash at the front.
fn after_slash(bytes: &[u8]) -> Option<&[u8]>
    ensures { option_map (λ r. r.now) result ≡ after_slash bytes.now }
{
    match bytes {
        [b'/', rest @ ..] => Some(rest),
        _ => None,
    }
}

/// What is behind the next `*/`.
#[tactic(auto, using(crate::proofs::Skips::comment_ends))]
fn comment_end(bytes: &[u8]) -> Option<&[u8]>
    ensures { option_map (λ r. r.now) result ≡ after_close bytes.now }
{
    let mut rest = bytes;
    'comment: while let Some(behind) = behind(b'*', rest) {
        if let Some(after) = after_slash(behind) {
            return Some(after);
        }
        rest = behind;
    }
    None
}

/// What is behind a comment whose first slash stands before.
pub(crate) fn comment(bytes: &[u8]) -> Option<&[u8]>
    ensures { option_map (λ r. r.now) result ≡ after_comment bytes.now }
{
    match bytes {
        [b'/', rest @ ..] => Some(line_end(rest)),
        [b'*', rest @ ..] => comment_end(rest),
        _ => None,
    }
}
