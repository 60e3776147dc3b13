//! Comments.

ghost use Rattle.cam_base.specs.Comments.{after_close};
ghost use Rattle.capdl_text.specs.Gaps.{after_dash, after_slash};
ghost use Rattle.std.specs.Prelude.{◌≡◌, option_map};

use crate::run::line_end;

/// What is behind the next `*/`.
fn comment_end(bytes: &[u8]) -> Option<&[u8]>
    ensures { option_map (λ r. r.now) result ≡ after_close bytes.now }
{
    let mut rest = bytes;
    'comment: while let [byte, tail @ ..] = rest {
        if *byte == b'*'
            && let [b'/', after @ ..] = tail
        {
            return Some(after);
        }
        rest = tail;
    }
    None
}

/// What is behind a comment whose first slash stands before.
pub(crate) fn slash_comment(bytes: &[u8]) -> Option<&[u8]>
    ensures { option_map (λ r. r.now) result ≡ after_slash bytes.now }
{
    match bytes {
        [b'/', rest @ ..] => Some(line_end(rest)),
        [b'*', rest @ ..] => comment_end(rest),
        _ => None,
    }
}

/// What is behind a comment whose first dash stands before.
pub(crate) fn dash_comment(bytes: &[u8]) -> Option<&[u8]>
    ensures { option_map (λ r. r.now) result ≡ after_dash bytes.now }
{
    match bytes {
        [b'-', rest @ ..] => Some(line_end(rest)),
        _ => None,
    }
}
