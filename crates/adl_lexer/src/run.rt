//! Runs of bytes.

ghost use Rattle.adl_lexer.specs.Classes.{after_run, class_of, run, blanks, word_bytes, angle_bytes, line_bytes};
ghost use Rattle.cam_base.specs.Form.{among};
ghost use Rattle.std.specs.Prelude.{◌≡◌};

use crate::class::{BLANK, DIGIT, DOT, LINE_FEED, MINUS, SLASH, class};

/// A run of letters, digits and underscores, and the rest behind it.
#[tactic(auto, using(crate::proofs::Runs::run_taken, crate::proofs::Runs::after_run_le))]
pub(crate) fn word_run(bytes: &[u8]) -> (&[u8], &[u8])
    ensures text { result.0.now ≡ run word_bytes bytes.now }
    ensures rest { result.1.now ≡ after_run word_bytes bytes.now }
{
    let rest = word_end(bytes);
    (&bytes[..bytes.len() - rest.len()], rest)
}

/// The bytes up to the next line feed or the end.
#[tactic(auto, using(crate::proofs::Runs::run_taken, crate::proofs::Runs::after_run_le))]
pub(crate) fn line(bytes: &[u8]) -> &[u8]
    ensures { result.now ≡ run line_bytes bytes.now }
{
    let rest = line_end(bytes);
    &bytes[..bytes.len() - rest.len()]
}

fn word_end(bytes: &[u8]) -> &[u8]
    ensures { result.now ≡ after_run word_bytes bytes.now }
{
    let mut rest = bytes;
    'run: while let [byte, tail @ ..] = rest {
        if class(*byte) > DIGIT {
            break;
        }
        rest = tail;
    }
    rest
}

/// What is behind a run of blanks.
pub(crate) fn blanks_end(bytes: &[u8]) -> &[u8]
    ensures { result.now ≡ after_run blanks bytes.now }
{
    let mut rest = bytes;
    'run: while let [byte, tail @ ..] = rest {
        if !is_blank(class(*byte)) {
            break;
        }
        rest = tail;
    }
    rest
}

#[inline(always)]
pub(crate) fn is_blank(class: u8) -> bool
    ensures { result ≡ among blanks class }
{
    class == BLANK || class == LINE_FEED
}

/// What is behind a run of bytes of an angle name.
pub(crate) fn angle_end(bytes: &[u8]) -> &[u8]
    ensures { result.now ≡ after_run angle_bytes bytes.now }
{
    let mut rest = bytes;
    'run: while let [byte, tail @ ..] = rest {
        let class = class(*byte);
        if class > DIGIT && class != DOT && class != SLASH && class != MINUS {
            break;
        }
        rest = tail;
    }
    rest
}

fn line_end(bytes: &[u8]) -> &[u8]
    ensures { result.now ≡ after_run line_bytes bytes.now }
{
    let mut rest = bytes;
    'run: while let [byte, tail @ ..] = rest {
        if !is_line_byte(*byte) {
            break;
        }
        rest = tail;
    }
    rest
}

#[tactic(auto, using(crate::proofs::Classes::line_byte))]
fn is_line_byte(byte: u8) -> bool
    ensures { result ≡ among line_bytes (class_of byte) }
{
    class(byte) != LINE_FEED
}
