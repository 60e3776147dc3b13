//! Runs of bytes.

ghost use Rattle.cam_base.specs.Names.{is_word_byte};
ghost use Rattle.capdl_text.specs.Gaps.{after_line};
ghost use Rattle.capdl_text.specs.TokenFaults.{after_run, is_line_byte, run};
ghost use Rattle.std.specs.Prelude.{◌≡◌};

use cam_base::is_word_byte;

/// A run of letters, digits and underscores, and the rest behind it.
#[tactic(auto, using(crate::proofs::Runs::run_taken, crate::proofs::Runs::after_run_le))]
pub(crate) fn word_run(bytes: &[u8]) -> (&[u8], &[u8])
    ensures text { result.0.now ≡ run is_word_byte bytes.now }
    ensures rest { result.1.now ≡ after_run is_word_byte bytes.now }
{
    let rest = word_end(bytes);
    (&bytes[..bytes.len() - rest.len()], rest)
}

/// The bytes up to the next line feed or the end.
#[tactic(auto, using(crate::proofs::Runs::run_taken, crate::proofs::Runs::after_run_le))]
pub(crate) fn line(bytes: &[u8]) -> &[u8]
    ensures { result.now ≡ run is_line_byte bytes.now }
{
    let rest = line_end(bytes);
    &bytes[..bytes.len() - rest.len()]
}

fn word_end(bytes: &[u8]) -> &[u8]
    ensures { result.now ≡ after_run is_word_byte bytes.now }
{
    let mut rest = bytes;
    'run: while let [byte, tail @ ..] = rest {
        if !is_word_byte(*byte) {
            break;
        }
        rest = tail;
    }
    rest
}

/// The bytes from the next line feed on.
pub(crate) fn line_end(bytes: &[u8]) -> &[u8]
    ensures line { result.now ≡ after_line bytes.now }
    ensures run { result.now ≡ after_run is_line_byte bytes.now }
{
    let mut rest = bytes;
    'run: while let [byte, tail @ ..] = rest {
        if *byte == b'\n' {
            break;
        }
        rest = tail;
    }
    rest
}
