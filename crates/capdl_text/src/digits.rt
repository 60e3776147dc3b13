//! Runs that begin with a digit, and words that are left out.

ghost use Rattle.capdl_text.specs.TokenFaults.{is_left_out_size, is_left_out_word};
ghost use Rattle.capdl_text.specs.TokenKinds.{digits_kind};
ghost use Rattle.std.specs.Prelude.{◌≡◌};

use crate::bytes::{ends_in_digit, is};
use crate::token::Kind;
use cam_base::read_number;

/// The number or the size 4k.
pub(crate) fn digits_kind(run: &[u8]) -> Option<Kind>
    ensures { result ≡ digits_kind run.now }
{
    if is(run, b"4k") {
        return Some(Kind::Page);
    }
    Some(Kind::Number(read_number(run)?))
}

/// Whether a word is left out of this profile.
#[tactic(auto, unfolding(crate::specs::TokenFaults::is_left_out_word), using(crate::proofs::NumberedWords::numbered_left_out))]
pub(crate) fn is_left_out_word(word: &[u8]) -> bool
    ensures { result ≡ is_left_out_word word.now }
{
    if ends_in_digit(word) {
        return is(word, b"ia32") || is(word, b"x86_64");
    }
    is(word, b"untyped")
        || is(word, b"ut")
        || is(word, b"asid_pool")
        || is(word, b"io_ports")
        || is(word, b"io_device")
        || is(word, b"io_pt")
        || is(word, b"arm_iospace")
        || is(word, b"vcpu")
        || is(word, b"sc")
        || is(word, b"rtreply")
        || is(word, b"cdt")
        || is(word, b"master_reply")
        || is(word, b"reply_slot")
        || is(word, b"caller_slot")
        || is(word, b"fault_ep_slot")
        || is(word, b"ia32")
        || is(word, b"x86_64")
        || is(word, b"riscv")
}

/// Whether a size of frames is left out of this profile.
#[tactic(auto, unfolding(crate::specs::TokenFaults::is_left_out_size))]
pub(crate) fn is_left_out_size(run: &[u8]) -> bool
    ensures { result ≡ is_left_out_size run.now }
{
    is(run, b"64k") || is(run, b"1M") || is(run, b"2M") || is(run, b"16M") || is(run, b"1G")
}
