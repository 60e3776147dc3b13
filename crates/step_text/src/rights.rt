//! Rights as a field.

ghost use Rattle.std.specs.List.{list_all};
ghost use Rattle.std.specs.Prelude.{◌≡◌};
ghost use Rattle.step_text.specs.RightsFields.{is_right, once, each_once, has_letter, is_rights, rights_value};

use cap_model::Rights;

fn is_right(letter: u8) -> bool
    ensures { result ≡ is_right letter }
{
    letter == b'R' || letter == b'W' || letter == b'G' || letter == b'P'
}

fn once(letter: u8, word: &[u8]) -> bool
    ensures { result ≡ once letter word.now }
{
    word.iter().filter(|b| **b == letter).count() <= 1
}

fn has_letter(letter: u8, word: &[u8]) -> bool
    ensures { result ≡ has_letter letter word.now }
{
    word.iter().any(|b| *b == letter)
}

fn each_once(word: &[u8]) -> bool
    ensures { result ≡ each_once word.now }
{
    once(b'R', word) && once(b'W', word) && once(b'G', word) && once(b'P', word)
}

fn all_rights(word: &[u8]) -> bool
    ensures { result ≡ list_all is_right word.now }
{
    word.iter().all(|b| is_right(*b))
}

fn is_rights(word: &[u8]) -> bool
    ensures { result ≡ is_rights word.now }
{
    !word.is_empty() && all_rights(word) && each_once(word)
}

/// The rights that a field spells, none exactly where it spells none.
pub fn read_rights(word: &[u8]) -> Option<Rights>
    ensures { result ≡ rights_value word.now }
{
    if word == b"-".as_slice() {
        return Some(Rights::none());
    }
    if !is_rights(word) {
        return None;
    }
    Some(Rights {
        read: has_letter(b'R', word),
        write: has_letter(b'W', word),
        grant: has_letter(b'G', word),
        reply: has_letter(b'P', word),
    })
}
