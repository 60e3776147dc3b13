ghost use Rattle.cam_base.specs.Numbers.{is_digit};
ghost use Rattle.command_words.specs.Words.{count_of};
ghost use Rattle.std.specs.List.{list_all};
ghost use Rattle.std.specs.Prelude.{◌≡◌};

use cam_base::read_number;

/// The number from 1 to 1,000 that a word has, in decimal without leading zeros. Takes no memory.
pub fn count_in(word: &[u8]) -> Option<u64>
    ensures { result ≡ count_of word.now }
{
    if !are_digits(word) {
        return None;
    }
    match read_number(word) {
        Some(count @ 1..=1000) => Some(count),
        _ => None,
    }
}

fn are_digits(word: &[u8]) -> bool
    ensures { result ≡ list_all is_digit word.now }
{
    word.iter().all(|b| b.is_ascii_digit())
}
