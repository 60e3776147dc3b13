//! The words that can't be names.

ghost use Rattle.adl_lexer.specs.Candidates.{by_front, by_late_front, by_middle_front, candidate, on_c, on_i};
ghost use Rattle.adl_lexer.specs.Keywords.{IsRowOf, all_keywords, keyword_of, spelling};
ghost use Rattle.std.specs.List.{list_any};
ghost use Rattle.std.specs.Prelude.{◌≡◌};
ghost use Rattle.std.specs.Str.{bytes_eq};

use cam_base::Keyword;
use std::marker::Model;

/// Keywords, one a row, to be found by their words. Contracts see it as the list of its rows.
#[derive(Drop)]
pub struct KeywordTable<const N: usize> {
    rows: [Keyword; N],
}

impl<const N: usize> Model for KeywordTable<N> {
    ghost use Rattle.cam_base.specs.declared.token.Keyword.{Keyword};
    ghost use Rattle.std.specs.Prelude.{List};

    ghost Value = { List Keyword };

    ghost view = { λ t. t.rows };
}

macro_rules! rows {
    ($($keyword:ident),* $(,)?) => { [$(Keyword::$keyword),*] };
}

/// The table of all keywords. Takes no memory.
pub fn keywords() -> KeywordTable<29>
    ensures { result ≡ all_keywords }
{
    KeywordTable {
        rows: rows![
            KAssembly,
            KAttribute,
            KBinarySemaphore,
            KComponent,
            KComposition,
            KConfiguration,
            KConnection,
            KConsumes,
            KControl,
            KDataport,
            KEmits,
            KExport,
            KFrom,
            KGroup,
            KHardware,
            KHas,
            KImport,
            KIn,
            KInclude,
            KInout,
            KMaybe,
            KMutex,
            KOut,
            KProcedure,
            KProvides,
            KRefin,
            KSemaphore,
            KTo,
            KUses,
        ],
    }
}

impl<const N: usize> KeywordTable<N> {
    /// The keyword in a row that has this word, looked up as the lexer does; none exactly where no row has it. Takes no memory.
    #[tactic(auto, using(crate::proofs::KeywordRows::is_no_row, crate::proofs::KeywordRows::is_no_keyword))]
    pub fn find(&self, word: &[u8]) -> Option<Keyword>
        ensures { IsRowOf self.now word.now result }
    {
        let keyword = keyword_of(word)?;
        if self.has(word) { Some(keyword) } else { None }
    }

    /// Whether a row has this word.
    fn has(&self, word: &[u8]) -> bool
        ensures { result ≡ list_any (λ k. bytes_eq (spelling k) word.now) self.now }
    {
        self.rows
            .iter()
            .any(|keyword| is_same(spelling(*keyword), word))
    }
}

/// The keyword that a word is, as the table of all keywords gives it, by one comparison in place of 29.
#[tactic(auto, using(crate::proofs::KeywordWords::candidates))]
pub(crate) fn keyword_of(word: &[u8]) -> Option<Keyword>
    ensures { result ≡ keyword_of word.now }
{
    let keyword = candidate(word)?;
    if is_same(spelling(keyword), word) {
        Some(keyword)
    } else {
        None
    }
}

/// Whether two words are one: for words as short as keywords a plain loop is quickest.
fn is_same(left: &[u8], right: &[u8]) -> bool
    ensures { result ≡ bytes_eq left.now right.now }
{
    let mut rest = left;
    let mut other = right;
    'same: while let [byte, behind @ ..] = rest {
        match other {
            [first, after @ ..] if byte == first => {
                rest = behind;
                other = after;
            }
            _ => return false,
        }
    }
    other.is_empty()
}

/// The one keyword that a word can be.
fn candidate(word: &[u8]) -> Option<Keyword>
    ensures { result ≡ candidate word.now }
{
    match word {
        [] | [_] => None,
        [first, second, ..] => by_front(*first, *second, word.len()),
    }
}

fn by_front(first: u8, second: u8, len: usize) -> Option<Keyword>
    ensures { result ≡ by_front first second len }
{
    match first {
        b'a' if len == 8 => Some(Keyword::KAssembly),
        b'a' => Some(Keyword::KAttribute),
        b'b' => Some(Keyword::KBinarySemaphore),
        b'c' => Some(on_c(len)),
        b'd' => Some(Keyword::KDataport),
        b'e' if len == 5 => Some(Keyword::KEmits),
        b'e' => Some(Keyword::KExport),
        _ => by_middle_front(first, second, len),
    }
}

fn by_middle_front(first: u8, second: u8, len: usize) -> Option<Keyword>
    ensures { result ≡ by_middle_front first second len }
{
    match first {
        b'f' => Some(Keyword::KFrom),
        b'g' => Some(Keyword::KGroup),
        b'h' if len == 3 => Some(Keyword::KHas),
        b'h' => Some(Keyword::KHardware),
        b'i' => Some(on_i(len)),
        b'm' if second == b'a' => Some(Keyword::KMaybe),
        b'm' => Some(Keyword::KMutex),
        _ => by_late_front(first, len),
    }
}

fn by_late_front(first: u8, len: usize) -> Option<Keyword>
    ensures { result ≡ by_late_front first len }
{
    match first {
        b'o' => Some(Keyword::KOut),
        b'p' if len == 9 => Some(Keyword::KProcedure),
        b'p' => Some(Keyword::KProvides),
        b'r' => Some(Keyword::KRefin),
        b's' => Some(Keyword::KSemaphore),
        b't' => Some(Keyword::KTo),
        b'u' => Some(Keyword::KUses),
        _ => None,
    }
}

fn on_c(len: usize) -> Keyword
    ensures { result ≡ on_c len }
{
    match len {
        7 => Keyword::KControl,
        8 => Keyword::KConsumes,
        9 => Keyword::KComponent,
        10 => Keyword::KConnection,
        11 => Keyword::KComposition,
        _ => Keyword::KConfiguration,
    }
}

fn on_i(len: usize) -> Keyword
    ensures { result ≡ on_i len }
{
    match len {
        2 => Keyword::KIn,
        5 => Keyword::KInout,
        6 => Keyword::KImport,
        _ => Keyword::KInclude,
    }
}

/// The word of a keyword.
fn spelling(keyword: Keyword) -> &'static [u8]
    ensures { result.now ≡ spelling keyword }
{
    match keyword {
        Keyword::KAssembly => b"assembly",
        Keyword::KAttribute => b"attribute",
        Keyword::KBinarySemaphore => b"binary_semaphore",
        Keyword::KComponent => b"component",
        Keyword::KComposition => b"composition",
        Keyword::KConfiguration => b"configuration",
        Keyword::KConnection => b"connection",
        Keyword::KConsumes => b"consumes",
        Keyword::KControl => b"control",
        Keyword::KDataport => b"dataport",
        Keyword::KEmits => b"emits",
        Keyword::KExport => b"export",
        Keyword::KFrom => b"from",
        Keyword::KGroup => b"group",
        Keyword::KHardware => b"hardware",
        Keyword::KHas => b"has",
        Keyword::KImport => b"import",
        Keyword::KIn => b"in",
        Keyword::KInclude => b"include",
        Keyword::KInout => b"inout",
        Keyword::KMaybe => b"maybe",
        Keyword::KMutex => b"mutex",
        Keyword::KOut => b"out",
        Keyword::KProcedure => b"procedure",
        Keyword::KProvides => b"provides",
        Keyword::KRefin => b"refin",
        Keyword::KSemaphore => b"semaphore",
        Keyword::KTo => b"to",
        Keyword::KUses => b"uses",
    }
}
