//! Tokens of the architecture language: bytes to one list of tokens, or to the first lexing fault.
//!
//! Nothing here reads a file, knows the grammar or looks at a path. What a list of tokens and the first fault are stands
//! in `specs/Lexes.antt`, the kinds of tokens in `specs/TokenKinds.antt` and in plain words in `specs/TokenTexts.antt`,
//! how their places rise in `specs/Places.antt`, blanks and comments in `specs/Gaps.antt`, the faults in
//! `specs/LexFaults.antt`, the keywords in `specs/Keywords.antt`. `specs/Candidates.antt` and `specs/Pieces.antt` speak of
//! private functions alone.
#![tactic(auto)]

mod class;
mod gap;
mod keyword;
mod laws;
mod lexer;
mod number;
mod piece;
mod run;
mod text;
mod word;

pub use keyword::{KeywordTable, keywords};
pub use laws::{
    bytes_at_fault_begin_no_token, first_fault_is_one, keywords_are_their_words, one_thing_begins,
    places_rise, tokens_are_one, tokens_have_no_fault, tokens_have_their_texts,
};
pub use lexer::{lex, lex_within};
