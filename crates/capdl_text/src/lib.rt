//! What a capDL text says: its tokens and their grammar, the faults that stand in it, and the spec that it gives.
//!
//! Nothing here reads a tree or writes a text. Bytes become one list of tokens or the first fault of tokens
//! (`specs/{Lexes, Lexemes, TokenKinds, Words, Gaps, TokenFaults, Codes}.antt`). The grammar stands in `specs/Forms.antt`, the
//! faults of a tree by their codes in `specs/{Unknown, Twice, KindField, SlotRange, Limits}.antt`, all of them in
//! `specs/TreeFaults.antt`, the spec that a tree gives in `specs/Meaning.antt`, and both a text's spec and its first fault
//! in `specs/Texts.antt`.
#![tactic(auto)]

mod borrowed;
mod bytes;
mod digits;
mod field;
mod gap;
mod known;
mod laws;
mod lexer;
mod lexer_laws;
mod piece;
mod run;
mod seen;
mod text;
mod token;
mod tree;
mod word;

pub use borrowed::{NameAt, TextAt};
pub use field::{Field, FieldTable, fields};
pub use known::Known;
pub use laws::{
    faults_are_one, first_is_first, specs_are_one, texts_are_read, texts_have_no_fault,
};
pub use lexer::lex;
pub use lexer_laws::{token_fault_is_one, tokens_are_one, tokens_have_no_fault};
pub use seen::Seen;
pub use token::{Kind, Lexeme, Mark, Sort, Span, Token, Word};
pub use tree::{
    FillLine, FrameField, FrameValue, Holder, Id, IrqLine, KindLine, Number, ObjectLine, Param,
    SlotKey, SlotLine, SpecTree, ThreadField, ThreadValue,
};
