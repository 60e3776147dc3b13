//! The trees of the architecture language, and its grammar: which tokens spell a tree, and which begin one.
//!
//! Nothing here reads a token or knows what a tree stands for. The grammar stands in `specs/Forms.antt`, the codes of
//! tokens in `specs/Codes.antt`, spelling and beginning in `specs/Spelling.antt`, and the lines as the language is
//! usually written in `specs/Written.antt`.
#![tactic(auto)]

mod byte_count;
mod component;
mod composition;
mod configuration;
mod dotted;
mod file;
mod id;
mod laws;
mod procedure;
mod seen;
mod short_place;
mod source;
mod value;
mod words;
mod written;

pub use byte_count::ByteCount;
pub use component::{Attribute, Component, Interface, InterfaceKind, Lock, LockKind, Member};
pub use composition::{
    Assembly, Composition, Connection, End, Export, Group, Instance, Line, Role,
};
pub use configuration::{Configuration, Setter, Setting};
pub use dotted::Dotted;
pub use file::{Ended, File, Import, Item};
pub use id::Id;
pub use laws::{
    assemblies_stand_alone, beginnings_are_fronts, codes_tell_kinds, compositions_stand_alone,
    configurations_stand_alone, files_are_one, fronts_begin, fronts_begin_within,
    values_stand_alone,
};
pub use procedure::{Direction, Method, Param, ProcMember, Procedure};
pub use seen::Seen;
pub use short_place::ShortPlace;
pub use source::{Source, SourceFile};
pub use value::{Value, ValueKind};
pub use words::Words;
pub use written::{interfaces_agree, params_agree, typed_names_agree};
