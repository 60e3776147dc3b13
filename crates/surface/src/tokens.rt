//! Tokens, keywords, and a whole file.

use crate::refused::show_refused;
use adl_ast::File;
use adl_lexer::{keywords, lex};
use adl_parse::parse_file;
use cam_base::{Keyword, Tokens};
use std::io;

/// The tokens of a file, and its items.
pub fn show_file(rt: &HostRuntime, bytes: &[u8]) -> io::Result<()> {
    match lex(rt.alloc(), 0, bytes) {
        Ok(tokens) => show_items(rt, bytes, &tokens),
        Err(why) => show_refused(rt, "lex", &why),
    }
}

fn show_items(rt: &HostRuntime, bytes: &[u8], tokens: &Tokens) -> io::Result<()> {
    let count = tokens.list.len();
    println!(rt; "lex: {count} tokens")?;
    match parse_file(rt.alloc(), bytes, tokens) {
        Ok(file) => show_count(rt, &file),
        Err(why) => show_refused(rt, "parse_file", &why),
    }
}

fn show_count(rt: &HostRuntime, file: &File) -> io::Result<()> {
    let (imports, procedures, components, assemblies) = file.count();
    println!(rt;
        "count: {imports} imports, {procedures} procedures, {components} components, {assemblies} assemblies"
    )
}

/// A word that is a keyword, and one that isn't.
pub fn show_keywords(rt: &HostRuntime) -> io::Result<()> {
    let table = keywords();
    match (table.find(b"semaphore"), table.find(b"semaphores")) {
        (Some(Keyword::KSemaphore), None) => println!(rt; "find: a keyword, and none"),
        _ => println!(rt; "find: other keywords"),
    }
}
