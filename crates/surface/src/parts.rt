//! Parts of a file: from a position among its tokens on.

ghost use Rattle.std.specs.Prelude.{◌≡◌, ◌≤◌, length};

use crate::refused::show_refused;
use adl_lexer::lex;
use adl_parse::{parse_assembly, parse_composition, parse_configuration, parse_value};
use cam_base::Tokens;
use std::io;

/// As many brackets within each other as a value may have, and one more.
pub fn show_brackets(rt: &HostRuntime) -> io::Result<()> {
    show_text(
        rt,
        b"[[[[[[[[[[[[[[[[[[[[[[[[[[[[[[[[]]]]]]]]]]]]]]]]]]]]]]]]]]]]]]]]",
    )?;
    show_text(
        rt,
        b"[[[[[[[[[[[[[[[[[[[[[[[[[[[[[[[[[]]]]]]]]]]]]]]]]]]]]]]]]]]]]]]]]]",
    )
}

fn show_text(rt: &HostRuntime, bytes: &[u8]) -> io::Result<()> {
    match lex(rt.alloc(), 0, bytes) {
        Ok(tokens) => show_value(rt, bytes, &tokens, 0),
        Err(why) => show_refused(rt, "lex", &why),
    }
}

/// The assembly of a text, and what stands in it.
pub fn show_parts(rt: &HostRuntime) -> io::Result<()> {
    let bytes = b"assembly { composition { component A a; } configuration { a.x = 1; } }";
    match lex(rt.alloc(), 0, bytes) {
        Ok(tokens) if tokens.list.len() == 19 => show_all(rt, bytes, &tokens),
        Ok(_) => println!(rt; "lex: other tokens"),
        Err(why) => show_refused(rt, "lex", &why),
    }
}

fn show_all(rt: &HostRuntime, bytes: &[u8], tokens: &Tokens) -> io::Result<()>
    requires { length tokens.now.list ≡ 19 }
{
    show_assembly(rt, bytes, tokens, 0)?;
    show_composition(rt, bytes, tokens, 2)?;
    show_configuration(rt, bytes, tokens, 9)?;
    show_value(rt, bytes, tokens, 15)
}

fn show_value(rt: &HostRuntime, bytes: &[u8], tokens: &Tokens, at: usize) -> io::Result<()>
    requires { at ≤ length tokens.now.list }
{
    match parse_value(rt.alloc(), bytes, tokens, at) {
        Ok((value, behind)) => {
            let end = value.place.end;
            println!(rt; "parse_value: up to byte {end}, then token {behind}")
        }
        Err(why) => show_refused(rt, "parse_value", &why),
    }
}

fn show_composition(rt: &HostRuntime, bytes: &[u8], tokens: &Tokens, at: usize) -> io::Result<()>
    requires { at ≤ length tokens.now.list }
{
    match parse_composition(rt.alloc(), bytes, tokens, at) {
        Ok((composition, behind)) => {
            let count = composition.lines.len();
            println!(rt; "parse_composition: {count} lines, then token {behind}")
        }
        Err(why) => show_refused(rt, "parse_composition", &why),
    }
}

fn show_configuration(rt: &HostRuntime, bytes: &[u8], tokens: &Tokens, at: usize) -> io::Result<()>
    requires { at ≤ length tokens.now.list }
{
    match parse_configuration(rt.alloc(), bytes, tokens, at) {
        Ok((configuration, behind)) => {
            let count = configuration.settings.len();
            println!(rt; "parse_configuration: {count} settings, then token {behind}")
        }
        Err(why) => show_refused(rt, "parse_configuration", &why),
    }
}

fn show_assembly(rt: &HostRuntime, bytes: &[u8], tokens: &Tokens, at: usize) -> io::Result<()>
    requires { at ≤ length tokens.now.list }
{
    match parse_assembly(rt.alloc(), bytes, tokens, at) {
        Ok((assembly, behind)) => {
            let count = assembly.composition.lines.len();
            println!(rt; "parse_assembly: {count} lines, then token {behind}")
        }
        Err(why) => show_refused(rt, "parse_assembly", &why),
    }
}
