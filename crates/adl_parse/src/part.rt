//! The parts of a file, from a position in its tokens on.

ghost use Rattle.adl_ast.specs.Forms.{value_line, composition_line, configuration_line, assembly_line};
ghost use Rattle.adl_parse.specs.Faults.{file_of, place_at, code_of, name_of, fault_of, IsRefusalOf};
ghost use Rattle.adl_parse.specs.Parts.{IsPartAt};
ghost use Rattle.std.specs.Prelude.{◌≡◌, ◌≤◌, IfOk, length};

use crate::assembly::read_assembly;
use crate::composition::read_composition;
use crate::configuration::read_configuration;
use crate::cursor::Cursor;
use crate::value::read_value;
use adl_ast::{Assembly, Composition, Configuration, Value};
use cam_base::{
    Code, Fault, Made, NoMemory, Place, ReadError, Refused, Stop, Text, Token, Tokens, Why,
};
use std::alloc::Global;

fn file_of(tokens: &[Token]) -> u32
    ensures { result ≡ file_of tokens.now }
{
    match tokens {
        [] => 0,
        [token, ..] => token.place.file,
    }
}

fn place_at(file: u32, total: usize, tokens: &[Token]) -> Place
    ensures { result ≡ place_at file total tokens.now }
{
    match tokens {
        [] => Place {
            file,
            first: total as u64,
            end: total as u64,
        },
        [token, ..] => token.place,
    }
}

fn code_of(why: Why) -> Code
    ensures { result ≡ code_of why }
{
    match why {
        Why::Unexpected => Code::Syntax,
        Why::TooDeep => Code::Limit,
    }
}

fn name_of(why: Why) -> &'static [u8]
    ensures { result.now ≡ name_of why }
{
    match why {
        Why::Unexpected => b"",
        Why::TooDeep => b"nesting",
    }
}

/// The fault where reading stopped.
fn fault_of(alloc: Global, bytes: &[u8], tokens: &[Token], stop: Stop) -> Made<Fault>
    ensures { IfOk result (λ fault. fault ≡ fault_of bytes.now tokens.now stop.why stop.left) }
{
    let at = tokens.len().saturating_sub(stop.left);
    Ok(Fault {
        code: code_of(stop.why),
        place: place_at(file_of(tokens), bytes.len(), &tokens[at..]),
        name: Text::new(alloc, name_of(stop.why))?,
    })
}

/// The refusal where reading gave up.
pub fn refusal_of(alloc: Global, bytes: &[u8], tokens: &Tokens, error: ReadError) -> Refused<Fault>
    ensures { IsRefusalOf bytes.now tokens.now.list error result }
{
    match error {
        ReadError::NoMemory => Refused::NoMemory,
        ReadError::Stop(stop) => match fault_of(alloc, bytes, tokens.list.as_slice(), stop) {
            Ok(fault) => Refused::Fault(fault),
            Err(NoMemory) => Refused::NoMemory,
        },
    }
}

/// The value that the tokens from a position on spell, and the position behind it.
pub fn parse_value(
    alloc: Global,
    bytes: &[u8],
    tokens: &Tokens,
    at: usize,
) -> Result<(Value, usize), Refused<Fault>>
    requires { at ≤ length tokens.now.list }
    ensures part { IsPartAt value_line bytes.now tokens.now.list at result }
    ensures end { IfOk result (λ x. x.1 ≤ length tokens.now.list) }
{
    let mut left = Cursor::new(alloc, bytes, tokens, at);
    match read_value(&mut left) {
        Ok(value) => Ok((value, left.position(tokens))),
        Err(error) => Err(refusal_of(alloc, bytes, tokens, error)),
    }
}

/// The composition that the tokens from a position on spell, and the position behind it.
pub fn parse_composition(
    alloc: Global,
    bytes: &[u8],
    tokens: &Tokens,
    at: usize,
) -> Result<(Composition, usize), Refused<Fault>>
    requires { at ≤ length tokens.now.list }
    ensures part { IsPartAt composition_line bytes.now tokens.now.list at result }
    ensures end { IfOk result (λ x. x.1 ≤ length tokens.now.list) }
{
    let mut left = Cursor::new(alloc, bytes, tokens, at);
    match read_composition(&mut left) {
        Ok(composition) => Ok((composition, left.position(tokens))),
        Err(error) => Err(refusal_of(alloc, bytes, tokens, error)),
    }
}

/// The configuration that the tokens from a position on spell, and the position behind it.
pub fn parse_configuration(
    alloc: Global,
    bytes: &[u8],
    tokens: &Tokens,
    at: usize,
) -> Result<(Configuration, usize), Refused<Fault>>
    requires { at ≤ length tokens.now.list }
    ensures part { IsPartAt configuration_line bytes.now tokens.now.list at result }
    ensures end { IfOk result (λ x. x.1 ≤ length tokens.now.list) }
{
    let mut left = Cursor::new(alloc, bytes, tokens, at);
    match read_configuration(&mut left) {
        Ok(configuration) => Ok((configuration, left.position(tokens))),
        Err(error) => Err(refusal_of(alloc, bytes, tokens, error)),
    }
}

/// The assembly that the tokens from a position on spell, and the position behind it.
pub fn parse_assembly(
    alloc: Global,
    bytes: &[u8],
    tokens: &Tokens,
    at: usize,
) -> Result<(Assembly, usize), Refused<Fault>>
    requires { at ≤ length tokens.now.list }
    ensures part { IsPartAt assembly_line bytes.now tokens.now.list at result }
    ensures end { IfOk result (λ x. x.1 ≤ length tokens.now.list) }
{
    let mut left = Cursor::new(alloc, bytes, tokens, at);
    match read_assembly(&mut left) {
        Ok(assembly) => Ok((assembly, left.position(tokens))),
        Err(error) => Err(refusal_of(alloc, bytes, tokens, error)),
    }
}
