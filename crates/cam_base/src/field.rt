//! The fields of a line.

ghost use Rattle.std.specs.Prelude.{◌≡◌, IfOk, map, take};
ghost use Rattle.cam_base.specs.Fields.{fields, is_padded, spaced_fields};

use crate::Made;
use crate::part::part_from;
use std::alloc::{AllocError, Global};

/// The first `most` fields of a line, all of them where it has no more.
pub fn fields<'a>(alloc: Global, line: &'a [u8], most: usize) -> Made<Vec<&'a [u8]>>
    ensures { IfOk result (λ v. map (λ f. f.now) v.items ≡ take most (fields line.entry.now)) }
{
    let mut fields = Vec::new(alloc);
    let mut at = 0;
    while at <= line.len() && fields.len() < most {
        let field = part_from(line, at, b' ');
        at += field.len() + 1;
        fields.push(field)?;
    }
    Ok(fields)
}

/// Whether a space stands in front of a line's first field or behind its last.
fn is_padded(line: &[u8]) -> bool
    ensures { result ≡ is_padded line.now }
{
    match line {
        [] => false,
        [first, ..] => *first == b' ' || line[line.len() - 1] == b' ',
    }
}

/// The fields that one space parts.
fn all_fields(alloc: Global, line: &[u8]) -> Result<Vec<&[u8]>, AllocError>
    ensures { IfOk result (λ v. map (λ f. f.now) v.items ≡ fields line.entry.now) }
{
    line.split(|b| *b == b' ').collect(alloc)
}

/// The fields of a line that several spaces may part, none where one stands in front of them or behind.
pub fn spaced_fields(alloc: Global, line: &[u8]) -> Made<Vec<&[u8]>>
    ensures { IfOk result (λ v. map (λ f. f.now) v.items ≡ spaced_fields line.entry.now) }
{
    let mut fields = Vec::new(alloc);
    if is_padded(line) {
        return Ok(fields);
    }
    for field in all_fields(alloc, line)?.as_slice() {
        if !field.is_empty() {
            fields.push(*field)?;
        }
    }
    Ok(fields)
}
