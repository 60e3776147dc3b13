use std::alloc::{AllocError, Global};

/// A head line, and the lines up to the next.
#[derive(Drop)]
pub(crate) struct Block<'a> {
    /// `==`, or the word behind `-- `.
    pub(crate) word: &'a str,
    /// What stands behind that word.
    pub(crate) rest: &'a str,
    pub(crate) body: Vec<&'a str>,
    /// The number of the head line, counted from 1.
    pub(crate) line: u64,
}

/// The word and the rest of a head line.
fn head_of(line: &str) -> Option<(&str, &str)> {
    if let Some(name) = line.strip_prefix("== ") {
        return Some(("==", name));
    }
    let head = line.strip_prefix("-- ")?;
    Some(head.split_once(' ').unwrap_or((head, "")))
}

/// The blocks of a text. Lines in front of the first head line are passed over.
pub(crate) fn blocks<'a>(alloc: Global, text: &'a str) -> Result<Vec<Block<'a>>, AllocError> {
    let mut blocks = Vec::new(alloc);
    let mut number: u64 = 0;
    for line in text.lines() {
        number = number.saturating_add(1);
        if let Some((word, rest)) = head_of(line) {
            blocks.push(Block {
                word,
                rest,
                body: Vec::new(alloc),
                line: number,
            })?;
        } else if let Some(block) = blocks.last_mut() {
            block.body.push(line)?;
        }
    }
    Ok(blocks)
}
