use crate::case::NamedText;
use crate::error::Why;
use std::alloc::Global;

/// The part of a source that a case marks, by its first byte and the byte past its last.
#[derive(Clone, Copy)]
pub(crate) struct Marked {
    pub(crate) first: u64,
    pub(crate) end: u64,
}

/// What the bytes in front of the next one are.
#[derive(Clone, Copy, PartialEq, Eq)]
enum Escape {
    Nothing,
    Backslash,
    Hexadecimal,
    HighDigit(u8),
}

/// Writes the bytes of one text.
#[derive(Drop)]
pub(crate) struct Pen<'a> {
    alloc: Global,
    shared: &'a [NamedText],
    bytes: Vec<u8>,
    marked: Marked,
    number: u64,
    escape: Escape,
}

/// The value of a hexadecimal digit.
fn digit(byte: u8) -> Result<u8, Why> {
    match byte {
        b'0'..=b'9' => Ok(byte - b'0'),
        b'a'..=b'f' => Ok(byte - b'a' + 10),
        _ => Err(Why::Escape),
    }
}

impl<'a> Pen<'a> {
    /// Nothing is written. `number` is what `\#` stands for.
    pub(crate) fn new(
        alloc: Global,
        shared: &'a [NamedText],
        marked: Marked,
        number: u64,
    ) -> Pen<'a> {
        Pen {
            alloc,
            shared,
            bytes: Vec::new(alloc),
            marked,
            number,
            escape: Escape::Nothing,
        }
    }

    fn push(&mut self, byte: u8) -> Result<(), Why> {
        self.escape = Escape::Nothing;
        Ok(self.bytes.push(byte)?)
    }

    fn push_number(&mut self, number: u64) -> Result<(), Why> {
        let text = format!(in self.alloc; "{number}")?;
        Ok(self.bytes.extend_from_slice(text.as_bytes())?)
    }

    /// The byte behind a backslash.
    fn escaped(&mut self, byte: u8) -> Result<(), Why> {
        self.escape = Escape::Nothing;
        match byte {
            b'\\' => self.push(b'\\')?,
            b'x' => self.escape = Escape::Hexadecimal,
            b'<' => self.marked.first = self.bytes.len() as u64,
            b'>' => self.marked.end = self.bytes.len() as u64,
            b'@' => {
                let Marked { first, end } = self.marked;
                self.push_number(first)?;
                self.push(b'-')?;
                self.push_number(end)?;
            }
            b'#' => self.push_number(self.number)?,
            b'+' => self.push_number(self.number.saturating_add(1))?,
            _ => return Err(Why::Escape),
        }
        Ok(())
    }

    fn byte(&mut self, byte: u8) -> Result<(), Why> {
        match self.escape {
            Escape::Nothing if byte == b'\\' => self.escape = Escape::Backslash,
            Escape::Nothing => self.push(byte)?,
            Escape::Backslash => self.escaped(byte)?,
            Escape::Hexadecimal => self.escape = Escape::HighDigit(digit(byte)?),
            Escape::HighDigit(high) => self.push(high.wrapping_mul(16).wrapping_add(digit(byte)?))?,
        }
        Ok(())
    }

    /// Writes the text of a name, a word or a line, without a line feed.
    pub(crate) fn write(&mut self, text: &str) -> Result<(), Why> {
        for byte in text.as_bytes() {
            self.byte(*byte)?;
        }
        Ok(())
    }

    /// Writes a line, with a line feed unless it ends in a backslash.
    fn write_line(&mut self, line: &str) -> Result<(), Why> {
        self.write(line)?;
        match self.escape {
            Escape::Nothing => self.push(b'\n'),
            Escape::Backslash => {
                self.escape = Escape::Nothing;
                Ok(())
            }
            _ => Err(Why::Escape),
        }
    }

    /// Writes a line so many times, numbered from 0.
    fn repeat(&mut self, count: u64, line: &str) -> Result<(), Why> {
        let number = self.number;
        for n in 0..count {
            self.number = n;
            self.write_line(line)?;
        }
        self.number = number;
        Ok(())
    }

    /// Writes so many bytes of a shared text.
    fn write_front(&mut self, rest: &str) -> Result<(), Why> {
        let (count, name) = counted(rest)?;
        let text = shared_text(self.shared, name)?;
        let count = usize::try_from(number_of(count)?).ok().ok_or(Why::Number)?;
        let front = text.get(..count).ok_or(Why::Number)?;
        Ok(self.bytes.extend_from_slice(front)?)
    }

    fn any_line(&mut self, line: &str) -> Result<(), Why> {
        if let Some(rest) = line.strip_prefix("\\repeat ") {
            let (count, line) = counted(rest)?;
            return self.repeat(number_of(count)?, line);
        }
        if let Some(rest) = line.strip_prefix("\\front ") {
            return self.write_front(rest);
        }
        match line.strip_prefix("\\use ") {
            Some(name) => Ok(
                self.bytes
                    .extend_from_slice(shared_text(self.shared, name)?)?,
            ),
            None => self.write_line(line),
        }
    }

    /// Writes all lines but the empty ones at the end.
    pub(crate) fn write_lines(&mut self, lines: &[&str]) -> Result<(), Why> {
        let mut empty: u64 = 0;
        for line in lines {
            if line.is_empty() {
                empty = empty.saturating_add(1);
            } else {
                self.repeat(empty, "")?;
                empty = 0;
                self.any_line(line)?;
            }
        }
        Ok(())
    }

    /// What is written, and the part that is marked.
    pub(crate) fn finish(self) -> (Vec<u8>, Marked) {
        (self.bytes, self.marked)
    }
}

/// The shared text of a name.
fn shared_text<'a>(shared: &'a [NamedText], name: &str) -> Result<&'a [u8], Why> {
    let text = shared
        .iter()
        .find(|text| text.name.as_str() == name)
        .ok_or(Why::NoText)?;
    Ok(text.bytes.as_slice())
}

/// A count, and what stands behind it and a space.
pub(crate) fn counted(text: &str) -> Result<(&str, &str), Why> {
    text.split_once(' ').ok_or(Why::Number)
}

/// A number in decimal.
pub(crate) fn number_of(text: &str) -> Result<u64, Why> {
    text.parse::<u64>().ok().ok_or(Why::Number)
}
