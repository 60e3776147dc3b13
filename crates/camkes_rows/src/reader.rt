use crate::block::{Block, blocks};
use crate::case::{Case, NamedText, Program, Run};
use crate::error::{RowError, Why};
use crate::pen::{Marked, Pen, counted, number_of};
use std::alloc::Global;

/// The cases that are read so far, the texts that others use, and what the last case marks.
#[derive(Drop)]
struct Reader {
    alloc: Global,
    shared: Vec<NamedText>,
    cases: Vec<Case>,
    marked: Marked,
}

impl Reader {
    fn new(alloc: Global) -> Reader {
        Reader {
            alloc,
            shared: Vec::new(alloc),
            cases: Vec::new(alloc),
            marked: Marked { first: 0, end: 0 },
        }
    }

    /// A name or a word.
    fn word(&self, text: &str, number: u64) -> Result<String, Why> {
        if text == "\"\"" {
            return Ok(String::new(self.alloc));
        }
        let mut pen = Pen::new(self.alloc, &[], self.marked, number);
        pen.write(text)?;
        let (bytes, _marked) = pen.finish();
        String::from_utf8(bytes).ok().ok_or(Why::NotUtf8)
    }

    fn words(&self, text: &str) -> Result<Vec<String>, Why> {
        let mut words = Vec::new(self.alloc);
        if !text.is_empty() {
            for word in text.split(' ') {
                words.push(self.word(word, 0)?)?;
            }
        }
        Ok(words)
    }

    /// One word a line.
    fn word_lines(&self, lines: &[&str]) -> Result<Vec<String>, Why> {
        let mut words = Vec::new(self.alloc);
        for line in lines {
            if !line.is_empty() {
                words.push(self.word(line, 0)?)?;
            }
        }
        Ok(words)
    }

    /// The bytes of a text.
    fn text(&mut self, lines: &[&str], number: u64) -> Result<Vec<u8>, Why> {
        let mut pen = Pen::new(self.alloc, self.shared.as_slice(), self.marked, number);
        pen.write_lines(lines)?;
        let (bytes, marked) = pen.finish();
        self.marked = marked;
        Ok(bytes)
    }

    fn named_text(&mut self, name: &str, lines: &[&str], number: u64) -> Result<NamedText, Why> {
        Ok(NamedText {
            name: self.word(name, number)?,
            bytes: self.text(lines, number)?,
        })
    }

    fn case(&mut self) -> Result<&mut Case, Why> {
        self.cases.last_mut().ok_or(Why::OutOfPlace)
    }

    fn run(&mut self) -> Result<&mut Run, Why> {
        self.case()?.runs.last_mut().ok_or(Why::OutOfPlace)
    }

    fn begin_case(&mut self, name: &str) -> Result<(), Why> {
        let case = Case {
            name: self.word(name, 0)?,
            files: Vec::new(self.alloc),
            runs: Vec::new(self.alloc),
        };
        Ok(self.cases.push(case)?)
    }

    fn begin_run(&mut self, program: Program, words: &str) -> Result<(), Why> {
        let run = Run::new(self.alloc, program, self.words(words)?);
        Ok(self.case()?.runs.push(run)?)
    }

    fn add_file(&mut self, name: &str, lines: &[&str], number: u64) -> Result<(), Why> {
        let file = self.named_text(name, lines, number)?;
        Ok(self.case()?.files.push(file)?)
    }

    /// So many files, numbered from 0.
    fn add_files(&mut self, rest: &str, lines: &[&str]) -> Result<(), Why> {
        let (count, name) = counted(rest)?;
        for number in 0..number_of(count)? {
            self.add_file(name, lines, number)?;
        }
        Ok(())
    }

    fn set_status(&mut self, rest: &str) -> Result<(), Why> {
        let status = u8::try_from(number_of(rest)?).ok().ok_or(Why::Number)?;
        self.run()?.status = status;
        Ok(())
    }

    /// A line that says what a run must do.
    fn demand(&mut self, word: &str, rest: &str, lines: &[&str]) -> Result<(), Why> {
        match word {
            "status" => self.set_status(rest)?,
            "error" => {
                let text = self.text(lines, 0)?;
                self.run()?.error = text;
            }
            "print" => {
                let text = self.text(lines, 0)?;
                self.run()?.print = text;
            }
            "output" => {
                let output = self.named_text(rest, lines, 0)?;
                self.run()?.outputs.push(output)?;
            }
            "lines" => {
                let output = self.named_text(rest, lines, 0)?;
                self.run()?.lines.push(output)?;
            }
            "reads" => {
                let names = self.word_lines(lines)?;
                self.run()?.reads = Some(names);
            }
            _ => self.flag(word, rest)?,
        }
        Ok(())
    }

    fn flag(&mut self, word: &str, rest: &str) -> Result<(), Why> {
        let run = self.run()?;
        match word {
            "any" => run.any = true,
            "front" => run.front = true,
            "writes" => run.writes = true,
            "fail-read" => run.failing_read = number_of(rest)?,
            "fail-write" => run.failing_write = number_of(rest)?,
            _ => return Err(Why::Head),
        }
        Ok(())
    }

    fn block(&mut self, block: &Block<'_>) -> Result<(), Why> {
        let lines = block.body.as_slice();
        match block.word {
            "==" => self.begin_case(block.rest),
            "text" => {
                let text = self.named_text(block.rest, lines, 0)?;
                Ok(self.shared.push(text)?)
            }
            "file" => self.add_file(block.rest, lines, 0),
            "files" => self.add_files(block.rest, lines),
            "run" => self.begin_run(Program::Camkes, block.rest),
            "view" => self.begin_run(Program::View, block.rest),
            word => self.demand(word, block.rest, lines),
        }
    }
}

/// The cases of a text, in their order: `docs/testing.md`.
pub fn read_cases(alloc: Global, text: &str) -> Result<Vec<Case>, RowError> {
    let Ok(blocks) = blocks(alloc, text) else {
        return Err(RowError {
            line: 0,
            why: Why::NoMemory,
        });
    };
    let mut reader = Reader::new(alloc);
    for block in blocks.as_slice() {
        if let Err(why) = reader.block(block) {
            return Err(RowError {
                line: block.line,
                why,
            });
        }
    }
    Ok(reader.cases)
}
