// A row in the making.
use crate::content::{content_of, hex_of};
use crate::entry::Field;
use crate::fault::RowFault;
use crate::row::{Change, Kind, Row, RowFile, Wanted};
use crate::texts::Texts;
use nv_bytes::{number, split_field};
use std::alloc::Global;

// How many bytes a sink takes a write where a row says nothing.
const USUAL_TAKES: usize = 4096;

/// What the fields so far say.
#[derive(Drop)]
pub struct Draft {
    row: Row,
    has_words: bool,
    has_status: bool,
}

impl Draft {
    pub fn new(alloc: Global, name: String) -> Self {
        let row = Row {
            name,
            words: Vec::new(alloc),
            files: Vec::new(alloc),
            failing_reads: Vec::new(alloc),
            takes: USUAL_TAKES,
            failing_writes: Vec::new(alloc),
            input: Vec::new(alloc),
            failing_says: Vec::new(alloc),
            failing_notes: Vec::new(alloc),
            meets: None,
            is_once: false,
            each_write_fails: false,
            status: 0,
            wanted: Wanted {
                whole: None,
                begin: Vec::new(alloc),
                end: Vec::new(alloc),
                said: Vec::new(alloc),
                noted: Vec::new(alloc),
            },
        };
        Draft {
            row,
            has_words: false,
            has_status: false,
        }
    }

    /// The row, if nothing is missing.
    pub fn finish(self) -> Result<Row, RowFault> {
        if self.has_words && self.has_status {
            return Ok(self.row);
        }
        Err(RowFault::Missing)
    }

    /// Takes a field with what stands after its word.
    pub fn take(&mut self, texts: &Texts, field: &Field) -> Result<(), RowFault> {
        let rest = texts.expanded(field.rest)?;
        let is_taken = self.take_content(texts, field, &rest)?;
        if is_taken {
            return Ok(());
        }
        if !field.content.is_empty() {
            return Err(RowFault::Line);
        }
        self.take_line(texts, field.word, &rest)
    }

    // Takes a field that has content, if it is one.
    fn take_content(
        &mut self,
        texts: &Texts,
        field: &Field,
        rest: &[u8],
    ) -> Result<bool, RowFault> {
        match kind_of(field.word) {
            Some(kind) => {
                self.add_file(texts, kind, field, rest)?;
                Ok(true)
            }
            None => self.take_stream(texts, field),
        }
    }

    // Takes a field of what one read of a live run gives, or of what has to be written, if it is one.
    fn take_stream(&mut self, texts: &Texts, field: &Field) -> Result<bool, RowFault> {
        match field.word {
            b"in" => {
                let bytes = content_of(texts, &field.content)?;
                self.row.input.push(bytes)?;
                Ok(true)
            }
            _ => self.take_output(texts, field),
        }
    }

    // Takes a field that says what has to be written, if it is one.
    fn take_output(&mut self, texts: &Texts, field: &Field) -> Result<bool, RowFault> {
        match field.word {
            b"out" => self.row.wanted.whole = Some(content_of(texts, &field.content)?),
            b"begins" => self.row.wanted.begin = content_of(texts, &field.content)?,
            b"ends" => self.row.wanted.end = content_of(texts, &field.content)?,
            b"said" => self.row.wanted.said = content_of(texts, &field.content)?,
            b"noted" => self.row.wanted.noted = content_of(texts, &field.content)?,
            _ => return Ok(false),
        }
        Ok(true)
    }

    fn add_file(
        &mut self,
        texts: &Texts,
        kind: Kind,
        field: &Field,
        name: &[u8],
    ) -> Result<(), RowFault> {
        let file = RowFile {
            name: text_of(texts.alloc(), name)?,
            kind,
            content: content_of(texts, &field.content)?,
            changes: Vec::new(texts.alloc()),
        };
        Ok(self.row.files.push(file)?)
    }

    // Takes a field that is one line.
    fn take_line(&mut self, texts: &Texts, word: &[u8], rest: &[u8]) -> Result<(), RowFault> {
        let alloc = texts.alloc();
        match word {
            b"words" => {
                self.row.words = words_of(alloc, rest)?;
                self.has_words = true;
            }
            b"status" => {
                self.row.status = status_of(rest)?;
                self.has_status = true;
            }
            b"set" | b"cut" => self.add_change(texts, word, rest)?,
            _ => self.take_outside(alloc, word, rest)?,
        }
        Ok(())
    }

    // Takes a line on what the call finds outside.
    fn take_outside(&mut self, alloc: Global, word: &[u8], rest: &[u8]) -> Result<(), RowFault> {
        match word {
            b"failing-reads" => self.row.failing_reads = numbers_of(alloc, rest)?,
            b"failing-writes" => self.row.failing_writes = numbers_of(alloc, rest)?,
            b"says-fail" => self.row.failing_says = numbers_of(alloc, rest)?,
            b"notes-fail" => self.row.failing_notes = numbers_of(alloc, rest)?,
            b"takes" => self.row.takes = takes_of(rest)?,
            b"meets" => self.row.meets = Some(number(rest).ok_or(RowFault::Number)?),
            b"once" => self.row.is_once = true,
            b"each-write-fails" => self.row.each_write_fails = true,
            _ => return Err(RowFault::Line),
        }
        Ok(())
    }

    // Changes the file whose name comes first.
    fn add_change(&mut self, texts: &Texts, word: &[u8], rest: &[u8]) -> Result<(), RowFault> {
        let (name, rest) = split_field(rest);
        let change = change_of(texts, word, rest.unwrap_or(&[]))?;
        for file in self.row.files.iter_mut() {
            if file.name.as_bytes() == name {
                return Ok(file.changes.push(change)?);
            }
        }
        Err(RowFault::Name)
    }
}

// How a field's file comes from its bytes, if it is one of a file.
fn kind_of(word: &[u8]) -> Option<Kind> {
    match word {
        b"file" => Some(Kind::Plain),
        b"code" => Some(Kind::Code),
        b"asm" => Some(Kind::Assembler),
        b"rules" => Some(Kind::Rules),
        _ => None,
    }
}

/// These bytes as a text.
pub fn str_of(bytes: &[u8]) -> Result<&str, RowFault> {
    match str::from_utf8(bytes) {
        Ok(text) => Ok(text),
        Err(_) => Err(RowFault::Name),
    }
}

/// The text of these bytes.
pub fn text_of(alloc: Global, bytes: &[u8]) -> Result<String, RowFault> {
    let text = str_of(bytes)?;
    Ok(String::from_str(alloc, text)?)
}

// Words with spaces between them; none in an empty text.
fn words_of(alloc: Global, text: &[u8]) -> Result<Vec<String>, RowFault> {
    let mut words = Vec::new(alloc);
    if text.is_empty() {
        return Ok(words);
    }
    for word in text.split(|byte| *byte == b' ') {
        words.push(text_of(alloc, word)?)?;
    }
    Ok(words)
}

fn numbers_of(alloc: Global, text: &[u8]) -> Result<Vec<u32>, RowFault> {
    let mut numbers = Vec::new(alloc);
    for digits in text.split(|byte| *byte == b' ') {
        numbers.push(number(digits).ok_or(RowFault::Number)?)?;
    }
    Ok(numbers)
}

fn size_of(digits: &[u8]) -> Result<usize, RowFault> {
    match number(digits) {
        Some(size) => Ok(size as usize),
        None => Err(RowFault::Number),
    }
}

fn takes_of(digits: &[u8]) -> Result<usize, RowFault> {
    match size_of(digits)? {
        0 => Err(RowFault::Number),
        takes => Ok(takes),
    }
}

fn status_of(digits: &[u8]) -> Result<u8, RowFault> {
    let status = number(digits).ok_or(RowFault::Number)?;
    u8::try_from(status).map_err(|_| RowFault::Number)
}

fn change_of(texts: &Texts, word: &[u8], rest: &[u8]) -> Result<Change, RowFault> {
    match word {
        b"set" => set_of(texts, rest),
        _ => Ok(Change::Cut(size_of(rest)?)),
    }
}

// A place, and the hexadecimal digits of the bytes that stand there.
fn set_of(texts: &Texts, text: &[u8]) -> Result<Change, RowFault> {
    let (place, digits) = split_field(text);
    let bytes = hex_of(texts, digits.unwrap_or(&[]))?;
    Ok(Change::Set(size_of(place)?, bytes))
}
