// The entries of a file: texts with names, and rows.
use crate::content::is_content;
use nv_bytes::{Lines, split_field};
use std::alloc::{AllocError, Global};

/// A field, and the lines of content after it.
#[derive(Drop)]
pub struct Field<'a> {
    pub word: &'a [u8],
    /// What stands after the word.
    pub rest: &'a [u8],
    pub content: Vec<&'a [u8]>,
}

impl<'a> Field<'a> {
    fn new(alloc: Global, line: &'a [u8]) -> Self {
        let (word, rest) = split_field(line);
        Field {
            word,
            rest: rest.unwrap_or(&[]),
            content: Vec::new(alloc),
        }
    }
}

/// A line that begins an entry, and the fields after it.
#[derive(Drop)]
pub struct Entry<'a> {
    pub head: Field<'a>,
    pub fields: Vec<Field<'a>>,
}

impl<'a> Entry<'a> {
    fn new(alloc: Global, line: &'a [u8]) -> Self {
        Entry {
            head: Field::new(alloc, line),
            fields: Vec::new(alloc),
        }
    }

    fn add_content(&mut self, line: &'a [u8]) -> Result<(), AllocError> {
        match self.fields.last_mut() {
            Some(field) => field.content.push(line)?,
            None => self.head.content.push(line)?,
        }
        Ok(())
    }

    fn add(&mut self, alloc: Global, line: &'a [u8]) -> Result<(), AllocError> {
        if is_content(line) {
            return self.add_content(line);
        }
        Ok(self.fields.push(Field::new(alloc, line))?)
    }
}

fn is_head(line: &[u8]) -> bool {
    matches!(split_field(line).0, b"row" | b"text")
}

fn is_comment(line: &[u8]) -> bool {
    matches!(line, [] | [b'#', ..])
}

/// The entries of a file, without its comments and empty lines.
pub fn entries<'a>(alloc: Global, file: &'a [u8]) -> Result<Vec<Entry<'a>>, AllocError> {
    let mut entries: Vec<Entry<'a>> = Vec::new(alloc);
    for (_, line) in Lines::of(file) {
        if is_comment(line) {
            continue;
        }
        match entries.last_mut() {
            Some(entry) if !is_head(line) => entry.add(alloc, line)?,
            _ => entries.push(Entry::new(alloc, line))?,
        }
    }
    Ok(entries)
}
