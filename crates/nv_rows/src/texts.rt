// Texts with names, and what a `$` stands for.
use crate::fault::RowFault;
use nv_bytes::{cut, decimal, unhex};
use std::alloc::Global;

#[derive(Drop)]
struct Named {
    name: Vec<u8>,
    content: Vec<u8>,
}

// What a `$` stands for.
#[derive(Clone, Copy)]
enum Escape<'a> {
    /// `$n`.
    Newline,
    /// `$#`.
    Count,
    /// `$xHH`, by its two digits.
    Byte(&'a [u8]),
    /// `$[NAME]`.
    Named(&'a [u8]),
}

/// Texts with names. A name stands once.
#[derive(Drop)]
pub struct Texts {
    alloc: Global,
    texts: Vec<Named>,
}

impl Texts {
    pub fn new(alloc: Global) -> Self {
        Texts {
            alloc,
            texts: Vec::new(alloc),
        }
    }

    pub fn alloc(&self) -> Global {
        self.alloc
    }

    pub fn len(&self) -> usize {
        self.texts.len()
    }

    /// Forgets all but the first ones.
    pub fn truncate(&mut self, count: usize) {
        self.texts.truncate(count);
    }

    fn knows(&self, name: &[u8]) -> bool {
        self.find(name).is_some()
    }

    pub fn define(&mut self, name: &[u8], content: Vec<u8>) -> Result<(), RowFault> {
        if self.knows(name) {
            return Err(RowFault::Twice);
        }
        let name = name.to_vec(self.alloc)?;
        self.texts.push(Named { name, content })?;
        Ok(())
    }

    fn find(&self, name: &[u8]) -> Option<&[u8]> {
        let found = self.texts.iter().find(|text| text.name.as_slice() == name);
        found.map(|text| text.content.as_slice())
    }

    fn put_named(&self, name: &[u8], out: &mut Vec<u8>) -> Result<(), RowFault> {
        match self.find(name) {
            Some(content) => Ok(out.extend_from_slice(content)?),
            None => Err(RowFault::Name),
        }
    }

    // Puts out the byte of two digits.
    fn put_byte(&self, digits: &[u8], out: &mut Vec<u8>) -> Result<(), RowFault> {
        match unhex(self.alloc, digits)? {
            Some(bytes) => Ok(out.extend_from_slice(&bytes)?),
            None => Err(RowFault::Escape),
        }
    }

    // Puts out what an escape stands for.
    fn put_escape(
        &self,
        escape: Escape<'_>,
        count: u32,
        out: &mut Vec<u8>,
    ) -> Result<(), RowFault> {
        match escape {
            Escape::Newline => Ok(out.push(b'\n')?),
            Escape::Count => put_decimal(count, out),
            Escape::Byte(digits) => self.put_byte(digits, out),
            Escape::Named(name) => self.put_named(name, out),
        }
    }

    // Puts out what a `$` before these bytes stands for, and what comes after it.
    fn put_part(&self, part: &[u8], count: u32, out: &mut Vec<u8>) -> Result<(), RowFault> {
        match escape_of(part) {
            Some((escape, plain)) => {
                self.put_escape(escape, count, out)?;
                Ok(out.extend_from_slice(plain)?)
            }
            None => Err(RowFault::Escape),
        }
    }

    /// Puts out a text: `$n` in it is a newline, `$xHH` a byte, `$[NAME]` the text of this name, and `$#` the count.
    pub fn put(&self, text: &[u8], count: u32, out: &mut Vec<u8>) -> Result<(), RowFault> {
        let (plain, rest) = cut(text, b'$');
        out.extend_from_slice(plain)?;
        match rest {
            Some(rest) => self.put_parts(rest, count, out),
            None => Ok(()),
        }
    }

    // Puts out what stands after the first `$` of a text.
    fn put_parts(&self, rest: &[u8], count: u32, out: &mut Vec<u8>) -> Result<(), RowFault> {
        for part in rest.split(|byte| *byte == b'$') {
            self.put_part(part, count, out)?;
        }
        Ok(())
    }

    /// What the text stands for.
    pub fn expanded(&self, text: &[u8]) -> Result<Vec<u8>, RowFault> {
        let mut out = Vec::new(self.alloc);
        self.put(text, 0, &mut out)?;
        Ok(out)
    }
}

// What a `$` before these bytes stands for, and the bytes after it.
fn escape_of(part: &[u8]) -> Option<(Escape<'_>, &[u8])> {
    match part {
        [b'n', rest @ ..] => Some((Escape::Newline, rest)),
        [b'#', rest @ ..] => Some((Escape::Count, rest)),
        [b'x', rest @ ..] => {
            let (digits, rest) = rest.split_at_checked(2)?;
            Some((Escape::Byte(digits), rest))
        }
        [b'[', rest @ ..] => {
            let (name, rest) = cut(rest, b']');
            Some((Escape::Named(name), rest?))
        }
        _ => None,
    }
}

fn put_decimal(count: u32, out: &mut Vec<u8>) -> Result<(), RowFault> {
    let mut digits = [0; 20];
    let len = decimal(u64::from(count), &mut digits);
    out.extend_from_slice(digits.get(..len).unwrap_or(&[]))?;
    Ok(())
}
