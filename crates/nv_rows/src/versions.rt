// Version files: of one segment, and by their assembler texts.
use crate::call::{Outside, monitor};
use std::alloc::{AllocError, Global};
use std::sync::Wait;
use std::thread::Threads;

// An ELF header and one program header: a loadable segment at 0x10000, which may be read and executed, with the entry there.
const HEAD: [u8; 68] = [
    0x7f, 0x45, 0x4c, 0x46, 1, 1, 1, 0, 0, 0, 0, 0, 0, 0, 0, 0, 2, 0, 0xf3, 0, 1, 0, 0, 0, 0, 0, 1,
    0, 0x34, 0, 0, 0, 0, 0, 0, 0, 0, 0, 0, 0, 0x34, 0, 0x20, 0, 1, 0, 0, 0, 0, 0, 0, 0, 1, 0, 0, 0,
    0x54, 0, 0, 0, 0, 0, 1, 0, 0, 0, 1, 0,
];

const RIGHTS_AND_ALIGNMENT: [u8; 8] = [5, 0, 0, 0, 4, 0, 0, 0];

/// The version file of these words and of the bytes after them.
pub fn image(alloc: Global, words: &[u32], tail: &[u8]) -> Result<Vec<u8>, AllocError> {
    let mut code = Vec::new(alloc);
    for word in words {
        code.extend_from_slice(&word.to_le_bytes())?;
    }
    code.extend_from_slice(tail)?;
    let size = u32::try_from(code.len()).unwrap_or(u32::MAX).to_le_bytes();
    let mut file = Vec::new(alloc);
    file.extend_from_slice(&HEAD)?;
    file.extend_from_slice(&size)?;
    file.extend_from_slice(&size)?;
    file.extend_from_slice(&RIGHTS_AND_ALIGNMENT)?;
    file.extend_from_slice(&code)?;
    Ok(file)
}

/// The version of an assembler text.
pub fn assembled<R: Threads + Wait + Sync>(
    rt: &R,
    alloc: Global,
    text: &[u8],
) -> Result<Vec<u8>, AllocError> {
    let files = [("a", text)];
    let made = monitor(rt, alloc, &["varan", "asm", "a"], Outside::calm(&files))?;
    Ok(made.written)
}
