use nv_fs::FileSystem;
use std::alloc::{AllocError, Global};
use std::process::Abort;
use std::test::Fail;

// No call has this result.
const NO_MEMORY: i32 = i32::MAX;

fn write(files: &mut FileSystem, fd: u32, bytes: &[u8]) -> Result<i32, AllocError> {
    let Ok(count) = u32::try_from(bytes.len()) else {
        return Ok(NO_MEMORY);
    };
    files.reserve_write(fd, count)?;
    Ok(files.write(fd, bytes))
}

// What stands on the console after writes through all of its numbers, where the last but one writes nothing.
fn filled<R: Abort>(
    rt: &R,
    alloc: Global,
    polls: bool,
    results: [i32; 5],
) -> Result<FileSystem, AllocError> {
    let listed = Vec::new(alloc);
    let mut files = FileSystem::make(alloc, polls, &Vec::new(alloc), &listed)?;
    let most = vec![in alloc; b'a'; 16_777_210]?;
    assert_eq!(rt; files.dup(2), 3);
    let table: [(u32, &[u8]); 5] = [
        (1, &most),
        (2, b"bcdefghijk"),
        (1, b"x"),
        (2, b""),
        (3, b"x"),
    ];
    for i in 0..5 {
        let (fd, bytes) = table[i];
        assert_eq!(rt; write(&mut files, fd, bytes)?, results[i]);
    }
    Ok(files)
}

// By the first four forms of scripts the console takes 16,777,216 bytes, of which the last of a write have no room; by the fifth it takes more.
#[test]
fn full_console(rt: HostRuntime) -> Result<(), Fail> {
    let alloc = rt.alloc();
    let files = filled(&rt, alloc, false, [16_777_210, 6, -28, 0, -28])?;
    assert!(rt; files.console().ends_with(b"aabcdefg"));
    assert_eq!(rt; files.console().len(), 16_777_216);
    let files = filled(&rt, alloc, true, [16_777_210, 10, 1, 0, 1])?;
    assert!(rt; files.console().ends_with(b"aabcdefghijkxx"));
    assert_eq!(rt; files.console().len(), 16_777_222);
    Ok(())
}

// What is let go counts all the same, and what is written after it is there.
#[test]
fn console_let_go(rt: HostRuntime) -> Result<(), Fail> {
    let alloc = rt.alloc();
    let mut files = filled(&rt, alloc, false, [16_777_210, 6, -28, 0, -28])?;
    files.let_console_go();
    assert!(rt; files.console().is_empty());
    assert_eq!(rt; files.printed(), 16_777_216);
    assert_eq!(rt; write(&mut files, 1, b"x")?, -28);
    Ok(())
}
