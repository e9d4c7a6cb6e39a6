// Texts of four million bytes, each answered in time in step with its length.
use nv_asm::{AsmCause, AsmFault, assemble};
use std::alloc::Global;
use std::test::Fail;

// A text of so many repetitions of a part after a prefix.
fn repeated(alloc: Global, prefix: &str, part: &str, count: u32) -> Result<String, Fail> {
    let mut text = String::from_str(alloc, prefix)?;
    for _ in 0..count {
        text.push_str(part)?;
    }
    Ok(text)
}

// A text of so many labels, all different.
fn of_labels(alloc: Global, count: u32) -> Result<String, Fail> {
    let mut text = String::new(alloc);
    for i in 0..count {
        write!(text, "l{i}:\n")?;
    }
    Ok(text)
}

// Whether a text has this fault.
fn has_fault(alloc: Global, text: &str, line: u32, cause: AsmCause) -> bool {
    assemble(alloc, text.as_bytes()).err() == Some(AsmFault::Line(line, cause))
}

// About 4,194,304 bytes each.
#[test]
fn one_word(rt: HostRuntime) -> Result<(), Fail> {
    let text = repeated(rt.alloc(), "", "aaaa", 1_048_576)?;
    assert!(rt; has_fault(rt.alloc(), &text, 1, AsmCause::Mnemonic));
    Ok(())
}

#[test]
fn commas(rt: HostRuntime) -> Result<(), Fail> {
    let text = repeated(rt.alloc(), ".word ", ",,,,", 1_048_576)?;
    assert!(rt; has_fault(rt.alloc(), &text, 1, AsmCause::Operand));
    Ok(())
}

#[test]
fn one_line(rt: HostRuntime) -> Result<(), Fail> {
    let text = repeated(rt.alloc(), ".byte 0", ",1", 2_097_149)?;
    assert!(rt; has_fault(rt.alloc(), &text, 1, AsmCause::Range));
    Ok(())
}

#[test]
fn lines(rt: HostRuntime) -> Result<(), Fail> {
    let text = repeated(rt.alloc(), "nop\n", "a:\n", 1_398_100)?;
    assert!(rt; has_fault(rt.alloc(), &text, 3, AsmCause::Twice));
    Ok(())
}

#[test]
fn labels(rt: HostRuntime) -> Result<(), Fail> {
    let text = of_labels(rt.alloc(), 478_379)?;
    assert!(rt; has_fault(rt.alloc(), &text, 1, AsmCause::Range));
    Ok(())
}
