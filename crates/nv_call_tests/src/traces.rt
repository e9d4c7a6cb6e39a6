// Traces by their bytes.
use nv_kernel::ScriptKernel;
use nv_outside::MemorySink;
use nv_trace::{CheckFault, TraceFault, check, read, write};
use std::alloc::{AllocError, Global};
use std::test::Fail;

// A guest writes "hi" and a newline to descriptor 1, and exits.
const HELLO: &[u8] =
    b"VARANTR1\x02\0\0\0d\0\0\0@\0\0\0\x01\0\0\0\0\0\0\0\x03\0\0\0\0\0\0\0\0\0\0\0\0\0\0\0\0\0\0\0\x03\0\0\0\x03\0\0\0\0\0\0\0hi\nd\0\0\0^\0\0\0\0\0\0\0\0\0\0\0\0\0\0\0\0\0\0\0\0\0\0\0\0\0\0\0\0\0\0\0\0\0\0\0\0\0\0\0\0\0\0\0";

fn changed(alloc: Global, place: usize, byte: u8) -> Result<Vec<u8>, AllocError> {
    let mut bytes = Vec::from_slice(alloc, HELLO)?;
    if place < bytes.len() {
        bytes[place] = byte;
    }
    Ok(bytes)
}

fn fault_of(alloc: Global, bytes: &[u8]) -> Option<TraceFault> {
    read(alloc, bytes).err()
}

fn cut(alloc: Global, len: usize) -> Option<TraceFault> {
    fault_of(alloc, &HELLO[..len.min(111)])
}

#[test]
fn read_faults(rt: HostRuntime) -> Result<(), Fail> {
    let alloc = rt.alloc();
    for (len, want) in [
        (111, None),
        (110, Some(TraceFault::Short(1))),
        (62, Some(TraceFault::Short(0))),
        (59, Some(TraceFault::Short(0))),
        (12, Some(TraceFault::Short(0))),
        (11, Some(TraceFault::Magic)),
        (0, Some(TraceFault::Magic)),
    ] {
        assert_eq!(rt; cut(alloc, len), want, "{len} bytes");
    }
    for (place, byte, want) in [
        (0, b'v', TraceFault::Magic),
        (7, b'2', TraceFault::Magic),
        (10, 3, TraceFault::Count),
        (44, 2, TraceFault::Field(0)),
        (107, 1, TraceFault::Short(1)),
        (57, 16, TraceFault::Field(0)),
        (106, 255, TraceFault::Field(1)),
        (8, 1, TraceFault::Extra),
        (8, 3, TraceFault::Short(2)),
    ] {
        let bytes = changed(alloc, place, byte)?;
        assert_eq!(rt; fault_of(alloc, &bytes), Some(want), "at {place}");
    }
    Ok(())
}

#[test]
fn written_as_read(rt: HostRuntime) -> Result<(), Fail> {
    let alloc = rt.alloc();
    let Ok(events) = read(alloc, HELLO) else {
        assert!(rt; false);
        return Ok(());
    };
    assert_eq!(rt; events.len(), 2);
    let mut sink = MemorySink::make(alloc, 200, 7, Vec::new(alloc))?;
    assert!(rt; write(&mut sink, &events).is_ok());
    assert!(rt; sink.written() == HELLO);
    Ok(())
}

fn check_fault(alloc: Global, bytes: &[u8]) -> Result<Option<CheckFault>, AllocError> {
    let Ok(events) = read(alloc, bytes) else {
        return Ok(None);
    };
    let Ok(script) = nv_script::read(alloc, b"varan-script 1") else {
        return Ok(None);
    };
    let mut kernel = ScriptKernel::make(alloc, &script)?;
    Ok(check(&mut kernel, &events).err())
}

#[test]
fn check_faults(rt: HostRuntime) -> Result<(), Fail> {
    let alloc = rt.alloc();
    assert_eq!(rt; check_fault(alloc, HELLO)?, None);
    for (place, byte, want) in [
        (48, 4, CheckFault::Reply(0)),
        (24, 1, CheckFault::Shape(0)),
        (28, 4, CheckFault::Shape(0)),
        (12, 101, CheckFault::Thread(0)),
        (63, 101, CheckFault::Thread(1)),
        (16, 63, CheckFault::Shape(0)),
    ] {
        let bytes = changed(alloc, place, byte)?;
        assert_eq!(rt; check_fault(alloc, &bytes)?, Some(want), "at {place}");
    }
    Ok(())
}

// Another call after the last one.
#[test]
fn goes_on_after_the_end(rt: HostRuntime) -> Result<(), Fail> {
    let alloc = rt.alloc();
    let mut twice = Vec::from_slice(alloc, HELLO)?;
    twice.extend_from_slice(&HELLO[63..])?;
    if twice.len() > 8 {
        twice[8] = 3;
    }
    assert_eq!(rt; check_fault(alloc, &twice)?, Some(CheckFault::Ended(2)));
    Ok(())
}
