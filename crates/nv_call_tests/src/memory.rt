use nv_memory::{Access, Memory, Region, Right, Width};
use std::test::Fail;

const WHOLE: Region = Region {
    start: 16,
    end: 32,
    read: true,
    write: true,
    execute: false,
};

// Fields in little-endian order, in a region that may be read and written.
#[test]
fn fields_of_a_region(rt: HostRuntime) -> Result<(), Fail> {
    let mut memory = Memory::make(rt.alloc(), 64, vec![in rt.alloc(); WHOLE]?)?;
    memory.fill(16, &[0x11, 0x22, 0x33, 0x84]);
    for (address, width, value) in [
        (16, Width::Four, 0x8433_2211),
        (18, Width::Two, 0x8433),
        (19, Width::One, 0x84),
    ] {
        assert_eq!(rt; memory.load(address, width), Ok(value));
    }
    assert_eq!(rt; memory.fetch(16), Err(Access(16)));
    Ok(())
}

#[test]
fn bytes_of_a_field(rt: HostRuntime) -> Result<(), Fail> {
    let mut memory = Memory::make(rt.alloc(), 64, vec![in rt.alloc(); WHOLE]?)?;
    assert_eq!(rt; memory.store(29, Width::Four, 1), Err(Access(29)));
    assert_eq!(rt; memory.store(28, Width::Four, 0x0403_0201), Ok(()));
    let mut four = [0; 4];
    assert_eq!(rt; memory.copy_in(28, &mut four), Ok(()));
    assert_eq!(rt; four, [1, 2, 3, 4]);
    Ok(())
}

// Bytes that a region leaves are 0 when it takes them again.
#[test]
fn bytes_that_a_region_leaves(rt: HostRuntime) -> Result<(), Fail> {
    let mut memory = Memory::make(rt.alloc(), 64, vec![in rt.alloc(); WHOLE]?)?;
    assert_eq!(rt; memory.copy_out(16, &[0x11, 7, 8, 0x84]), Ok(()));
    memory.resize(0, 18);
    assert!(rt; !memory.holds(17, 2, Right::Read));
    memory.resize(0, 32);
    assert_eq!(rt; memory.load(16, Width::Four), Ok(0x0000_0711));
    Ok(())
}

const EMPTY: Region = Region {
    start: 20,
    end: 20,
    ..WHOLE
};

// A region that covers no address may stand inside another.
#[test]
fn regions_without_addresses(rt: HostRuntime) -> Result<(), Fail> {
    let turned = Region {
        start: 48,
        end: 24,
        ..WHOLE
    };
    let regions = vec![in rt.alloc(); WHOLE, EMPTY, turned]?;
    let mut memory = Memory::make(rt.alloc(), 64, regions)?;
    memory.fill(16, &[1, 2, 3, 4, 5, 6, 7, 8]);
    assert_eq!(rt; memory.load(18, Width::Four), Ok(0x0605_0403));
    assert!(rt; !memory.holds(48, 1, Right::Read));
    Ok(())
}

// An end may pass a region that covers no address.
#[test]
fn end_after_an_empty_region(rt: HostRuntime) -> Result<(), Fail> {
    let mut memory = Memory::make(rt.alloc(), 64, vec![in rt.alloc(); WHOLE, EMPTY]?)?;
    memory.fill(16, &[1, 2, 3, 4, 5, 6, 7, 8]);
    memory.resize(0, 40);
    assert_eq!(rt; memory.load(20, Width::Four), Ok(0x0807_0605));
    assert!(rt; memory.holds(36, 4, Right::Write));
    Ok(())
}
