// What the definitions don't say of themselves: versions that were worked out by hand. The line of such a run is a row.
use nv_gen::make;
use std::test::Fail;

// addi a0, x0, 1; lui a1, 0x10; addi a2, x0, 8; addi a7, x0, 64; ecall.
const WRITE_OF_8: [u8; 20] = [
    0x13, 0x05, 0x10, 0x00, 0xb7, 0x05, 0x01, 0x00, 0x13, 0x06, 0x80, 0x00, 0x93, 0x08, 0x00, 0x04,
    0x73, 0x00, 0x00, 0x00,
];

// addi a7, x0, 174; ecall.
const GETUID: [u8; 8] = [0x93, 0x08, 0xe0, 0x0a, 0x73, 0x00, 0x00, 0x00];

const EBREAK: [u8; 4] = [0x73, 0x00, 0x10, 0x00];

// addi a0, x0, 0; addi a7, x0, 94; ecall.
const EXIT: [u8; 12] = [
    0x13, 0x05, 0x00, 0x00, 0x93, 0x08, 0xe0, 0x05, 0x73, 0x00, 0x00, 0x00,
];

// Where the code of a file with one segment begins, after the bytes to write.
const CODE: usize = 84 + 64;

#[test]
fn seven_makes_three_versions(rt: HostRuntime) -> Result<(), Fail> {
    let made = make(rt.alloc(), 7)?;
    let [first, second, third] = made.versions.as_slice() else {
        return Err(Fail::from("not three"));
    };
    // 335, 671 and 1007 writes; 41 and 62 multiples of 16
    let table: [(&[u8], usize, &[u8]); 3] = [
        (first, 335 * 20 + 4, &EBREAK),
        (second, 671 * 20 + 41 * 8 + 4, &EBREAK),
        (third, 1007 * 20 + 62 * 8 + 12, &EXIT),
    ];
    for (version, len, end) in table {
        assert_eq!(rt; version.len(), CODE + len);
        assert!(rt; version.ends_with(end));
    }
    assert_eq!(rt; first.get(84..CODE), Some([b'h'; 64].as_slice()));
    assert_eq!(rt; first.get(CODE..CODE + 20), Some(WRITE_OF_8.as_slice()));
    assert_eq!(rt;
        second.get(CODE + 15 * 20..CODE + 15 * 20 + 8),
        Some(GETUID.as_slice())
    );
    assert_eq!(rt; made.script.as_slice(), b"varan-script 1\n".as_slice());
    let rules = b"6\n32 0 0 64\n21 0 3 64\n32 0 0 0\n21 0 1 174\n6 0 0 2147418112\n6 0 0 0\n";
    assert_eq!(rt; made.rules.as_slice(), rules.as_slice());
    Ok(())
}
