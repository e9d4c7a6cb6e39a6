// Values from outside.
use nv_bytes::{decimal, hex_pair, number, unhex};
use std::alloc::Global;
use std::test::Fail;

#[test]
fn numbers(rt: HostRuntime) {
    let table: [(&[u8], Option<u32>); 12] = [
        (b"", None),
        (b"0", Some(0)),
        (b"000", Some(0)),
        (b"0042", Some(42)),
        (b"4294967295", Some(4_294_967_295)),
        (b"00000000004294967295", Some(4_294_967_295)),
        (b"4294967296", None),
        (b"99999999999999999999999999", None),
        (b"+1", None),
        (b"-1", None),
        (b"12 ", None),
        (b"0x1f", None),
    ];
    for (text, want) in table {
        assert!(rt; number(text) == want, "{text:?}");
    }
}

// Whether a text has these bytes.
fn unhexes(alloc: Global, text: &[u8], want: Option<&[u8]>) -> Result<bool, Fail> {
    let bytes = unhex(alloc, text)?;
    Ok(match (bytes, want) {
        (None, None) => true,
        (Some(bytes), Some(want)) => bytes.as_slice() == want,
        _ => false,
    })
}

#[test]
fn hexadecimal(rt: HostRuntime) -> Result<(), Fail> {
    let table: [(&[u8], Option<&[u8]>); 7] = [
        (b"", Some(b"")),
        (b"00ff68690A", Some(b"\x00\xffhi\n")),
        (b"aBCdEf", Some(b"\xab\xcd\xef")),
        (b"0", None),
        (b"00f", None),
        (b"0g", None),
        (b"0x10", None),
    ];
    for (text, want) in table {
        assert!(rt; unhexes(rt.alloc(), text, want)?, "{text:?}");
    }
    for (byte, digits) in [(0, *b"00"), (0x9f, *b"9f"), (0xa0, *b"a0")] {
        assert_eq!(rt; hex_pair(byte), digits);
    }
    Ok(())
}

#[test]
fn decimals(rt: HostRuntime) {
    let table: [(u64, &[u8]); 7] = [
        (0, b"0"),
        (9, b"9"),
        (10, b"10"),
        (4_294_967_296, b"4294967296"),
        (10_000_000_000_000_000_000, b"10000000000000000000"),
        (9_999_999_999_999_999_999, b"9999999999999999999"),
        (u64::MAX, b"18446744073709551615"),
    ];
    for (value, want) in table {
        let mut out = [b'.'; 20];
        let len = decimal(value, &mut out);
        assert!(rt; out.get(..len) == Some(want), "{value}");
        assert!(rt; len == 20 || out[19] == b'.', "{value}");
    }
}
