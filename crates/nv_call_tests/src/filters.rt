use nv_bpf::{read, write};
use std::test::Fail;

// Each accepted text with the text that is written of it: without leading zeros, with a last newline, and all else kept.
#[test]
fn accepted_texts(rt: HostRuntime) -> Result<(), Fail> {
    for (text, want) in [
        ("1\n6 0 0 0\n", "1\n6 0 0 0\n"),
        ("01\n06 000 0 00", "1\n6 0 0 0\n"),
        ("2\n32 0 0 128\n22 7 9 1\n", "2\n32 0 0 128\n22 7 9 1\n"),
        (
            "3\n5 1 255 1\n96 0 0 15\n6 0 0 4294967295",
            "3\n5 1 255 1\n96 0 0 15\n6 0 0 4294967295\n",
        ),
        (
            "4\n21 1 0 0\n100 0 0 31\n116 0 0 31\n22 0 0 0\n",
            "4\n21 1 0 0\n100 0 0 31\n116 0 0 31\n22 0 0 0\n",
        ),
    ] {
        let filter = read(rt.alloc(), text.as_bytes())?;
        let written = write(rt.alloc(), &filter)?;
        assert_eq!(rt; written.as_slice(), want.as_bytes(), "at {text:?}");
    }
    Ok(())
}
