use nv_script::ScriptCause::Shape;
use nv_script::{ScriptFault, read};
use std::test::Fail;

// Four million bytes in 600,000 lines.
#[test]
fn long_script(rt: HostRuntime) -> Result<(), Fail> {
    let mut text = String::from_str(rt.alloc(), "varan-script 1\n")?;
    for _ in 0..600_000u32 {
        text.push_str("line a\n")?;
    }
    text.push_str("line")?;
    assert_eq!(rt;
        read(rt.alloc(), text.as_bytes()).err(),
        Some(ScriptFault::Line(600_002, Shape))
    );
    Ok(())
}
