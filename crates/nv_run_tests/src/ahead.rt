// A version goes on towards its next call before it is known which call that has to be. No report shows it, since nothing of a run depends on it.
use crate::runs::version;
use std::test::Fail;

// 4,002 instructions, and then getuid.
const COUNTS: &str =
    ".text\nli t0, 2000\nmore: addi t0, t0, -1\nbne t0, zero, more\nli a7, 174\necall\n";

#[test]
fn version_goes_ahead_up_to_its_call(rt: HostRuntime) -> Result<(), Fail> {
    let mut version = version(rt.alloc(), 0, COUNTS, true).ok_or("a version that counts")?;
    assert!(rt; version.run_ahead(1));
    assert!(rt; version.run_ahead(1));
    assert!(rt; !version.run_ahead(100));
    Ok(())
}
