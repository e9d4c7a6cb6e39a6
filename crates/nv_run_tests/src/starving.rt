// A version that leads, and finds no memory for its first call: no command line brings that about. The other fates are rows of nv_rows.
use crate::MOST_EVENTS;
use crate::accounts::EXITS;
use crate::runs::{kernel, program, version};
use nv_kernel::ScriptKernel;
use nv_replay::{Account, Led};
use std::alloc::Global;
use std::test::Fail;

fn starved(alloc: Global) -> Option<Account<ScriptKernel>> {
    let text = program(alloc, 1, EXITS).ok()?;
    let mut version = version(alloc, 0, text.as_str(), true)?;
    version.begin_lead();
    let Led::Asked(_) = version.lead(MOST_EVENTS) else {
        return None;
    };
    version.refuse_memory();
    Some(Account {
        kernel: kernel(alloc)?,
        versions: vec![in alloc; version].ok()?,
    })
}

#[test]
fn json_of_want_of_memory(rt: HostRuntime) -> Result<(), Fail> {
    let account = starved(rt.alloc()).ok_or("a version that asks")?;
    let text = nv_report::json(rt.alloc(), &account)?;
    let expected =
        "{\"fates\":[{\"fate\":\"memory\",\"led\":[[0,0]],\"rewrites\":0,\"seen\":0}],\"log\":[],\"output\":\"\"}";
    assert_eq!(rt; text.as_slice(), expected.as_bytes());
    Ok(())
}
