use crate::refusing::RefusingKernel;
use crate::runs::kernel;
use nv_calls::{Bytes, Call, SyscallKernel, shaped};
use nv_kernel::ScriptKernel;
use std::alloc::{AllocError, Global};
use std::test::Fail;

// A call getuid of the first thread.
fn getuid(alloc: Global) -> Result<Call, AllocError> {
    Ok(Call {
        tid: 100,
        nr: 174,
        args: [0; 6],
        bad: false,
        payload: Bytes::make(alloc, 0)?,
    })
}

// A kernel that is refused the reservations with these numbers, over one that is refused those with the others.
fn twice_refused(
    alloc: Global,
    inner: &[u32],
    outer: &[u32],
) -> Option<RefusingKernel<RefusingKernel<ScriptKernel>>> {
    let inner = RefusingKernel::make(kernel(alloc)?, inner.to_vec(alloc).ok()?);
    Some(RefusingKernel::make(inner, outer.to_vec(alloc).ok()?))
}

// Whether a reservation for the call is refused; one for a call that no guest makes is.
fn is_refused<K: SyscallKernel>(kernel: &mut K, call: &Call) -> bool {
    !shaped(call) || kernel.reserve(call).is_err()
}

// Of eight reservations the outer kernel refuses those with its own numbers, without asking the inner one, and of the
// others just those that the inner one refuses, which counts the six that it is asked.
#[test]
fn refuses_by_its_numbers_and_as_the_kernel_below(rt: HostRuntime) -> Result<(), Fail> {
    let alloc = rt.alloc();
    let call = getuid(alloc)?;
    let mut kernel = twice_refused(alloc, &[2, 3], &[0, 4]).ok_or("a kernel")?;
    for (number, refused) in [true, false, false, true, true, true, false, false]
        .iter()
        .enumerate()
    {
        assert_eq!(rt;
            is_refused(&mut kernel, &call),
            *refused,
            "reservation {number}"
        );
    }
    assert_eq!(rt; kernel.asked(), 8);
    assert_eq!(rt; kernel.inner().asked(), 6);
    Ok(())
}
