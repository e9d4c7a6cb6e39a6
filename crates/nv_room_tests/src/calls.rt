//! A kernel, and calls of the first thread by Linux's numbers for RISC-V.
ghost use Rattle.std.specs.Prelude.{◌≡◌, ◌≤◌, false, [], IfOk};
ghost use Rattle.nv_calls.specs.Calls.{request};
ghost use Rattle.nv_calls.specs.Numbers.{is_local};
ghost use Rattle.nv_calls.specs.Shapes.{IsShaped};
ghost use Rattle.nv_room_tests.specs.Going.{GoesOn};

use nv_calls::{Bytes, CLONE, Call, EXIT_GROUP, FIRST_THREAD, MOST_BYTES};
use nv_kernel::ScriptKernel;
use std::alloc::{AllocError, Global};

const WRITE: u32 = 64;

const GETUID: u32 = 174;

// CLONE_VM, CLONE_FS, CLONE_FILES, CLONE_SIGHAND and CLONE_THREAD (clone(2)): a thread.
const THREAD: u32 = 0x10F00;

/// A kernel over the script without a line.
pub fn kernel(alloc: Global) -> Result<ScriptKernel, AllocError>
    ensures { IfOk result (λ k. k.log ≡ []) }
{
    match nv_script::read(alloc, b"varan-script 1") {
        Ok(script) => ScriptKernel::make(alloc, &script),
        Err(_) => Err(AllocError),
    }
}

#[tactic(auto, unfolding(nv_calls::specs::Numbers::is_local))]
pub fn getuid(alloc: Global) -> Result<Call, AllocError>
    ensures shaped { IfOk result (λ c. IsShaped (request c)) }
    ensures first { IfOk result (λ c. c.tid ≡ FIRST_THREAD) }
    ensures goes_on { IfOk result (λ c. GoesOn (request c)) }
{
    call(alloc, GETUID)
}

#[tactic(auto, unfolding(nv_calls::specs::Numbers::is_local))]
pub fn exit_group(alloc: Global) -> Result<Call, AllocError>
    ensures shaped { IfOk result (λ c. IsShaped (request c)) }
    ensures first { IfOk result (λ c. c.tid ≡ FIRST_THREAD) }
    ensures ends { IfOk result (λ c. c.nr ≡ EXIT_GROUP) }
{
    call(alloc, EXIT_GROUP)
}

/// The first thread makes another.
pub fn clone(alloc: Global) -> Result<Call, AllocError>
    ensures shaped { IfOk result (λ c. IsShaped (request c)) }
    ensures first { IfOk result (λ c. c.tid ≡ FIRST_THREAD) }
    ensures goes_on { IfOk result (λ c. GoesOn (request c)) }
{
    let payload = Bytes::make(alloc, 0)?;
    Ok(Call {
        tid: FIRST_THREAD,
        nr: CLONE,
        args: [THREAD, 0, 0, 0, 0, 0],
        bad: false,
        payload,
    })
}

/// The call, made by this thread.
pub fn of_thread(call: Call, tid: u32) -> Call
    requires shaped { IsShaped (request call) }
    ensures shaped { IsShaped (request result) }
    ensures thread { result ≡ record call { tid = tid } }
    ensures goes_on { GoesOn (request call) → GoesOn (request result) }
{
    Call { tid, ..call }
}

fn call(alloc: Global, nr: u32) -> Result<Call, AllocError>
    requires logged { is_local nr ≡ false }
    ensures shaped { IfOk result (λ c. IsShaped (request c)) }
    ensures first { IfOk result (λ c. c.tid ≡ FIRST_THREAD) }
    ensures nr { IfOk result (λ c. c.nr ≡ nr) }
{
    let payload = Bytes::make(alloc, 0)?;
    Ok(Call {
        tid: FIRST_THREAD,
        nr,
        args: [0; 6],
        bad: false,
        payload,
    })
}

/// Writes so many zeros to the console.
pub fn write(alloc: Global, bytes: u32) -> Result<Call, AllocError>
    requires { bytes ≤ MOST_BYTES }
    ensures shaped { IfOk result (λ c. IsShaped (request c)) }
    ensures first { IfOk result (λ c. c.tid ≡ FIRST_THREAD) }
    ensures goes_on { IfOk result (λ c. GoesOn (request c)) }
{
    let zeros = vec![in alloc; 0u8; bytes as usize]?;
    let mut payload = Bytes::make(alloc, bytes)?;
    payload.set(&zeros);
    Ok(Call {
        tid: FIRST_THREAD,
        nr: WRITE,
        args: [1, 0, bytes, 0, 0, 0],
        bad: false,
        payload,
    })
}
