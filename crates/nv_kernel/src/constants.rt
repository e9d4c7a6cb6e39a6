// The calls whose reply is the same in every state.
ghost use Rattle.std.specs.Prelude.{◌≡◌, ◌≤◌, [], ◌++◌, length, drop, option_map, pos, IfSome};
ghost use Rattle.nv_calls.specs.Calls.{request};
ghost use Rattle.nv_calls.specs.Constants.{constant_by, constant_of, directory, utsname_field, names};
ghost use Rattle.nv_calls.specs.Limits.{MOST_BYTES};
ghost use Rattle.nv_kernel.specs.EveryState.{IsAlwaysReplied};

use nv_calls::errors::{EFAULT, ERANGE};
use nv_calls::{Bytes, Call, Syscall};

/// The process.
pub const PROCESS: i32 = 100;

/// Its parent.
pub const PARENT: i32 = 1;

/// Each id of its user and its group.
pub const USER: i32 = 1000;

/// A result that hands out nothing.
pub fn only(ret: i32, out: &mut Bytes) -> i32
    ensures ret { result ≡ ret }
    ensures out { out.new ≡ record { bytes = []; capacity = out.old.capacity } }
{
    out.set(&[]);
    ret
}

// Writes bytes over the first ones.
fn put(out: &mut [u8], bytes: &[u8])
    requires { length bytes.now ≤ length out.old }
    ensures { out.new ≡ bytes.now ++ drop (length bytes.now) out.old }
{
    out[..bytes.len()].copy_from_slice(bytes);
}

// A field of utsname: a name, filled with 0.
fn field(name: &[u8]) -> [u8; 65]
    requires { length name.now ≤ 65 }
    ensures { result ≡ utsname_field name.now }
{
    let mut bytes = [0; 65];
    put(&mut bytes, name);
    bytes
}

/// uname(2).
pub fn names(out: &mut Bytes) -> i32
    requires { 390 ≤ out.old.capacity }
    ensures ret { result ≡ pos 0 }
    ensures out { out.new ≡ record { bytes = names; capacity = out.old.capacity } }
{
    let fields = [
        field(b"Linux"),
        field(b"varan"),
        field(b"5.15.0"),
        field(b"#1"),
        field(b"riscv32"),
        field(b"(none)"),
    ];
    out.set(fields.as_flattened());
    0
}

/// getcwd(2): the working directory is `/`.
pub fn directory(size: u32, out: &mut Bytes) -> i32
    requires { 2 ≤ out.old.capacity }
    ensures reply { directory size ≡ record { ret = result; payload = out.new.bytes } }
    ensures capacity { out.new.capacity ≡ out.old.capacity }
{
    if size < 2 {
        return only(ERANGE, out);
    }
    out.set(b"/\0");
    2
}

// The result that the call has in every state, with the bytes that it hands out.
fn constant_as(syscall: Syscall, call: &Call, out: &mut Bytes) -> Option<i32>
    requires { MOST_BYTES ≤ out.old.capacity }
    ensures reply { constant_by syscall (request call.now) ≡ option_map (λ ret. record { ret = ret; payload = out.new.bytes }) result }
    ensures capacity { out.new.capacity ≡ out.old.capacity }
{
    match syscall {
        Syscall::Getcwd | Syscall::Uname if call.bad => Some(only(EFAULT, out)),
        Syscall::Getcwd => Some(directory(call.args[1], out)),
        Syscall::Uname => Some(names(out)),
        Syscall::Getpid => Some(only(PROCESS, out)),
        Syscall::Getppid => Some(only(PARENT, out)),
        Syscall::Getuid | Syscall::Geteuid | Syscall::Getgid | Syscall::Getegid => {
            Some(only(USER, out))
        }
        _ => None,
    }
}

/// The reply of a call whose reply is the same in every state, with the bytes that it hands out. A version is given it without the kernel.
#[tactic(auto, unfolding(nv_calls::specs::Constants::constant_of))]
pub fn constant(call: &Call, out: &mut Bytes) -> Option<i32>
    requires { MOST_BYTES ≤ out.old.capacity }
    ensures reply { constant_of (request call.now) ≡ option_map (λ ret. record { ret = ret; payload = out.new.bytes }) result }
    ensures capacity { out.new.capacity ≡ out.old.capacity }
    ensures always { IfSome result (λ ret. IsAlwaysReplied (request call.now) (record { ret = ret; payload = out.new.bytes })) }
{
    constant_as(Syscall::of(call.nr), call, out)
}
