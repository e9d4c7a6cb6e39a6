// The versions of a run, beside each other.
ghost use Rattle.std.specs.Prelude.{◌≡◌, ◌≤◌, [], IfOk, IfErr, length, map, option_map};
ghost use Rattle.nv_threads.specs.Threads.{threads};
ghost use Rattle.nv_replay.specs.Account.{AreFresh};
ghost use Rattle.nv_replay.specs.Follow.{judge_of};
ghost use Rattle.nv_replay.specs.LettingGo.{NoneLetGo};
ghost use Rattle.nv_replay.specs.Version.{standing_of};
ghost use Rattle.nv_room.specs.Room.{Became};
ghost use Rattle.nv_workers.specs.Ends.{IsAccount};
ghost use Rattle.nv_cli.specs.inner.Demands.{IsAccountOnDemand};

use nv_bpf::Filter;
use nv_calls::SyscallKernel;
use nv_driver::Limits;
use nv_replay::{Account, Version};
use nv_room::Room;
use nv_workers::{Gate, Stock, Terms, end, run_staffed};
use std::alloc::{AllocError, Global};
use std::sync::Wait;
use std::thread::Threads;

/// Runs the versions over the kernel, each with its seat in one room, on threads of the host. The leader hands over at
/// these lengths of the log, and on demand also where the kernel says so. What they come to is the account of the
/// sequential monitor, which hands over at all these lengths, and demanded are just those at which the kernel said so. Where memory is wanted no call was served, and the kernel comes back.
pub fn run_on_demand<R: Threads + Wait + Sync, K: SyscallKernel, G: Gate + Sync>(
    rt: &R,
    alloc: Global,
    versions: Vec<Version>,
    rules: Option<&Filter>,
    kernel: K,
    gate: &G,
    limits: Limits,
    hands: &Vec<u32>,
    on_demand: bool,
) -> Result<Account<K>, K>
    requires fresh { AreFresh threads 0 versions.items }
    requires few { length versions.items ≤ 8 }
    requires empty { K.log kernel ≡ [] }
    requires hands { length hands.now.items ≤ 8 }
    ensures start { IfOk result (λ r. K.start r.kernel ≡ K.start kernel) }
    ensures same { IfErr result (λ given. given ≡ kernel) }
    ensures account { IfOk result (λ r. IsAccountOnDemand (Became K.start K.handed kernel r.kernel) on_demand (judge_of (option_map (λ f. f.now) rules.entry)) (K.known r.kernel) limits.calls hands.now.items versions.items r.versions.items (K.log r.kernel)) }
{
    if versions.is_empty() {
        return Ok(Account { kernel, versions });
    }
    let stations = versions.len() as u32;
    // All that a run takes before its first turn; from then on only a leader's call takes memory, and is refused it as the fate `memory`.
    let Ok(stock) = Stock::make(alloc, versions.len()) else {
        return Err(kernel);
    };
    let made = match Room::make_with(alloc, kernel, stations, limits.ring, hands, on_demand) {
        Ok(made) => made,
        Err(kernel) => return Err(kernel),
    };
    let terms = Terms {
        rules,
        gate,
        most: limits.calls,
        hands: hands.as_slice(),
    };
    let ran = run_staffed(rt, stock, versions, made, &terms, limits.threads);
    Ok(end(ran))
}

/// The same where nothing is demanded: the account is that with the planned lengths alone, and no follower was let go.
pub fn run<R: Threads + Wait + Sync, K: SyscallKernel, G: Gate + Sync>(
    rt: &R,
    alloc: Global,
    versions: Vec<Version>,
    rules: Option<&Filter>,
    kernel: K,
    gate: &G,
    limits: Limits,
    hands: &Vec<u32>,
) -> Result<Account<K>, AllocError>
    requires fresh { AreFresh threads 0 versions.items }
    requires few { length versions.items ≤ 8 }
    requires empty { K.log kernel ≡ [] }
    requires hands { length hands.now.items ≤ 8 }
    ensures start { IfOk result (λ r. K.start r.kernel ≡ K.start kernel) }
    ensures account { IfOk result (λ r. IsAccount threads (judge_of (option_map (λ f. f.now) rules.entry)) (K.known r.kernel) limits.calls hands.now.items versions.items r.versions.items (K.log r.kernel)) }
    ensures stays { IfOk result (λ r. NoneLetGo (map standing_of r.versions.items)) }
{
    match run_on_demand(
        rt, alloc, versions, rules, kernel, gate, limits, hands, false,
    ) {
        Ok(account) => Ok(account),
        Err(_) => Err(AllocError),
    }
}
