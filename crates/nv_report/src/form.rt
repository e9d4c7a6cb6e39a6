// The whole report as JSON.
ghost use Rattle.std.specs.Prelude.{◌≡◌, IfOk, map};
ghost use Rattle.serde_json.specs.View.{view};
ghost use Rattle.nv_calls.specs.Logs.{output_of};
ghost use Rattle.nv_replay.specs.Version.{standing_of};
ghost use Rattle.nv_report.specs.Json.{report_object, report_value, json_text};

use crate::items::{events, versions};
use crate::values::hex_value;
use nv_calls::{Recorded, SyscallKernel};
use nv_replay::Account;
use serde_json::{Value, json};
use std::alloc::{AllocError, Global};

fn report_object(
    alloc: Global,
    fates: Value,
    log: Value,
    output: Value,
) -> Result<Value, AllocError>
    ensures { IfOk result (λ value. view value ≡ report_object (view fates) (view log) (view output)) }
{
    json!(in alloc; {"fates": fates, "log": log, "output": output})
}

// The report as a value of JSON.
fn report_value<K: SyscallKernel + Recorded>(
    alloc: Global,
    account: &Account<K>,
) -> Result<Value, AllocError>
    ensures { IfOk result (λ value. view value ≡ report_value (output_of (K.known account.now.kernel) (K.log account.now.kernel))
        (record { log = K.log account.now.kernel; lines = map standing_of account.now.versions.items })) }
{
    let fates = versions(alloc, &account.versions)?;
    let log = events(alloc, account.kernel.history())?;
    let output = hex_value(alloc, account.kernel.output())?;
    report_object(alloc, fates, log, output)
}

/// The report of a run as JSON (RFC 8259): one object on one line, with no newline after it.
pub fn json<K: SyscallKernel + Recorded>(
    alloc: Global,
    account: &Account<K>,
) -> Result<Vec<u8>, AllocError>
    ensures { IfOk result (λ bytes. bytes.items ≡ json_text (output_of (K.known account.now.kernel) (K.log account.now.kernel))
        (record { log = K.log account.now.kernel; lines = map standing_of account.now.versions.items })) }
{
    let value = report_value(alloc, account)?;
    let text = value.to_string(alloc)?;
    Ok(text.into_bytes())
}
