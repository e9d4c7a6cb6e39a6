// The commands over one file.
ghost use Rattle.std.specs.Prelude.{◌≡◌, ◌≢◌, ◌≤◌, List, ℕ, Ok, Err, IfOk, IfErr, OnOk, length};
ghost use Rattle.nv_driver.specs.Made.{accepted_text, accepted_filter, of_rules, of_program, used};
ghost use Rattle.nv_driver.specs.inner.Unmade.{IsMadeOf, IsUnmade, IsReasonFor};
ghost use Rattle.nv_driver.specs.declared.tools.Unmade.TheVariants.{Memory};
ghost use Rattle.nv_bpf.specs.Texts.{filter_of};
ghost use Rattle.nv_bpf_asm.specs.Assembled.{assembled};
ghost use Rattle.nv_asm.specs.Assembled.{assembled as assembled_program};

use crate::asked::Tool;
use crate::file_limits::FILE_LIMIT;
use crate::refusal::Cause;
use itoa::Buffer;
use nv_asm::AsmFault;
use nv_bpf::FilterFault;
use nv_bpf_asm::RuleFault;
use nv_outside::{Files, Got};
use std::alloc::{AllocError, AllocFailed, Global};

/// Why a command makes nothing of its file. A `Refusal` names a place of the reading order, of which such a command has one alone.
#[derive(Clone, Copy, Debug, PartialEq, Eq)]
pub enum Unmade {
    Memory,
    Unreadable,
    Refused(Cause),
}

impl From<AllocError> for Unmade {
    ghost from_gives = { λ _ unmade. unmade ≡ Memory };

    fn from(_: AllocError) -> Self {
        Unmade::Memory
    }
}

impl<T: Drop> From<AllocFailed<T>> for Unmade {
    ghost from_gives = { λ _ unmade. unmade ≡ Memory };

    fn from(_: AllocFailed<T>) -> Self {
        Unmade::Memory
    }
}

// The line of an accepted filter.
fn accepted(alloc: Global, ops: u32) -> Result<Vec<u8>, Unmade>
    ensures text { IfOk result (λ text. text.items ≡ accepted_text ops) }
    ensures unmade { IfErr result (λ unmade. unmade ≡ Memory) }
{
    let mut buffer = Buffer::new();
    let mut text = Vec::new(alloc);
    text.extend_from_slice(b"ok ")?;
    text.extend_from_slice(buffer.format(ops).as_bytes())?;
    text.push(b'\n')?;
    Ok(text)
}

fn check_rules(alloc: Global, bytes: &[u8]) -> Result<Vec<u8>, Unmade>
    ensures text { IfOk result (λ text. accepted_filter (filter_of 4096 bytes.now) ≡ Ok text.items) }
    ensures unmade { IfErr result (λ unmade. IsReasonFor unmade (accepted_filter (filter_of 4096 bytes.now))) }
{
    match nv_bpf::read(alloc, bytes) {
        Ok(filter) => accepted(alloc, filter.len()),
        Err(FilterFault::Memory) => Err(Unmade::Memory),
        Err(fault) => Err(Unmade::Refused(Cause::Filter(fault))),
    }
}

fn assemble_rules(alloc: Global, bytes: &[u8]) -> Result<Vec<u8>, Unmade>
    ensures text { IfOk result (λ text. of_rules (assembled 4096 bytes.now) ≡ Ok text.items) }
    ensures unmade { IfErr result (λ unmade. IsReasonFor unmade (of_rules (assembled 4096 bytes.now))) }
{
    match nv_bpf_asm::assemble(alloc, bytes) {
        Ok(filter) => {
            let text = nv_bpf::write(alloc, &filter)?;
            Ok(text)
        }
        Err(RuleFault::Memory) => Err(Unmade::Memory),
        Err(fault) => Err(Unmade::Refused(Cause::Rules(fault))),
    }
}

fn assemble(alloc: Global, bytes: &[u8]) -> Result<Vec<u8>, Unmade>
    ensures text { IfOk result (λ text. of_program (assembled_program bytes.now) ≡ Ok text.items) }
    ensures unmade { IfErr result (λ unmade. IsReasonFor unmade (of_program (assembled_program bytes.now))) }
{
    match nv_asm::assemble(alloc, bytes) {
        Ok(program) => {
            let file = nv_elf::write(alloc, &program)?;
            Ok(file)
        }
        Err(AsmFault::Memory) => Err(Unmade::Memory),
        Err(fault) => Err(Unmade::Refused(Cause::Asm(fault))),
    }
}

fn use_tool(alloc: Global, tool: Tool, bytes: &[u8]) -> Result<Vec<u8>, Unmade>
    ensures text { IfOk result (λ text. used tool bytes.now ≡ Ok text.items) }
    ensures unmade { IfErr result (λ unmade. IsReasonFor unmade (used tool bytes.now)) }
{
    match tool {
        Tool::CheckRules => check_rules(alloc, bytes),
        Tool::AssembleRules => assemble_rules(alloc, bytes),
        Tool::Assemble => assemble(alloc, bytes),
    }
}

/// Reads the file and makes of it what the command says.
pub fn make<F: Files>(
    alloc: Global,
    files: &mut F,
    tool: Tool,
    file: &str,
) -> Result<Vec<u8>, Unmade>
    ensures text { IfOk result (λ text. IsMadeOf tool (F.holds files.old file.now) (Ok text.items)) }
    ensures faults { OnOk result (F.faults files.new ≡ F.faults files.old) }
    ensures unmade { IfErr result (λ unmade. IsUnmade unmade tool (F.holds files.old file.now)
        (F.faults files.old) (F.faults files.new) (F.taken files.old) (F.taken files.new)) }
{
    match files.read(alloc, file, FILE_LIMIT)? {
        Got::Bytes(bytes) => use_tool(alloc, tool, &bytes),
        Got::Long => Err(Unmade::Refused(Cause::Long)),
        Got::Failed => Err(Unmade::Unreadable),
    }
}
