// How the files of a live run are read and loaded.
ghost use Rattle.std.specs.Prelude.{◌≡◌, ◌≤◌, ◌-◌, ◌==◌, not, true, [], List, ℕ, Some, Ok, IsTrue, IfOk, IfErr, OnOk, length, get_or, option_map};
ghost use Rattle.std.specs.List.{prefix_len};
ghost use Rattle.nv_script.specs.Scripts.{is_script};
ghost use Rattle.nv_script.specs.Views.{setup_of};
ghost use Rattle.nv_driver.specs.Seen.{service_view};
ghost use Rattle.nv_driver.specs.Found.{Whole};
ghost use Rattle.nv_driver.specs.Live.{AgreesOrBare, bare_text, after_first_line, transcript_head};
ghost use Rattle.nv_driver.specs.Refusals.{IsLivePrepared, IsPlanned, RefusesLive, Stops};
ghost use Rattle.nv_driver.specs.inner.Refusals.{IsLiveScript, IsLiveScriptRefusal, LiveScriptStops};

use crate::asked::Service;
use crate::file_limits::FILE_LIMIT;
use crate::preparing::{read_file, read_rest, script_in};
use crate::refusal::{Cause, Place, Refusal};
use nv_bpf::Filter;
use nv_outside::Files;
use nv_replay::Version;
use nv_script::Script;
use std::alloc::{AllocError, Global};

// The text of a script that says nothing, which is also the first line of a transcript.
const BARE_TEXT: &[u8] = b"varan-script 5\n";

/// What a live run begins with: how its transcript begins, what that says, the filter that judges followers, and versions
/// that haven't run.
#[derive(Drop)]
pub struct LivePrepared {
    pub head: Vec<u8>,
    pub script: Script,
    pub rules: Option<Filter>,
    pub versions: Vec<Version>,
}

fn before_newline(text: &[u8]) -> usize
    ensures count { result ≡ prefix_len (λ b. not (b == 10)) text.now }
    ensures inside { result ≤ length text.now }
{
    text.iter().take_while(|byte| **byte != b'\n').count()
}

fn after_first_line(text: &[u8]) -> &[u8]
    ensures { result.now ≡ after_first_line text.now }
{
    let before = before_newline(text);
    if before < text.len() {
        &text[before + 1..]
    } else {
        &[]
    }
}

// The last of the lines, if there is one, has its newline.
fn is_whole(text: &[u8]) -> bool
    ensures { result ≡ (get_or text.now (length text.now - 1) 10 == 10) }
{
    text.is_empty() || text[text.len() - 1] == b'\n'
}

// How a transcript over this script begins.
#[tactic(auto, unfolding(crate::specs::Live::transcript_head))]
fn transcript_head(alloc: Global, script: &[u8]) -> Result<Vec<u8>, AllocError>
    ensures { IfOk result (λ head. head.items ≡ transcript_head script.now) }
{
    let rest = after_first_line(script);
    let mut head = Vec::new(alloc);
    head.extend_from_slice(BARE_TEXT)?;
    head.extend_from_slice(rest)?;
    if !is_whole(rest) {
        head.push(b'\n')?;
    }
    Ok(head)
}

// A script, and how its transcript begins.
#[derive(Drop)]
struct LiveScript {
    head: Vec<u8>,
    script: Script,
}

fn lists_nothing(script: &Script) -> bool
    ensures none { result ≡ true → (setup_of script.now).arrivals ≡ [] }
    ensures some { (setup_of script.now).arrivals ≡ [] → result ≡ true }
{
    script.arrivals.is_empty()
}

// The script has to be one as it stands too.
fn live_script_in(alloc: Global, bytes: &[u8]) -> Result<LiveScript, Refusal>
    ensures script { IfOk result (λ live. IsLiveScript live.head.items (setup_of live.script) bytes.now) }
    ensures sound { IfOk result (λ live. IsTrue (is_script (setup_of live.script))) }
    ensures refused { IfErr result (λ refusal. IsLiveScriptRefusal refusal bytes.now) }
{
    let _own = script_in(alloc, bytes)?;
    let head = transcript_head(alloc, bytes)?;
    let script = script_in(alloc, &head)?;
    if !lists_nothing(&script) {
        return Err(Refusal::Input(Place::Script, Cause::Comes));
    }
    Ok(LiveScript { head, script })
}

// Reads the script, where one is named; one that isn't says nothing.
fn script_text<F: Files>(
    alloc: Global,
    files: &mut F,
    name: Option<&str>,
) -> Result<Vec<u8>, Refusal>
    ensures bytes { IfOk result (λ bytes. AgreesOrBare (F.holds files.old) (option_map (λ n. n.now) name.entry) (Whole bytes.items)) }
    ensures refused { IfErr result (λ refusal. Stops (LiveScriptStops (F.holds files.old) (option_map (λ n. n.now) name.entry)) refusal
        (F.faults files.old) (F.faults files.new) (F.taken files.old) (F.taken files.new)) }
    ensures same { (name : List ℕ) → F.holds files.new name ≡ F.holds files.old name }
    ensures faults { OnOk result (F.faults files.new ≡ F.faults files.old) }
    ensures taken { F.taken files.old ≤ F.taken files.new }
{
    let Some(name) = name else {
        let text = BARE_TEXT.to_vec(alloc)?;
        return Ok(text);
    };
    let bytes = read_file(alloc, files, name, Place::Script, FILE_LIMIT)?;
    Ok(bytes)
}

/// Reads the files of a live run as `prepare` reads those of a run: the script, if one is named, the rules, if they are
/// named, and the versions in order. A script that says what comes is refused.
pub fn prepare_live<F: Files>(
    alloc: Global,
    files: &mut F,
    service: &Service<'_>,
) -> Result<LivePrepared, Refusal>
    ensures ready { IfOk result (λ r. IsLivePrepared r.head.items (setup_of r.script) r.rules r.versions.items (F.holds files.old) (service_view service.now)) }
    ensures sound { IfOk result (λ r. IsTrue (is_script (setup_of r.script))) }
    ensures planned { IfOk result (λ r. IsPlanned (setup_of r.script) r.script.hands.items) }
    ensures refused { IfErr result (λ refusal. RefusesLive refusal (F.holds files.old) (service_view service.now)
        (F.faults files.old) (F.faults files.new) (F.taken files.old) (F.taken files.new)) }
    ensures faults { OnOk result (F.faults files.new ≡ F.faults files.old) }
{
    let bytes = script_text(alloc, files, service.script)?;
    let live = live_script_in(alloc, &bytes)?;
    let rest = read_rest(
        alloc,
        files,
        &live.script,
        service.limits,
        service.rules,
        &service.versions,
    )?;
    Ok(LivePrepared {
        head: live.head,
        script: live.script,
        rules: rest.rules,
        versions: rest.versions,
    })
}
