// How a line is read.
ghost use Rattle.std.specs.Prelude.{◌≡◌, ◌≤◌, max, None, Some, IfOk, IfErr, IfSome, IsSome, option_and_then, option_map, length};
ghost use Rattle.clap.specs.Matches.{found_of};
ghost use Rattle.clap.specs.Walk.{rows_of};
ghost use Rattle.nv_driver.specs.Words.{texts, NamesRun, NamesServe, NamesRules, NamesAsm, NamesGen, NamesRecord, NamesReplay, NamesInspect, NamesHelp, versions_asked, usual, service_usual, parts_of, plan_of, service_of, topic_from, asked_by, name_spelt, command_of};
ghost use Rattle.nv_driver.specs.Tables.{name_view, asked_of};
ghost use Rattle.nv_driver.specs.Seen.{names_view, limits_view, parts_view, plan_view, service_view, command_view, WordsRefused};

use crate::asked::{Command, Job, LineFault, Run, Service, Tool};
use crate::asked_trail::trail;
use crate::limits::Limits;
use crate::looks::look;
use crate::matching::{is_set, matched, text, values};
use crate::names::Name;
use crate::numbers::{limits, number_between, patience};
use crate::parts::Parts;
use crate::scripts::script;
use clap::ArgMatches;
use std::alloc::{AllocError, Global};

// The most versions of a run.
const MOST_VERSIONS: usize = 8;

// The greatest number of a run that is made.
const MOST_NUMBER: u32 = 999_999;

// The names of the versions, where they aren't too many.
#[tactic(auto, unfolding(crate::specs::Words::versions_asked))]
fn names<'m, 'a>(matches: &'m ArgMatches<'a>) -> Option<&'m [&'a str]>
    ensures names { option_map (λ names. names_view names.now) result ≡ versions_asked (rows_of (found_of matches.entry.now)) }
    ensures few { IfSome result (λ names. length names.now ≤ 8) }
{
    let names = values(matches, "version")?;
    if names.len() <= MOST_VERSIONS {
        Some(names)
    } else {
        None
    }
}

#[tactic(auto, unfolding(crate::specs::Words::parts_of))]
fn parts_of<'m, 'a>(defaults: Limits, matches: &'m ArgMatches<'a>) -> Option<Parts<'m, 'a>>
    ensures parts { option_map parts_view result ≡ parts_of (limits_view defaults) (rows_of (found_of matches.entry.now)) }
    ensures calls { IfSome result (λ parts. parts.limits.calls ≤ max 131072 defaults.calls) }
{
    let rules = text(matches, "rules");
    let names = names(matches)?;
    let limits = limits(defaults, matches)?;
    Some(Parts {
        rules,
        names,
        limits,
    })
}

// A run, from what is matched of its words; it keeps the names in a list of its own.
#[tactic(auto, unfolding(crate::specs::Words::plan_of))]
fn planned<'a>(alloc: Global, matches: &ArgMatches<'a>, json: bool) -> Result<Run<'a>, LineFault>
    ensures plan { IfOk result (λ plan. plan_of json (rows_of (found_of matches.now)) ≡ Some (plan_view plan)) }
    ensures refused { IfErr result (λ fault. fault ≡ LineFault.Usage → plan_of json (rows_of (found_of matches.now)) ≡ None) }
{
    let script = script(matches).ok_or(LineFault::Usage)?;
    let parts = parts_of(Limits::usual(), matches).ok_or(LineFault::Usage)?;
    let versions = parts.names.to_vec(alloc)?;
    Ok(Run {
        script,
        rules: parts.rules,
        versions,
        limits: parts.limits,
        json,
    })
}

// A service, likewise.
#[tactic(auto, unfolding(crate::specs::Words::service_of))]
fn served<'a>(alloc: Global, matches: &ArgMatches<'a>) -> Result<Service<'a>, LineFault>
    ensures service { IfOk result (λ service. service_of (rows_of (found_of matches.now)) ≡ Some (service_view service)) }
    ensures refused { IfErr result (λ fault. fault ≡ LineFault.Usage → service_of (rows_of (found_of matches.now)) ≡ None) }
{
    let parts = parts_of(Limits::of_service(), matches).ok_or(LineFault::Usage)?;
    let patience = patience(matches).ok_or(LineFault::Usage)?;
    let versions = parts.names.to_vec(alloc)?;
    Ok(Service {
        script: text(matches, "script"),
        rules: parts.rules,
        versions,
        limits: parts.limits,
        clients: is_set(matches, "clients"),
        patience,
        log: is_set(matches, "log"),
    })
}

fn run<'a>(alloc: Global, matches: &ArgMatches<'a>) -> Result<Command<'a>, LineFault>
    ensures command { IfOk result (λ command. asked_of NamesRun (rows_of (found_of matches.now)) ≡ Some (command_view command)) }
    ensures refused { IfErr result (λ fault. fault ≡ LineFault.Usage → asked_of NamesRun (rows_of (found_of matches.now)) ≡ None) }
{
    let run = planned(alloc, matches, is_set(matches, "json"))?;
    Ok(Command::Run(run))
}

fn serve<'a>(alloc: Global, matches: &ArgMatches<'a>) -> Result<Command<'a>, LineFault>
    ensures command { IfOk result (λ command. asked_of NamesServe (rows_of (found_of matches.now)) ≡ Some (command_view command)) }
    ensures refused { IfErr result (λ fault. fault ≡ LineFault.Usage → asked_of NamesServe (rows_of (found_of matches.now)) ≡ None) }
{
    let service = served(alloc, matches)?;
    Ok(Command::Serve(service))
}

fn record<'a>(alloc: Global, matches: &ArgMatches<'a>) -> Result<Command<'a>, LineFault>
    ensures command { IfOk result (λ command. asked_of NamesRecord (rows_of (found_of matches.now)) ≡ Some (command_view command)) }
    ensures refused { IfErr result (λ fault. fault ≡ LineFault.Usage → asked_of NamesRecord (rows_of (found_of matches.now)) ≡ None) }
{
    let run = planned(alloc, matches, false)?;
    Ok(Command::Record(run))
}

#[tactic(auto, unfolding(crate::specs::Words::rules_job_of))]
fn rules<'a>(matches: &ArgMatches<'a>) -> Option<Command<'a>>
    ensures { option_map command_view result ≡ asked_of NamesRules (rows_of (found_of matches.now)) }
{
    let file = text(matches, "file")?;
    let tool = if is_set(matches, "asm") {
        Tool::AssembleRules
    } else {
        Tool::CheckRules
    };
    Some(Command::Use(Job { tool, file }))
}

#[tactic(auto, unfolding(crate::specs::Words::asm_job_of))]
fn asm<'a>(matches: &ArgMatches<'a>) -> Option<Command<'a>>
    ensures { option_map command_view result ≡ asked_of NamesAsm (rows_of (found_of matches.now)) }
{
    let file = text(matches, "file")?;
    let tool = Tool::Assemble;
    Some(Command::Use(Job { tool, file }))
}

#[tactic(auto, unfolding(crate::specs::Words::number_in))]
fn generate<'a>(matches: &ArgMatches<'a>) -> Option<Command<'a>>
    ensures { option_map command_view result ≡ asked_of NamesGen (rows_of (found_of matches.now)) }
{
    let number = number_between(0, MOST_NUMBER, text(matches, "number")?)?;
    Some(Command::Generate(number))
}

fn replay<'a>(matches: &ArgMatches<'a>) -> Option<Command<'a>>
    ensures { option_map command_view result ≡ asked_of NamesReplay (rows_of (found_of matches.now)) }
{
    Some(Command::Replay(trail(matches)?))
}

fn inspect<'a>(matches: &ArgMatches<'a>) -> Option<Command<'a>>
    ensures { option_map command_view result ≡ asked_of NamesInspect (rows_of (found_of matches.now)) }
{
    Some(Command::Inspect(look(matches)?))
}

// The command that the word names, or all of them where there is no word.
fn topic_from(word: Option<&str>) -> Option<Option<Name>>
    ensures { option_map (λ topic. option_map name_view topic) result ≡ topic_from (option_map (λ word. word.now) word.entry) }
{
    match word {
        Some(word) => Some(Some(Name::of(word)?)),
        None => Some(None),
    }
}

#[tactic(auto, unfolding(crate::specs::Words::topic_of))]
fn help<'a>(matches: &ArgMatches<'a>) -> Option<Command<'a>>
    ensures { option_map command_view result ≡ asked_of NamesHelp (rows_of (found_of matches.now)) }
{
    Some(Command::Help(topic_from(text(matches, "command"))?))
}

// The words are refused where they ask for nothing.
fn unless_none(command: Option<Command<'_>>) -> Result<Command<'_>, LineFault>
    ensures command { IfOk result (λ asked. command.entry ≡ Some asked) }
    ensures refused { IfErr result (λ fault. (fault ≡ LineFault.Usage) × (command.entry ≡ None)) }
{
    command.ok_or(LineFault::Usage)
}

// What the matches of a command's words ask for.
fn asked<'a>(alloc: Global, name: Name, matches: &ArgMatches<'a>) -> Result<Command<'a>, LineFault>
    ensures command { IfOk result (λ command. asked_of (name_view name) (rows_of (found_of matches.now)) ≡ Some (command_view command)) }
    ensures refused { IfErr result (λ fault. fault ≡ LineFault.Usage → asked_of (name_view name) (rows_of (found_of matches.now)) ≡ None) }
{
    match name {
        Name::Run => run(alloc, matches),
        Name::Serve => serve(alloc, matches),
        Name::Record => record(alloc, matches),
        Name::Rules => unless_none(rules(matches)),
        Name::Asm => unless_none(asm(matches)),
        Name::Gen => unless_none(generate(matches)),
        Name::Replay => unless_none(replay(matches)),
        Name::Inspect => unless_none(inspect(matches)),
        Name::Help => unless_none(help(matches)),
    }
}

// Reads the words of a command, from its name on.
fn read_words<'a>(alloc: Global, name: Name, words: &'a [String]) -> Result<Command<'a>, LineFault>
    ensures command { IfOk result (λ command. asked_by (texts words.entry.now) (name_view name) ≡ Some (command_view command)) }
    ensures refused { IfErr result (λ fault. fault ≡ LineFault.Usage → asked_by (texts words.entry.now) (name_view name) ≡ None) }
{
    let matches = matched(alloc, &name.form(), words)?;
    asked(alloc, name, &matches)
}

// Reads the words from a command's name on.
fn read_named<'a>(alloc: Global, name: &str, words: &'a [String]) -> Result<Command<'a>, LineFault>
    ensures command { IfOk result (λ command. option_and_then (asked_by (texts words.entry.now)) (name_spelt name.now) ≡ Some (command_view command)) }
    ensures refused { IfErr result (λ fault. fault ≡ LineFault.Usage → option_and_then (asked_by (texts words.entry.now)) (name_spelt name.now) ≡ None) }
    ensures named { IfErr result (λ fault. fault ≡ LineFault.Memory → IsSome (name_spelt name.now)) }
{
    match Name::of(name) {
        Some(name) => read_words(alloc, name, words),
        None => Err(LineFault::Usage),
    }
}

/// Reads the words of a command line: the program's name, the command's name, and the words of that command.
pub fn read<'a>(alloc: Global, words: &'a [String]) -> Result<Command<'a>, LineFault>
    ensures command { IfOk result (λ command. command_of (texts words.entry.now) ≡ Some (command_view command)) }
    ensures fault { IfErr result (λ fault. WordsRefused fault (texts words.entry.now)) }
{
    if words.len() < 2 {
        return Err(LineFault::Usage);
    }
    read_named(alloc, words[1].as_str(), &words[1..])
}
