// The commands of `clap`, from tables of their arguments.
ghost use Rattle.std.specs.Prelude.{◌≡◌, [], false, IfOk};
ghost use Rattle.clap.specs.Walk.{rule_of};
ghost use Rattle.clap.specs.Simple.{app_of, with_rule};
ghost use Rattle.nv_driver.specs.Simple.{option_rule, flag_rule, file_rule, files_rule, word_rule, simple_app};
ghost use Rattle.nv_driver.specs.Tables.{rule_by, rules_by, app_by, with_rules};

use clap::{Arg, ArgAction, Command};
use std::alloc::{AllocError, Global};

/// How an argument stands among the words.
#[derive(Clone, Copy)]
pub enum Kind {
    /// `--name VALUE` or `--name=VALUE`, at most once.
    Value,
    /// `--name`, at most once.
    Flag,
    /// One word that is neither an option nor its value.
    File,
    /// One or more of them.
    Files,
    /// One of them, or none.
    Word,
}

/// A command, by its name and its arguments.
#[derive(Clone, Copy)]
pub struct Form {
    pub name: &'static str,
    pub options: &'static [(&'static str, Kind)],
    pub rest: &'static [(&'static str, Kind)],
}

fn option<'a>(alloc: Global, name: &'a str) -> Arg<'a>
    ensures rule { rule_of result ≡ option_rule name.entry.now }
    ensures local { result.global ≡ false }
{
    Arg::new(alloc, name).long(name)
}

fn flag<'a>(alloc: Global, name: &'a str) -> Arg<'a>
    ensures rule { rule_of result ≡ flag_rule name.entry.now }
    ensures local { result.global ≡ false }
{
    Arg::new(alloc, name).long(name).action(ArgAction::SetTrue)
}

fn file<'a>(alloc: Global, name: &'a str) -> Arg<'a>
    ensures rule { rule_of result ≡ file_rule name.entry.now }
    ensures local { result.global ≡ false }
{
    Arg::new(alloc, name).required(true)
}

fn files<'a>(alloc: Global, name: &'a str) -> Arg<'a>
    ensures rule { rule_of result ≡ files_rule name.entry.now }
    ensures local { result.global ≡ false }
{
    Arg::new(alloc, name)
        .required(true)
        .action(ArgAction::Append)
}

fn word<'a>(alloc: Global, name: &'a str) -> Arg<'a>
    ensures rule { rule_of result ≡ word_rule name.entry.now }
    ensures local { result.global ≡ false }
{
    Arg::new(alloc, name)
}

fn argument<'a>(alloc: Global, name: &'a str, kind: Kind) -> Arg<'a>
    ensures rule { rule_of result ≡ rule_by kind name.entry.now }
    ensures local { result.global ≡ false }
{
    match kind {
        Kind::Value => option(alloc, name),
        Kind::Flag => flag(alloc, name),
        Kind::File => file(alloc, name),
        Kind::Files => files(alloc, name),
        Kind::Word => word(alloc, name),
    }
}

fn named<'a>(alloc: Global, name: &'a str) -> Command<'a>
    ensures { app_of result ≡ simple_app name.entry.now [] }
{
    Command::new(alloc, name).disable_help_flag(true)
}

// The command with one argument more.
fn add<'a>(command: Command<'a>, argument: Arg<'a>) -> Result<Command<'a>, AllocError>
    requires { argument.global ≡ false }
    ensures { IfOk result (λ more. app_of more ≡ with_rule (app_of command.entry) (rule_of argument.entry)) }
{
    command.arg(argument)
}

// The command with these arguments more.
fn add_each<'a>(
    alloc: Global,
    command: Command<'a>,
    arguments: &[(&'a str, Kind)],
) -> Result<Command<'a>, AllocError>
    ensures { IfOk result (λ more. app_of more ≡ with_rules (app_of command.entry) (rules_by arguments.now)) }
{
    let mut command = command;
    for (name, kind) in arguments {
        command = add(command, argument(alloc, name, *kind))?;
    }
    Ok(command)
}

/// The command of `clap` with this name and these arguments.
pub fn command<'a>(alloc: Global, form: &Form) -> Result<Command<'a>, AllocError>
    ensures { IfOk result (λ command. app_of command ≡ app_by form.now) }
{
    let options = add_each(alloc, named(alloc, form.name), form.options)?;
    add_each(alloc, options, form.rest)
}
