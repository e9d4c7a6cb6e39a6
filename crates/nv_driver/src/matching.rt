// What `clap` matches of the words.
ghost use Rattle.std.specs.Prelude.{◌≡◌, None, Some, true, IfOk, IfErr, option_map};
ghost use Rattle.clap.specs.Matches.{found_of};
ghost use Rattle.clap.specs.Walk.{rows_of, first_of, all_of};
ghost use Rattle.clap.specs.Faults.{is_simple_and_free};
ghost use Rattle.nv_driver.specs.Tables.{app_by};
ghost use Rattle.nv_driver.specs.Words.{texts, rows_of_line, is_set};
ghost use Rattle.nv_driver.specs.Seen.{names_view};
ghost use Rattle.nv_driver.specs.declared.asked.LineFault.{LineFault};

use crate::asked::LineFault;
use crate::simple::{Form, command};
use clap::ArgMatches;
use std::alloc::Global;

/// The matches of the words from the command's name on.
pub fn matched<'a>(
    alloc: Global,
    form: &Form,
    words: &'a [String],
) -> Result<ArgMatches<'a>, LineFault>
    requires { is_simple_and_free (app_by form.now) ≡ true }
    ensures rows { IfOk result (λ matches. rows_of_line (app_by form.now) (texts words.entry.now) ≡ Some (rows_of (found_of matches))) }
    ensures refused { IfErr result (λ fault. fault ≡ LineFault.Usage → rows_of_line (app_by form.now) (texts words.entry.now) ≡ None) }
{
    let command = command(alloc, form)?;
    Ok(command.try_get_matches_from(words)?)
}

/// The first value of an argument.
pub fn text<'a>(matches: &ArgMatches<'a>, name: &str) -> Option<&'a str>
    ensures { option_map (λ text. text.now) result ≡ first_of name.now (rows_of (found_of matches.now)) }
{
    matches.get_str(name)
}

/// Whether a flag stands among the words.
pub fn is_set(matches: &ArgMatches<'_>, name: &str) -> bool
    ensures { result ≡ is_set name.now (rows_of (found_of matches.now)) }
{
    match text(matches, name) {
        Some(text) => text == "true",
        None => false,
    }
}

/// All values of an argument.
pub fn values<'m, 'a>(matches: &'m ArgMatches<'a>, name: &str) -> Option<&'m [&'a str]>
    ensures { option_map (λ values. names_view values.now) result ≡ all_of name.now (rows_of (found_of matches.entry.now)) }
{
    matches.get_raw(name)
}
