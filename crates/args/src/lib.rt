//! The words of the command line: the commands with their options and their help, and what the parser reads in the
//! words.
//!
//! The parser refuses words that lack a required option, or have one that is not the command's. Some commands have two
//! forms, as `--db F` or `--control S`; it takes any mixture of their options, and `cli` refuses those that fit
//! neither form. So no option has a rule on another, and clap's clauses say exactly which words are refused.
#![tactic(auto)]

ghost use Rattle.std.specs.Prelude.{◌≡◌, ◌⊎◌, IfOk};
ghost use Rattle.clap.specs.Words.{FailsBy, kind_of, subcommand_rows_of};
ghost use Rattle.args.specs.Table.{faults, given, texts};

mod arguments;
pub mod laws;
mod options;

use crate::arguments::{parser, shown_command};
use clap::ArgMatches;
use clap::error::ErrorKind;
use std::alloc::Global;

/// Returns what the parser reads in the words after the name of the program. Fails with the text that is shown in
/// place of a run: help or the version, what is wrong with the words, or that memory ran out.
pub fn matches_of<'a>(
    alloc: Global,
    version: &'a str,
    words: &'a [String],
) -> Result<ArgMatches<'a>, clap::Error>
    ensures reads { IfOk result (λ matches. subcommand_rows_of matches ≡ given (texts words.now)) }
    ensures refuses { FailsBy (faults (texts words.now)) result }
{
    parser(alloc, version)?.try_get_matches_from(words)
}

/// Returns the text for options that fit no form of their command, with the forms, or that memory ran out.
pub fn no_form<'a>(alloc: Global, matches: &ArgMatches<'a>) -> clap::Error
    ensures { (kind_of result ≡ ErrorKind.ArgumentConflict) ⊎ (kind_of result ≡ ErrorKind.OutOfMemory) }
{
    let mut command = shown_command(alloc, matches.subcommand_name().unwrap_or(""));
    match command.error(
        ErrorKind::ArgumentConflict,
        "the options fit no form of the command",
    ) {
        Ok(error) => error,
        Err(error) => error.into(),
    }
}
