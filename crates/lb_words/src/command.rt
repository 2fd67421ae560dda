// The command that takes the words.
ghost use Rattle.std.specs.Prelude.{◌≡◌, [], false, IfOk, OnOk, IsErrOf, map, string_bytes};
ghost use Rattle.clap.specs.Words.{app_of, fault_of, found_of, matches_of, rows_of, rule_of};
ghost use Rattle.lb_words.specs.Words.{command, flag, mode_word, value};
ghost use Rattle.lb_words.specs.InternalWords.{TellsRefusal};

use crate::read::JobError;
use clap::error::ErrorKind;
use clap::{Arg, ArgAction, ArgMatches, Command};
use std::alloc::{AllocError, Global};

// What the command finds in the words.
pub fn matches_of<'a>(alloc: Global, words: &'a [String]) -> Result<ArgMatches<'a>, JobError>
    ensures taken { OnOk result (fault_of command (map string_bytes words.now) ≡ []) }
    ensures found { IfOk result (λ matches.
        rows_of (found_of matches) ≡ matches_of command (map string_bytes words.now)) }
    ensures usage { IsErrOf result JobError.Usage
        → ¬ (fault_of command (map string_bytes words.now) ≡ []) }
{
    let command = command(alloc)?;
    match command.try_get_matches_from(words) {
        Ok(matches) => Ok(matches),
        Err(error) => Err(refusal(error.kind())),
    }
}

// The command.
fn command<'a>(alloc: Global) -> Result<Command<'a>, AllocError>
    ensures { IfOk result (λ made. app_of made ≡ command) }
{
    Command::new(alloc, "bulb")
        .disable_help_flag(true)
        .arg(mode_word(alloc))?
        .arg(value(alloc, "events"))?
        .arg(value(alloc, "workers"))?
        .arg(value(alloc, "seed"))?
        .arg(flag(alloc, "log"))?
        .arg(flag(alloc, "trace"))
}

// The word that names the mode, which has to be given.
fn mode_word<'a>(alloc: Global) -> Arg<'a>
    ensures rule { rule_of result ≡ mode_word }
    ensures own { result.global ≡ false }
{
    Arg::new(alloc, "mode").required(true)
}

// An option with a value.
fn value<'a>(alloc: Global, name: &'a str) -> Arg<'a>
    ensures rule { rule_of result ≡ value name.entry.now }
    ensures own { result.global ≡ false }
{
    Arg::new(alloc, name).long(name)
}

// An option without a value.
fn flag<'a>(alloc: Global, name: &'a str) -> Arg<'a>
    ensures rule { rule_of result ≡ flag name.entry.now }
    ensures own { result.global ≡ false }
{
    Arg::new(alloc, name).long(name).action(ArgAction::SetTrue)
}

// Why the command doesn't take the words.
fn refusal(kind: ErrorKind) -> JobError
    ensures { TellsRefusal kind result }
{
    match kind {
        ErrorKind::OutOfMemory => JobError::Memory,
        _ => JobError::Usage,
    }
}
