//! Reading the options of a command line.

ghost use Rattle.std.specs.Prelude.{◌≡◌, IfOk, false, map, string_bytes};
ghost use Rattle.clap.specs.Simple.{app_of};
ghost use Rattle.clap.specs.Walk.{rule_of};
ghost use Rattle.nbody_options.specs.Line.{command_rule, line, option_rule, with_options};
ghost use Rattle.nbody_options.specs.Options.{Chooses, options_of};

use crate::options::{Options, OptionsFault};
use crate::plain::{COMMAND, OPTION_NAMES, is_plain};
use crate::values::choices_of;
use clap::error::ErrorKind;
use clap::{Arg, ArgAction};
use std::alloc::{AllocError, Global};

// An option with a value.
fn option_of<'a>(alloc: Global, name: &'a str) -> Arg<'a>
    ensures rule { rule_of result ≡ option_rule name.entry.now }
    ensures local { result.global ≡ false }
{
    Arg::new(alloc, name).long(name).action(ArgAction::Set)
}

// The command.
fn command_word<'a>(alloc: Global) -> Arg<'a>
    ensures rule { rule_of result ≡ command_rule }
    ensures local { result.global ≡ false }
{
    Arg::new(alloc, COMMAND)
        .action(ArgAction::Set)
        .required(true)
}

// A command line with more options.
fn with_options<'a>(
    alloc: Global,
    line: clap::Command<'a>,
    names: &[&'a str],
) -> Result<clap::Command<'a>, AllocError>
    ensures { IfOk result (λ c. app_of c ≡ with_options (app_of line.entry) (map (λ name. name.now) names.now)) }
{
    let mut command = line;
    for name in names {
        command = command.arg(option_of(alloc, *name))?;
    }
    Ok(command)
}

// The command and the options, as clap is told them.
fn command_line<'a>(alloc: Global) -> Result<clap::Command<'a>, AllocError>
    ensures { IfOk result (λ c. app_of c ≡ line) }
{
    let bare = clap::Command::new(alloc, "nbody")
        .no_binary_name(true)
        .disable_help_flag(true);
    with_options(
        alloc,
        bare.arg(command_word(alloc))?,
        OPTION_NAMES.as_slice(),
    )
}

/// The options of the words that follow the program's name.
///
/// Usage is answered exactly where the words have no options: where they aren't one command and
/// options with their values, each at most once, and where a value breaks its rule, whatever the
/// command is. Words in the plain form are read by `clap`, which can then refuse them for want of
/// memory alone.
pub fn read_options(alloc: Global, words: &[String]) -> Result<Options, OptionsFault>
    ensures { Chooses result (options_of (map string_bytes words.now)) }
{
    match is_plain(alloc, words) {
        Ok(true) => {}
        Ok(false) => return Err(OptionsFault::Usage),
        Err(_) => return Err(OptionsFault::OutOfMemory),
    }
    let command = match command_line(alloc) {
        Ok(command) => command,
        Err(_) => return Err(OptionsFault::OutOfMemory),
    };
    let matches = match command.try_get_matches_from(words) {
        Ok(matches) => matches,
        Err(error) => match error.kind() {
            ErrorKind::OutOfMemory => return Err(OptionsFault::OutOfMemory),
            _ => unreachable!(),
        },
    };
    match choices_of(&matches) {
        Some(options) => Ok(options),
        None => Err(OptionsFault::Usage),
    }
}
