ghost use Rattle.std.specs.Prelude.{◌≡◌, ◌≢◌, ◌<◌, [], false, map, drop, length, IfOk, Some, None};
ghost use Rattle.std.specs.String.{string_bytes};
ghost use Rattle.clap.specs.Words.{app_of, rule_of};
ghost use Rattle.hy_words.specs.Words.{Text, Values, given, value_of};
ghost use Rattle.hy_words.specs.Commands.{syntax_of};
ghost use Rattle.hy_words.specs.Parser.{app_for, app_with, found_in, option_rule, positional_rule};
ghost use Rattle.hy_words.specs.declared.fault.WordsFault.TheVariants.{NoRequest};

use crate::command::Command;
use crate::fault::WordsFault;
use clap::error::ErrorKind;
use clap::{Arg, ArgMatches};
use std::alloc::{AllocError, Global};

/// What the words after a command's name give; `words` begins with that name.
///
/// # Errors
///
/// There is no request where the words break the rules; or memory ran out.
pub fn matches_of<'a>(
    alloc: Global,
    command: Command,
    words: &'a [String],
) -> Result<ArgMatches<'a>, WordsFault>
    requires { 0 < length words.now }
    ensures ok { IfOk result (λ matches. (values : Values) × (given (syntax_of command) (map string_bytes (drop 1 words.entry.now)) ≡ Some values)
        × ((name : Text) → found_in matches name ≡ value_of values name)) }
    ensures none { result ≡ Err NoRequest → given (syntax_of command) (map string_bytes (drop 1 words.entry.now)) ≡ None }
{
    let parser = parser_of(alloc, command, words[0].as_str())?;
    match parser.try_get_matches_from(words) {
        Ok(matches) => Ok(matches),
        Err(error) => Err(fault_of(error.kind())),
    }
}

/// What a parse failed for: memory, or the words.
fn fault_of(kind: ErrorKind) -> WordsFault
    ensures { result ≡ NoRequest → kind ≢ ErrorKind.OutOfMemory }
{
    match kind {
        ErrorKind::OutOfMemory => WordsFault::Memory,
        _ => WordsFault::NoRequest,
    }
}

/// The `clap` command that takes the words of `command`, each value as a text.
fn parser_of<'a>(
    alloc: Global,
    command: Command,
    name: &'a str,
) -> Result<clap::Command<'a>, AllocError>
    ensures { IfOk result (λ parser. app_of parser ≡ app_for name.entry.now (syntax_of command)) }
{
    let mut parser = bare_parser(alloc, name);
    for positional in command.positionals() {
        let name: &'a str = positional;
        parser = parser.arg(positional_argument(alloc, name))?;
    }
    for option in command.options() {
        let name: &'a str = option;
        parser = parser.arg(option_argument(alloc, name))?;
    }
    Ok(parser)
}

/// A `clap` command without arguments, and without help.
fn bare_parser<'a>(alloc: Global, name: &'a str) -> clap::Command<'a>
    ensures { app_of result ≡ app_with name.entry.now [] }
{
    clap::Command::new(alloc, name).disable_help_flag(true)
}

/// The argument of a positional word.
fn positional_argument<'a>(alloc: Global, name: &'a str) -> Arg<'a>
    ensures rule { rule_of result ≡ positional_rule name.entry.now }
    ensures own { result.global ≡ false }
{
    Arg::new(alloc, name)
}

/// The argument of an option, `--name`.
fn option_argument<'a>(alloc: Global, name: &'a str) -> Arg<'a>
    ensures rule { rule_of result ≡ option_rule name.entry.now }
    ensures own { result.global ≡ false }
{
    Arg::new(alloc, name).long(name)
}
