ghost use Rattle.std.specs.Prelude.{◌≡◌, map, IfOk, Some, None};
ghost use Rattle.std.specs.String.{string_bytes};
ghost use Rattle.hy_words.specs.Parser.{found_in};
ghost use Rattle.hy_words.specs.Request.{asked_by, asked_in, default_job_in, job_in, job_of, request_of};
ghost use Rattle.hy_words.specs.declared.fault.WordsFault.TheVariants.{NoRequest};

use crate::command::Command;
use crate::fault::WordsFault;
use crate::matches::matches_of;
use crate::readings::{
    DEFAULT_LAYERS, bound, default_turns, layers, module, number, role, seed, turns, word,
};
use crate::requests::{Exec, Request};
use clap::ArgMatches;
use std::alloc::Global;

/// The request of the words: the program's name, which may be any word, a command's name, and the words of the command.
/// Its time grows with the bytes of the words.
///
/// # Errors
///
/// There is no request where the words are of no command; or memory ran out.
pub fn request(alloc: Global, words: &[String]) -> Result<Request, WordsFault>
    ensures request { IfOk result (λ request. request_of (map string_bytes words.now) ≡ Some (asked_by request)) }
    ensures no_request { result ≡ Err WordsFault.NoRequest → request_of (map string_bytes words.now) ≡ None }
{
    let [_, rest @ ..] = words else {
        return Err(WordsFault::NoRequest);
    };
    let Some(name) = rest.first() else {
        return Err(WordsFault::NoRequest);
    };
    let Some(command) = Command::named(name.as_str()) else {
        return Err(WordsFault::NoRequest);
    };
    let matches = matches_of(alloc, command, rest)?;
    request_from(alloc, command, &matches)
}

/// The request of a command with the values that `matches` has.
fn request_from(
    alloc: Global,
    command: Command,
    matches: &ArgMatches<'_>,
) -> Result<Request, WordsFault>
    ensures ok { IfOk result (λ request. asked_in command (found_in matches.now) ≡ Some (asked_by request)) }
    ensures none { result ≡ Err NoRequest → asked_in command (found_in matches.now) ≡ None }
{
    match command {
        Command::Exec => exec(alloc, matches),
        Command::Compile => compile(alloc, matches),
        Command::Run => run(alloc, matches),
        Command::Check => check(alloc, matches),
        Command::Plain => plain(alloc, matches),
        Command::Gen => generate(alloc, matches),
        Command::Migrate => migrate(alloc, matches),
        Command::Import => import(alloc, matches),
        Command::Export => export(alloc, matches),
        Command::Begin => begin(alloc, matches),
        Command::Turn => turn(alloc, matches),
        Command::Log => log(alloc, matches),
        Command::Confirm => confirm(alloc, matches),
    }
}

/// The request to compile and run a program.
fn exec(alloc: Global, matches: &ArgMatches<'_>) -> Result<Request, WordsFault>
    ensures ok { IfOk result (λ request. asked_in Command.Exec (found_in matches.now) ≡ Some (asked_by request)) }
    ensures none { result ≡ Err NoRequest → asked_in Command.Exec (found_in matches.now) ≡ None }
{
    Ok(Request::Exec {
        job: job(alloc, matches)?,
        seed: seed(matches).ok_or(WordsFault::NoRequest)?,
    })
}

/// The request to compile a program.
fn compile(alloc: Global, matches: &ArgMatches<'_>) -> Result<Request, WordsFault>
    ensures ok { IfOk result (λ request. asked_in Command.Compile (found_in matches.now) ≡ Some (asked_by request)) }
    ensures none { result ≡ Err NoRequest → asked_in Command.Compile (found_in matches.now) ≡ None }
{
    Ok(Request::Compile {
        source: word(alloc, matches, "source")?,
        table: word(alloc, matches, "table")?,
        bundle: word(alloc, matches, "bundle")?,
        layers: layers(matches).ok_or(WordsFault::NoRequest)?,
        bound: bound(matches).ok_or(WordsFault::NoRequest)?,
    })
}

/// The request to run a bundle.
fn run(alloc: Global, matches: &ArgMatches<'_>) -> Result<Request, WordsFault>
    ensures ok { IfOk result (λ request. asked_in Command.Run (found_in matches.now) ≡ Some (asked_by request)) }
    ensures none { result ≡ Err NoRequest → asked_in Command.Run (found_in matches.now) ≡ None }
{
    Ok(Request::Run {
        bundle: word(alloc, matches, "bundle")?,
        a: word(alloc, matches, "a")?,
        b: word(alloc, matches, "b")?,
        seed: seed(matches).ok_or(WordsFault::NoRequest)?,
        turns: turns(alloc, matches)?,
    })
}

/// The request to check a bundle's choices.
fn check(alloc: Global, matches: &ArgMatches<'_>) -> Result<Request, WordsFault>
    ensures ok { IfOk result (λ request. asked_in Command.Check (found_in matches.now) ≡ Some (asked_by request)) }
    ensures none { result ≡ Err NoRequest → asked_in Command.Check (found_in matches.now) ≡ None }
{
    Ok(Request::Check {
        bundle: word(alloc, matches, "bundle")?,
    })
}

/// The request to run a program without circuits.
fn plain(alloc: Global, matches: &ArgMatches<'_>) -> Result<Request, WordsFault>
    ensures ok { IfOk result (λ request. asked_in Command.Plain (found_in matches.now) ≡ Some (asked_by request)) }
    ensures none { result ≡ Err NoRequest → asked_in Command.Plain (found_in matches.now) ≡ None }
{
    Ok(Request::Plain {
        source: word(alloc, matches, "source")?,
        a: word(alloc, matches, "a")?,
        b: word(alloc, matches, "b")?,
        bound: bound(matches).ok_or(WordsFault::NoRequest)?,
    })
}

/// The request for generated work.
fn generate(alloc: Global, matches: &ArgMatches<'_>) -> Result<Request, WordsFault>
    ensures ok { IfOk result (λ request. asked_in Command.Gen (found_in matches.now) ≡ Some (asked_by request)) }
    ensures none { result ≡ Err NoRequest → asked_in Command.Gen (found_in matches.now) ≡ None }
{
    Ok(Request::Gen {
        number: number(matches).ok_or(WordsFault::NoRequest)?,
        job: default_job(alloc, matches)?,
    })
}

/// The request to bring a bundle to the second version.
fn migrate(alloc: Global, matches: &ArgMatches<'_>) -> Result<Request, WordsFault>
    ensures ok { IfOk result (λ request. asked_in Command.Migrate (found_in matches.now) ≡ Some (asked_by request)) }
    ensures none { result ≡ Err NoRequest → asked_in Command.Migrate (found_in matches.now) ≡ None }
{
    Ok(Request::Migrate {
        old: word(alloc, matches, "old")?,
        new: word(alloc, matches, "new")?,
    })
}

/// The request to make a bundle of a circuit.
fn import(alloc: Global, matches: &ArgMatches<'_>) -> Result<Request, WordsFault>
    ensures ok { IfOk result (λ request. asked_in Command.Import (found_in matches.now) ≡ Some (asked_by request)) }
    ensures none { result ≡ Err NoRequest → asked_in Command.Import (found_in matches.now) ≡ None }
{
    Ok(Request::Import {
        file: word(alloc, matches, "file")?,
        table: word(alloc, matches, "table")?,
        bundle: word(alloc, matches, "bundle")?,
    })
}

/// The request to write the circuit of a module.
fn export(alloc: Global, matches: &ArgMatches<'_>) -> Result<Request, WordsFault>
    ensures ok { IfOk result (λ request. asked_in Command.Export (found_in matches.now) ≡ Some (asked_by request)) }
    ensures none { result ≡ Err NoRequest → asked_in Command.Export (found_in matches.now) ≡ None }
{
    Ok(Request::Export {
        bundle: word(alloc, matches, "bundle")?,
        module: module(matches).ok_or(WordsFault::NoRequest)?,
        file: word(alloc, matches, "file")?,
    })
}

/// The request to begin as one party.
fn begin(alloc: Global, matches: &ArgMatches<'_>) -> Result<Request, WordsFault>
    ensures ok { IfOk result (λ request. asked_in Command.Begin (found_in matches.now) ≡ Some (asked_by request)) }
    ensures none { result ≡ Err NoRequest → asked_in Command.Begin (found_in matches.now) ≡ None }
{
    Ok(Request::Begin {
        role: role(matches).ok_or(WordsFault::NoRequest)?,
        bundle: word(alloc, matches, "bundle")?,
        own: word(alloc, matches, "own")?,
        state: word(alloc, matches, "state")?,
        outbox: word(alloc, matches, "outbox")?,
        seed: seed(matches).ok_or(WordsFault::NoRequest)?,
    })
}

/// The request for a turn of one party.
fn turn(alloc: Global, matches: &ArgMatches<'_>) -> Result<Request, WordsFault>
    ensures ok { IfOk result (λ request. asked_in Command.Turn (found_in matches.now) ≡ Some (asked_by request)) }
    ensures none { result ≡ Err NoRequest → asked_in Command.Turn (found_in matches.now) ≡ None }
{
    Ok(Request::Turn {
        state: word(alloc, matches, "state")?,
        inbox: word(alloc, matches, "inbox")?,
        outbox: word(alloc, matches, "outbox")?,
    })
}

/// The request to log the rewriting of a module's circuit.
fn log(alloc: Global, matches: &ArgMatches<'_>) -> Result<Request, WordsFault>
    ensures ok { IfOk result (λ request. asked_in Command.Log (found_in matches.now) ≡ Some (asked_by request)) }
    ensures none { result ≡ Err NoRequest → asked_in Command.Log (found_in matches.now) ≡ None }
{
    Ok(Request::Log {
        bundle: word(alloc, matches, "bundle")?,
        module: module(matches).ok_or(WordsFault::NoRequest)?,
        file: word(alloc, matches, "file")?,
    })
}

/// The request to confirm such a log.
fn confirm(alloc: Global, matches: &ArgMatches<'_>) -> Result<Request, WordsFault>
    ensures ok { IfOk result (λ request. asked_in Command.Confirm (found_in matches.now) ≡ Some (asked_by request)) }
    ensures none { result ≡ Err NoRequest → asked_in Command.Confirm (found_in matches.now) ≡ None }
{
    Ok(Request::Confirm {
        file: word(alloc, matches, "file")?,
    })
}

/// The files, numbers and turns of a job.
fn job(alloc: Global, matches: &ArgMatches<'_>) -> Result<Exec, WordsFault>
    ensures ok { IfOk result (λ job. job_in (found_in matches.now) ≡ Some (job_of job)) }
    ensures none { result ≡ Err NoRequest → job_in (found_in matches.now) ≡ None }
{
    Ok(Exec {
        source: word(alloc, matches, "source")?,
        a: word(alloc, matches, "a")?,
        b: word(alloc, matches, "b")?,
        table: word(alloc, matches, "table")?,
        bundle: word(alloc, matches, "bundle")?,
        layers: layers(matches).ok_or(WordsFault::NoRequest)?,
        bound: bound(matches).ok_or(WordsFault::NoRequest)?,
        turns: turns(alloc, matches)?,
    })
}

/// The files of a job of generated work, with the numbers and turns that are given to it.
fn default_job(alloc: Global, matches: &ArgMatches<'_>) -> Result<Exec, WordsFault>
    ensures ok { IfOk result (λ job. default_job_in (found_in matches.now) ≡ Some (job_of job)) }
    ensures none { result ≡ Err NoRequest → default_job_in (found_in matches.now) ≡ None }
{
    Ok(Exec {
        source: word(alloc, matches, "source")?,
        a: word(alloc, matches, "a")?,
        b: word(alloc, matches, "b")?,
        table: word(alloc, matches, "table")?,
        bundle: word(alloc, matches, "bundle")?,
        layers: DEFAULT_LAYERS,
        bound: None,
        turns: default_turns(alloc)?,
    })
}
