ghost use Rattle.std.specs.Prelude.{◌≡◌, ℕ, ◌⊎◌, List, Option, map, length, IfOk, IsSome, ◌↔◌, MatchOption, MatchResult};
ghost use Rattle.std.specs.List.{AllPass};
ghost use Rattle.hex.specs.Hex.{is_hex_digit};
ghost use Rattle.std.specs.String.{string_bytes};
ghost use Rattle.command_io.specs.declared.status.Stop.TheVariants.{Memory as WantOfMemory};
ghost use Rattle.command_io.specs.Lines.{words_line};
ghost use Rattle.command_io.specs.Ends.{Calm, Ends};
ghost use Rattle.hycc_top.specs.Request.{IsRequest, IsPlainRequest, IsCommandEnding, HasRequestedJob, IsStatus};
ghost use Rattle.hycc_top.specs.Inner.{IsAsked};

use crate::exec::{Exec, exec_with};
use command_io::{Line, Status, Stop, conclude, words_fault};
use hex::FromHex;
use hy_bits::Memory;
use hy_io::{Files, Sink};
use hy_words::{Request, WordsFault, request};
use plain_command::{Plain, plain_with};
use rand_chacha::ChaCha20Rng;
use rand_core::SeedableRng;
use std::alloc::Global;

/// Does what the words ask: the program's name, which may be any word, and `exec SRC A B --seed HEX64` or `plain SRC A B [--bound N]`.
pub fn hycc<F: Files, S: Sink>(
    alloc: Global,
    words: &[String],
    files: &mut F,
    sink: &mut S,
) -> Status
    // The line is that of what the words ask, each with its cause; it is printed whole, or up to a fault of the sink.
    ensures ends { Ends (IsCommandEnding (F.store files.old) (F.failed_reads files.old) (F.failed_reads files.new) (map string_bytes words.now))
        (S.taken sink.old) (S.taken sink.new) (S.faults sink.old) (S.faults sink.new) result.code }

    // There is no other status.
    ensures statuses { IsStatus result.code }

    // Words that ask for a job of the form end well or want memory, where no device has a fault.
    ensures complete { HasRequestedJob (F.store files.old) (map string_bytes words.now)
        → ((name : List ℕ) → Calm (F.failed_reads files.old name) (F.failed_reads files.new name))
        → Calm (S.faults sink.old) (S.faults sink.new)
        → (result.code ≡ 0) ⊎ (result.code ≡ 10) }

    // The files are as before.
    ensures store { F.store files.new ≡ F.store files.old }
{
    match requested(alloc, words) {
        Ok(Asked::Exec(request)) => exec_with(
            alloc,
            &request.job,
            files,
            sink,
            ChaCha20Rng::from_seed(request.seed),
        ),
        Ok(Asked::Plain(job)) => plain_with(alloc, &job, files, sink),
        Ok(Asked::Nothing) => refuse(alloc, sink),
        Err(Memory) => Status { code: 10 },
    }
}

/// A run on shares with the seed of its dealer.
#[derive(Drop)]
struct Seeded {
    job: Exec,
    seed: [u8; 32],
}

/// What the words ask.
#[derive(Drop)]
enum Asked {
    /// A run on shares.
    Exec(Seeded),
    /// A run without circuits.
    Plain(Plain),
    /// Nothing that is a command.
    Nothing,
}

/// What the words ask.
fn requested(alloc: Global, words: &[String]) -> Result<Asked, Memory>
    ensures { IfOk result (IsAsked (map string_bytes words.now)) }
{
    if let Some(request) = exec_requested(alloc, words)? {
        return Ok(Asked::Exec(request));
    }
    match plain_requested(alloc, words)? {
        Some(job) => Ok(Asked::Plain(job)),
        None => Ok(Asked::Nothing),
    }
}

/// The run without circuits that the words ask for, or none.
fn plain_requested(alloc: Global, words: &[String]) -> Result<Option<Plain>, Memory>
    ensures { IfOk result (λ found. MatchOption found
        ((source a b : List ℕ) (bound : Option ℕ) → IsPlainRequest (map string_bytes words.now) source a b bound → ⊥)
        (λ job. IsPlainRequest (map string_bytes words.now) (string_bytes job.source) (string_bytes job.a) (string_bytes job.b) job.bound)) }
{
    match request(alloc, words) {
        Ok(
            Request::Plain {
                source,
                a,
                b,
                bound,
            },
        ) => Ok(Some(Plain {
            source,
            a,
            b,
            bound,
        })),
        Ok(_) | Err(WordsFault::NoRequest) => Ok(None),
        Err(WordsFault::Memory) => Err(Memory),
    }
}

/// The run on shares that the words ask for, with the seed of its dealer, or none.
fn exec_requested(alloc: Global, words: &[String]) -> Result<Option<Seeded>, Memory>
    ensures { IfOk result (λ found. MatchOption found
        ((source a b : List ℕ) → IsRequest (map string_bytes words.now) source a b → ⊥)
        (λ asked. IsRequest (map string_bytes words.now) (string_bytes asked.job.source) (string_bytes asked.job.a) (string_bytes asked.job.b))) }
{
    let [_, command, source, a, b, option, seed] = words else {
        return Ok(None);
    };
    if command.as_str() != "exec" || option.as_str() != "--seed" {
        return Ok(None);
    }
    let Some(seed) = seed_of(seed.as_str()) else {
        return Ok(None);
    };
    Ok(Some(Seeded {
        job: Exec {
            source: String::from_str(alloc, source.as_str())?,
            a: String::from_str(alloc, a.as_str())?,
            b: String::from_str(alloc, b.as_str())?,
        },
        seed,
    }))
}

/// The seed that a word writes: 64 hexadecimal digits of either case.
fn seed_of(word: &str) -> Option<[u8; 32]>
    ensures { IsSome result ↔ ((length word.now ≡ 64) × AllPass is_hex_digit word.now) }
{
    <[u8; 32] as FromHex>::from_hex(word).ok()
}

/// Prints that the words are not of a command.
fn refuse<S: Sink>(alloc: Global, sink: &mut S) -> Status
    ensures { Ends (λ code line. (code ≡ 1) × (line ≡ words_line)) (S.taken sink.old) (S.taken sink.new) (S.faults sink.old) (S.faults sink.new) result.code }
{
    let outcome = refusal(alloc);
    conclude(outcome, sink)
}

/// The line of words that are not of a command.
fn refusal(alloc: Global) -> Result<Line, Stop>
    ensures { MatchResult result (λ line. (line.code ≡ 1) × (string_bytes line.text ≡ words_line)) (λ stop. stop ≡ WantOfMemory) }
{
    Ok(Line {
        code: 1,
        text: words_fault(alloc)?,
    })
}
