use crate::rows::{COUNT, ROWS};
use hy_bits::{Role, Turns};
use hy_words::{Exec, Request, WordsFault, request};
use std::alloc::Global;
use std::test::Fail;

/// The text that a word or a request of the table stands for.
fn expanded(alloc: Global, text: &str) -> Result<String, Fail> {
    let mut all = String::new(alloc);
    for (index, part) in text.split('~').enumerate() {
        if index % 2 == 0 {
            for letter in part.chars() {
                all.push(if letter == '·' { ' ' } else { letter })?;
            }
        } else {
            let (piece, count) = part.rsplit_once('*').ok_or("a count")?;
            for _ in 0..count.parse::<u32>()? {
                all.push_str(piece)?;
            }
        }
    }
    Ok(all)
}

/// The words of a row.
fn words_of(alloc: Global, text: &str) -> Result<Vec<String>, Fail> {
    let mut words = Vec::new(alloc);
    for word in text.split(' ') {
        words.push(expanded(alloc, word)?)?;
    }
    Ok(words)
}

/// A bound in print, `-` where there is none.
fn printed_bound(alloc: Global, bound: Option<u32>) -> Result<String, Fail> {
    match bound {
        Some(bound) => Ok(format!(in alloc; "{bound}")?),
        None => Ok(String::from_str(alloc, "-")?),
    }
}

/// The letter of a role.
fn letter(role: Role) -> char {
    match role {
        Role::P0 => 'a',
        Role::P1 => 'b',
    }
}

/// Turns in print, a letter each.
fn printed_turns(alloc: Global, turns: &Turns) -> Result<String, Fail> {
    let mut letters = String::new(alloc);
    for role in turns.roles() {
        letters.push(letter(*role))?;
    }
    Ok(letters)
}

/// A seed in print, in hexadecimal.
fn printed_seed(alloc: Global, seed: &[u8]) -> Result<String, Fail> {
    Ok(hex::encode(alloc, seed)?)
}

/// A job in print.
fn printed_job(alloc: Global, job: &Exec) -> Result<String, Fail> {
    let Exec {
        source,
        a,
        b,
        table,
        bundle,
        layers,
        bound,
        turns,
    } = job;
    let bound = printed_bound(alloc, *bound)?;
    let turns = printed_turns(alloc, turns)?;
    Ok(format!(in alloc; "{source}|{a}|{b}|{table}|{bundle}|{layers}|{bound}|{turns}")?)
}

/// A request for a job, a bundle or generated work in print.
fn printed(alloc: Global, request: &Request) -> Result<String, Fail> {
    match request {
        Request::Exec { job, seed } => {
            let job = printed_job(alloc, job)?;
            let seed = printed_seed(alloc, seed.as_slice())?;
            Ok(format!(in alloc; "exec|{job}|{seed}")?)
        }
        Request::Compile {
            source,
            table,
            bundle,
            layers,
            bound,
        } => {
            let bound = printed_bound(alloc, *bound)?;
            Ok(format!(in alloc; "compile|{source}|{table}|{bundle}|{layers}|{bound}")?)
        }
        Request::Run {
            bundle,
            a,
            b,
            seed,
            turns,
        } => {
            let seed = printed_seed(alloc, seed.as_slice())?;
            let turns = printed_turns(alloc, turns)?;
            Ok(format!(in alloc; "run|{bundle}|{a}|{b}|{seed}|{turns}")?)
        }
        Request::Gen { number, job } => {
            let job = printed_job(alloc, job)?;
            Ok(format!(in alloc; "gen|{number}|{job}")?)
        }
        Request::Begin {
            role,
            bundle,
            own,
            state,
            outbox,
            seed,
        } => {
            let role = letter(*role);
            let seed = printed_seed(alloc, seed.as_slice())?;
            Ok(format!(in alloc; "begin|{role}|{bundle}|{own}|{state}|{outbox}|{seed}")?)
        }
        other => printed_files(alloc, other),
    }
}

/// A request with files, a bound or the number of a module in print.
fn printed_files(alloc: Global, request: &Request) -> Result<String, Fail> {
    match request {
        Request::Check { bundle } => Ok(format!(in alloc; "check|{bundle}")?),
        Request::Plain {
            source,
            a,
            b,
            bound,
        } => {
            let bound = printed_bound(alloc, *bound)?;
            Ok(format!(in alloc; "plain|{source}|{a}|{b}|{bound}")?)
        }
        Request::Migrate { old, new } => Ok(format!(in alloc; "migrate|{old}|{new}")?),
        Request::Import {
            file,
            table,
            bundle,
        } => Ok(format!(in alloc; "import|{file}|{table}|{bundle}")?),
        Request::Export {
            bundle,
            module,
            file,
        } => Ok(format!(in alloc; "export|{bundle}|{module}|{file}")?),
        Request::Turn {
            state,
            inbox,
            outbox,
        } => Ok(format!(in alloc; "turn|{state}|{inbox}|{outbox}")?),
        Request::Log {
            bundle,
            module,
            file,
        } => Ok(format!(in alloc; "log|{bundle}|{module}|{file}")?),
        Request::Confirm { file } => Ok(format!(in alloc; "confirm|{file}")?),
        _ => Err("a request of the other kind".into()),
    }
}

/// What the words ask, in print, or `none`.
fn answer(alloc: Global, words: &[String]) -> Result<String, Fail> {
    match request(alloc, words) {
        Ok(request) => printed(alloc, &request),
        Err(WordsFault::NoRequest) => Ok(String::from_str(alloc, "none")?),
        Err(WordsFault::Memory) => Err("memory".into()),
    }
}

#[test]
fn words_have_these_requests(rt: HostRuntime) -> Result<(), Fail> {
    let alloc = rt.alloc();
    for row in ROWS.lines() {
        let (words, expected) = row.split_once(" => ").ok_or("words and a request")?;
        let words = words_of(alloc, words)?;
        let expected = expanded(alloc, expected)?;
        let found = answer(alloc, words.as_slice())?;
        assert_eq!(rt; found.as_str(), expected.as_str(), "{row}");
    }
    assert_eq!(rt; ROWS.lines().count(), COUNT);
    Ok(())
}

#[test]
fn no_words_are_no_request(rt: HostRuntime) -> Result<(), Fail> {
    let words = Vec::new(rt.alloc());
    let found = answer(rt.alloc(), words.as_slice())?;
    assert_eq!(rt; found.as_str(), "none");
    Ok(())
}
