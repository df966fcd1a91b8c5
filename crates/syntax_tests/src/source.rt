//! Texts as tokens, and what is said of them.

use crate::print_items::print_program;
use c_lex::tokens;
use c_syntax::{SyntaxFault, parse};
use c_tree::{Place, Tokens};
use std::alloc::Global;
use std::test::Fail;

/// The tokens of a text, of which so many stand before those that are numbered.
#[derive(Drop)]
pub struct Source {
    tokens: Tokens,
    front: usize,
}

/// That what is found is what is wanted of a row.
pub fn same(alloc: Global, row: &str, found: &str, want: &str) -> Result<(), Fail> {
    if found == want {
        return Ok(());
    }
    Err(format!(in alloc; "{row}: {found}, and not {want}")?.into())
}

/// The tokens of a text.
pub fn tokens_of(alloc: Global, text: &str) -> Result<Tokens, Fail> {
    if text.len() >= 1 << 31 {
        return Err("a shorter text".into());
    }
    Ok(tokens(alloc, text.as_bytes())?)
}

/// Puts words after a text, each with a space or a line's end after it, and tells how many they are. The bound of a
/// loop, a number after a `#`, becomes a line of its own.
fn push_words(text: &mut String, words: &str) -> Result<usize, Fail> {
    let mut count = 0usize;
    for word in words.split(' ').filter(|word| !word.is_empty()) {
        match word.strip_prefix('#') {
            Some(number) => write!(text, "\n#pragma bound {number}\n")?,
            None => write!(text, "{word} ")?,
        }
        count = count.saturating_add(1);
    }
    Ok(count)
}

impl Source {
    /// The words of a text and of what stands around it, each as a token.
    pub fn new(alloc: Global, around: (&str, &str), words: &str) -> Result<Source, Fail> {
        let mut text = String::new(alloc);
        let front = push_words(&mut text, around.0)?;
        let middle = push_words(&mut text, words)?;
        let following = push_words(&mut text, around.1)?;
        let tokens = tokens_of(alloc, text.as_str())?;
        let count = front.saturating_add(middle).saturating_add(following);
        if tokens.as_slice().len() != count.saturating_add(1) {
            return Err("a token for each word".into());
        }
        Ok(Source { tokens, front })
    }

    /// The number of the token at a place, counted from 1 after those in front.
    fn number_of(&self, place: Place) -> Option<usize> {
        let index = self
            .tokens
            .as_slice()
            .iter()
            .position(|token| token.place == place)?;
        index.checked_sub(self.front)?.checked_add(1)
    }

    /// The program of the tokens or their fault, which is told by the number of its token, in print.
    pub fn printed(&self, alloc: Global) -> Result<String, Fail> {
        match parse(alloc, &self.tokens) {
            Ok(program) => {
                let mut out = String::new(alloc);
                print_program(&mut out, &program)?;
                Ok(out)
            }
            Err(fault) => self.printed_fault(alloc, &fault),
        }
    }

    /// That the tokens are parsed, or their fault in print.
    pub fn verdict(&self, alloc: Global) -> Result<String, Fail> {
        match parse(alloc, &self.tokens) {
            Ok(_) => Ok(String::from_str(alloc, "parsed")?),
            Err(fault) => self.printed_fault(alloc, &fault),
        }
    }

    fn printed_fault(&self, alloc: Global, fault: &SyntaxFault) -> Result<String, Fail> {
        let number = place_of(fault)
            .and_then(|place| self.number_of(place))
            .ok_or("a token at the fault's place")?;
        printed_fault(alloc, fault, format!(in alloc; "{number}")?.as_str())
    }
}

fn place_of(fault: &SyntaxFault) -> Option<Place> {
    match fault {
        SyntaxFault::Expected(place)
        | SyntaxFault::Construct(_, place)
        | SyntaxFault::Deep(place) => Some(*place),
        SyntaxFault::Memory => None,
    }
}

/// A fault in print, with this text for its place.
fn printed_fault(alloc: Global, fault: &SyntaxFault, place: &str) -> Result<String, Fail> {
    Ok(match fault {
        SyntaxFault::Expected(_) => format!(in alloc; "Expected {place}")?,
        SyntaxFault::Construct(word, _) => {
            let word = str::from_utf8(word.as_bytes())?;
            format!(in alloc; "Construct {place} {word}")?
        }
        SyntaxFault::Deep(_) => format!(in alloc; "Deep {place}")?,
        SyntaxFault::Memory => String::from_str(alloc, "Memory")?,
    })
}

/// A fault in print, with its line and its column.
pub fn placed_fault(alloc: Global, fault: &SyntaxFault) -> Result<String, Fail> {
    let Place { line, column } = place_of(fault).ok_or("a place")?;
    printed_fault(alloc, fault, format!(in alloc; "{line}:{column}")?.as_str())
}

/// The program of a text or its fault, in print.
pub fn printed_text(alloc: Global, text: &str) -> Result<String, Fail> {
    match parse(alloc, &tokens_of(alloc, text)?) {
        Ok(program) => {
            let mut out = String::new(alloc);
            print_program(&mut out, &program)?;
            Ok(out)
        }
        Err(fault) => placed_fault(alloc, &fault),
    }
}
