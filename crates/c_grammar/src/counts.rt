//! The words that spell types, in any order (C11 6.7.2).

ghost use Rattle.std.specs.Prelude.{◌≡◌};
ghost use Rattle.c_tree.specs.TypeWords as spelling;
ghost use Rattle.c_grammar.specs.Counting.{Few};

use c_tree::TypeWord;
use std::marker::Model;

/// How often each kind of word stands in a spelling; the words that stand alone are one kind.
#[derive(Drop)]
pub struct Counts {
    alone: u8,
    char: u8,
    sign: u8,
    short: u8,
    int: u8,
    long: u8,
}

impl Model for Counts {
    ghost use Rattle.c_tree.specs.TypeWords.{Counts};
    ghost use Rattle.c_grammar.specs.CountsCode.{counts_code};

    ghost Value = { Counts };

    ghost coded = { counts_code };

    ghost use Rattle.c_grammar.specs.Counting.{counts_of};

    ghost view = { counts_of };
}

impl Counts {
    /// No words.
    pub fn none() -> Counts
        ensures { result ≡ spelling.no_words }
    {
        Counts {
            alone: 0,
            char: 0,
            sign: 0,
            short: 0,
            int: 0,
            long: 0,
        }
    }

    /// These words and one more.
    pub fn with_word(&self, word: TypeWord) -> Counts
        requires { Few 2 self.now }
        ensures { result ≡ spelling.with_word word self.now }
    {
        let mut counts = Counts {
            alone: self.alone,
            char: self.char,
            sign: self.sign,
            short: self.short,
            int: self.int,
            long: self.long,
        };
        match word {
            TypeWord::Char => counts.char += 1,
            TypeWord::Signed | TypeWord::Unsigned => counts.sign += 1,
            TypeWord::Short => counts.short += 1,
            TypeWord::Int => counts.int += 1,
            TypeWord::Long => counts.long += 1,
            _ => counts.alone += 1,
        }
        counts
    }

    /// Whether the words spell a type.
    pub fn agree(&self) -> bool
        requires { Few 3 self.now }
        ensures { result ≡ spelling.agree self.now }
    {
        let others = self.char + self.sign + self.short + self.int + self.long;
        if self.alone != 0 {
            return self.alone == 1 && others == 0;
        }
        others != 0
            && self.sign <= 1
            && self.char <= 1
            && self.short <= 1
            && self.int <= 1
            && self.long <= 2
            && (self.char == 0 || self.short + self.int + self.long == 0)
            && (self.short == 0 || self.long == 0)
    }
}
