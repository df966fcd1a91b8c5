//! The types that words spell (C11 6.7.2, with the widths that hycc fixes).

ghost use Rattle.std.specs.Prelude.{◌≡◌};
ghost use Rattle.c_tree.specs.SpelledTypes as spec;

use crate::expressions::TypeWord;
use hy_bits::Scalar;

/// A type that is spelled by words.
#[derive(Clone, Copy, Debug, PartialEq, Eq)]
pub enum SpelledType {
    Void,
    Scalar(Scalar),
}

/// Whether a word is `unsigned`.
fn is_unsigned(word: TypeWord) -> bool
    ensures { result ≡ spec.is_unsigned word }
{
    matches!(word, TypeWord::Unsigned)
}

/// Whether `unsigned` is among the words.
#[tactic(auto, unfolding(crate::specs::SpelledTypes::has_unsigned))]
fn has_unsigned(words: &[TypeWord]) -> bool
    ensures { result ≡ spec.has_unsigned words.now }
{
    for word in words {
        if is_unsigned(*word) {
            return true;
        }
    }
    false
}

/// The type that a word fixes, where `unsigned` stands beside it or not. `int` and the words for signs fix none.
fn fixed_type(unsigned: bool, word: TypeWord) -> Option<SpelledType>
    ensures { result ≡ spec.fixed_type unsigned word }
{
    let scalar = match word {
        TypeWord::Void => return Some(SpelledType::Void),
        TypeWord::Signed | TypeWord::Unsigned | TypeWord::Int => return None,
        TypeWord::Underscored | TypeWord::Bool => Scalar::B1,
        TypeWord::Char if unsigned => Scalar::U8,
        TypeWord::Short if unsigned => Scalar::U16,
        TypeWord::Long if unsigned => Scalar::U64,
        TypeWord::Char | TypeWord::Int8 => Scalar::S8,
        TypeWord::Short | TypeWord::Int16 => Scalar::S16,
        TypeWord::Int32 => Scalar::S32,
        TypeWord::Long | TypeWord::Int64 => Scalar::S64,
        TypeWord::Uint8 => Scalar::U8,
        TypeWord::Uint16 => Scalar::U16,
        TypeWord::Uint32 => Scalar::U32,
        TypeWord::Uint64 => Scalar::U64,
    };
    Some(SpelledType::Scalar(scalar))
}

/// The type of the first word that fixes one, or else that of `int` with its sign.
#[tactic(auto, unfolding(crate::specs::SpelledTypes::type_among))]
fn type_among(unsigned: bool, words: &[TypeWord]) -> SpelledType
    ensures { result ≡ spec.type_among unsigned words.now }
{
    for word in words {
        if let Some(found) = fixed_type(unsigned, *word) {
            return found;
        }
    }
    SpelledType::Scalar(if unsigned { Scalar::U32 } else { Scalar::S32 })
}

/// The type that the words of a type's spelling spell, in whatever order they stand.
pub fn spelled_type(words: &[TypeWord]) -> SpelledType
    ensures { result ≡ spec.spelled_type words.now }
{
    type_among(has_unsigned(words), words)
}
