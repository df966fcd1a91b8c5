ghost use Rattle.std.specs.Prelude.{◌≡◌, ◌≤◌, length, take};
ghost use Rattle.c_scan.specs.Words.{is_among, is_reserved as is_reserved_word, words_of_types, words_of_declarations, words_of_statements, words_of_headers, marks_of_1, marks_of_2, marks_of_3};
ghost use Rattle.c_scan.specs.Lengths.{mark_length as length_of_mark};

use crate::bytes::is;

/// Whether a word is reserved: a keyword of C11, or a name of `stdbool.h` or `stdint.h`.
pub fn is_reserved(word: &[u8]) -> bool
    ensures { result ≡ is_reserved_word word.now }
{
    is_word_of_types(word)
        || is_word_of_declarations(word)
        || is_word_of_statements(word)
        || is_word_of_headers(word)
}

fn is_word_of_types(word: &[u8]) -> bool
    ensures { result ≡ is_among words_of_types word.now }
{
    is(word, b"void")
        || is(word, b"char")
        || is(word, b"short")
        || is(word, b"int")
        || is(word, b"long")
        || is(word, b"float")
        || is(word, b"double")
        || is(word, b"signed")
        || is(word, b"unsigned")
        || is(word, b"_Bool")
        || is(word, b"_Complex")
        || is(word, b"_Imaginary")
        || is(word, b"struct")
        || is(word, b"union")
        || is(word, b"enum")
}

fn is_word_of_declarations(word: &[u8]) -> bool
    ensures { result ≡ is_among words_of_declarations word.now }
{
    is(word, b"auto")
        || is(word, b"register")
        || is(word, b"static")
        || is(word, b"extern")
        || is(word, b"typedef")
        || is(word, b"const")
        || is(word, b"volatile")
        || is(word, b"restrict")
        || is(word, b"inline")
        || is(word, b"_Noreturn")
        || is(word, b"_Alignas")
        || is(word, b"_Atomic")
        || is(word, b"_Static_assert")
        || is(word, b"_Thread_local")
}

fn is_word_of_statements(word: &[u8]) -> bool
    ensures { result ≡ is_among words_of_statements word.now }
{
    is(word, b"if")
        || is(word, b"else")
        || is(word, b"switch")
        || is(word, b"case")
        || is(word, b"default")
        || is(word, b"for")
        || is(word, b"while")
        || is(word, b"do")
        || is(word, b"break")
        || is(word, b"continue")
        || is(word, b"return")
        || is(word, b"goto")
        || is(word, b"sizeof")
        || is(word, b"_Alignof")
        || is(word, b"_Generic")
}

fn is_word_of_headers(word: &[u8]) -> bool
    ensures { result ≡ is_among words_of_headers word.now }
{
    is(word, b"bool")
        || is(word, b"true")
        || is(word, b"false")
        || is(word, b"int8_t")
        || is(word, b"int16_t")
        || is(word, b"int32_t")
        || is(word, b"int64_t")
        || is(word, b"uint8_t")
        || is(word, b"uint16_t")
        || is(word, b"uint32_t")
        || is(word, b"uint64_t")
}

/// The number of bytes of the longest mark that a text begins with, or 0.
pub fn mark_length(text: &[u8]) -> usize
    ensures value { result ≡ length_of_mark text.now }
    ensures bound { result ≤ length text.now }
{
    if is_mark_of_3(first_bytes(text, 3)) {
        3
    } else if is_mark_of_2(first_bytes(text, 2)) {
        2
    } else if is_mark_of_1(first_bytes(text, 1)) {
        1
    } else {
        0
    }
}

/// The first so many bytes of a text, or all where it has fewer.
fn first_bytes(text: &[u8], count: usize) -> &[u8]
    ensures { result.now ≡ take count text.now }
{
    if count < text.len() {
        &text[..count]
    } else {
        text
    }
}

fn is_mark_of_3(text: &[u8]) -> bool
    ensures { result ≡ is_among marks_of_3 text.now }
{
    is(text, b"...") || is(text, b"<<=") || is(text, b">>=")
}

fn is_mark_of_2(text: &[u8]) -> bool
    ensures { result ≡ is_among marks_of_2 text.now }
{
    is(text, b"->")
        || is(text, b"++")
        || is(text, b"--")
        || is(text, b"<<")
        || is(text, b">>")
        || is(text, b"<=")
        || is(text, b">=")
        || is(text, b"==")
        || is(text, b"!=")
        || is(text, b"&&")
        || is(text, b"||")
        || is(text, b"*=")
        || is(text, b"/=")
        || is(text, b"%=")
        || is(text, b"+=")
        || is(text, b"-=")
        || is(text, b"&=")
        || is(text, b"^=")
        || is(text, b"|=")
}

fn is_mark_of_1(text: &[u8]) -> bool
    ensures { result ≡ is_among marks_of_1 text.now }
{
    is(text, b"[")
        || is(text, b"]")
        || is(text, b"(")
        || is(text, b")")
        || is(text, b"{")
        || is(text, b"}")
        || is(text, b".")
        || is(text, b"&")
        || is(text, b"*")
        || is(text, b"+")
        || is(text, b"-")
        || is(text, b"~")
        || is(text, b"!")
        || is(text, b"/")
        || is(text, b"%")
        || is(text, b"<")
        || is(text, b">")
        || is(text, b"^")
        || is(text, b"|")
        || is(text, b"?")
        || is(text, b":")
        || is(text, b";")
        || is(text, b"=")
        || is(text, b",")
}
