//! Expressions and types in print.

use c_tree::{
    BinaryOperator, Dimension, Enumerator, Expr, Identifier, Literal, Specifiers,
    StructDeclaration, Suffix, TagSpecifier, TrailingComma, TypeSpecifier, TypeWord, UnaryOperator,
};
use std::test::Fail;

/// Puts a text after what is printed. What it says isn't told to the prover, whom only the tests' safety concerns.
pub fn put(out: &mut String, text: &str) -> Result<(), Fail> {
    out.push_str(text)?;
    Ok(())
}

/// The name of a binary operator.
fn print_operator(out: &mut String, operator: BinaryOperator) -> Result<(), Fail> {
    write!(out, " {operator:?} ")?;
    Ok(())
}

/// The name of a unary operator.
fn print_prefix(out: &mut String, operator: UnaryOperator) -> Result<(), Fail> {
    write!(out, "{operator:?}")?;
    Ok(())
}

/// The name of a word of a type.
fn print_type_word(out: &mut String, word: TypeWord) -> Result<(), Fail> {
    write!(out, "{word:?}")?;
    Ok(())
}

/// The comma before each part of a list but the first.
pub fn print_comma(out: &mut String, index: usize) -> Result<(), Fail> {
    if index > 0 {
        put(out, ",")?;
    }
    Ok(())
}

/// The end of a list in braces.
pub fn print_close(out: &mut String, comma: TrailingComma) -> Result<(), Fail> {
    put(
        out,
        match comma {
            TrailingComma::Absent => "}",
            TrailingComma::Present => ",}",
        },
    )?;
    Ok(())
}

pub fn print_name(out: &mut String, name: &Identifier) -> Result<(), Fail> {
    put(out, str::from_utf8(name.text.as_bytes())?)?;
    Ok(())
}

fn print_literal(out: &mut String, literal: &Literal) -> Result<(), Fail> {
    match literal {
        Literal::Integer(_, number) => write!(out, "{number}")?,
        Literal::Character(_, number) => write!(out, "'{number}'")?,
        Literal::True => put(out, "true")?,
        Literal::False => put(out, "false")?,
    }
    Ok(())
}

/// An expression: angle brackets stand around each chain and each choice, and braces around the operand of each
/// operator that stands before it.
#[cycle(print)]
pub fn print_expr(out: &mut String, expr: &Expr) -> Result<(), Fail> {
    match expr {
        Expr::Name(name) => print_name(out, name)?,
        Expr::Literal(_, literal) => print_literal(out, literal)?,
        Expr::Call {
            function,
            arguments,
            ..
        } => {
            print_name(out, function)?;
            put(out, "(")?;
            for (index, argument) in arguments.as_slice().iter().enumerate() {
                print_comma(out, index)?;
                print_expr(out, argument)?;
            }
            put(out, ")")?;
        }
        Expr::Parenthesized(_, inner) => {
            put(out, "(")?;
            print_expr(out, inner.get())?;
            put(out, ")")?;
        }
        Expr::Postfix(first, suffixes) => {
            print_expr(out, first.get())?;
            for suffix in suffixes.as_slice() {
                print_suffix(out, suffix)?;
            }
        }
        Expr::Unary {
            operator,
            operand,
            ..
        } => {
            print_prefix(out, *operator)?;
            print_operand(out, operand.get())?;
        }
        Expr::Cast { specs, operand, .. } => {
            put(out, "(")?;
            print_specs(out, specs.get())?;
            put(out, ")")?;
            print_operand(out, operand.get())?;
        }
        Expr::BinaryChain(..) | Expr::Conditional { .. } => print_angled(out, expr)?,
    }
    Ok(())
}

/// An operand in braces.
#[cycle(print)]
fn print_operand(out: &mut String, operand: &Expr) -> Result<(), Fail> {
    put(out, "{")?;
    print_expr(out, operand)?;
    put(out, "}")?;
    Ok(())
}

/// A chain or a choice.
#[cycle(print)]
fn print_angled(out: &mut String, expr: &Expr) -> Result<(), Fail> {
    put(out, "<")?;
    match expr {
        Expr::BinaryChain(first, operands) => {
            print_expr(out, first.get())?;
            for operand in operands.as_slice() {
                print_operator(out, operand.operator)?;
                print_expr(out, &operand.value)?;
            }
        }
        Expr::Conditional {
            condition,
            second,
            third,
            ..
        } => {
            print_expr(out, condition.get())?;
            put(out, " ? ")?;
            print_expr(out, second.get())?;
            put(out, " : ")?;
            print_expr(out, third.get())?;
        }
        _ => {}
    }
    put(out, ">")?;
    Ok(())
}

#[cycle(print)]
fn print_suffix(out: &mut String, suffix: &Suffix) -> Result<(), Fail> {
    match suffix {
        Suffix::Index(_, index) => {
            put(out, "[")?;
            print_expr(out, index)?;
            put(out, "]")?;
        }
        Suffix::Member(_, name) => {
            put(out, ".")?;
            print_name(out, name)?;
        }
        Suffix::Arrow(_, name) => {
            put(out, "->")?;
            print_name(out, name)?;
        }
    }
    Ok(())
}

#[cycle(print)]
pub fn print_specs(out: &mut String, specs: &Specifiers) -> Result<(), Fail> {
    for _ in specs.before.as_slice() {
        put(out, "const ")?;
    }
    match &specs.kind {
        TypeSpecifier::Words(_, words) => {
            for (index, word) in words.as_slice().iter().enumerate() {
                if index > 0 {
                    put(out, " ")?;
                }
                print_type_word(out, *word)?;
            }
        }
        TypeSpecifier::TagSpecifier(tag) => print_tag(out, tag)?,
        TypeSpecifier::TypeName(name) => print_name(out, name)?,
    }
    for _ in specs.after.as_slice() {
        put(out, " const")?;
    }
    Ok(())
}

/// A word and the name after it, if there is one.
fn print_tag_name(out: &mut String, word: &str, name: &Option<Identifier>) -> Result<(), Fail> {
    put(out, word)?;
    if let Some(name) = name {
        put(out, " ")?;
        print_name(out, name)?;
    }
    Ok(())
}

#[cycle(print)]
pub fn print_tag(out: &mut String, tag: &TagSpecifier) -> Result<(), Fail> {
    match tag {
        TagSpecifier::Struct { tag, members, .. } => {
            print_tag_name(out, "struct", tag)?;
            if let Some(members) = members {
                put(out, "{")?;
                for member in members.as_slice() {
                    print_member(out, member)?;
                }
                put(out, "}")?;
            }
        }
        TagSpecifier::Enum {
            tag,
            enumerators,
            comma,
            ..
        } => {
            print_tag_name(out, "enum", tag)?;
            if let Some(constants) = enumerators {
                put(out, "{")?;
                for (index, constant) in constants.as_slice().iter().enumerate() {
                    print_comma(out, index)?;
                    print_enumerator(out, constant)?;
                }
                print_close(out, *comma)?;
            }
        }
    }
    Ok(())
}

#[cycle(print)]
fn print_member(out: &mut String, member: &StructDeclaration) -> Result<(), Fail> {
    print_specs(out, &member.specs)?;
    put(out, " ")?;
    for (index, declared) in member.names.as_slice().iter().enumerate() {
        print_comma(out, index)?;
        print_name(out, &declared.name)?;
        print_dimensions(out, declared.dimensions.as_slice())?;
    }
    put(out, ";")?;
    Ok(())
}

#[cycle(print)]
pub fn print_dimensions(out: &mut String, dimensions: &[Dimension]) -> Result<(), Fail> {
    for dimension in dimensions {
        put(out, "[")?;
        if let Some(size) = &dimension.size {
            print_expr(out, size)?;
        }
        put(out, "]")?;
    }
    Ok(())
}

#[cycle(print)]
fn print_enumerator(out: &mut String, constant: &Enumerator) -> Result<(), Fail> {
    print_name(out, &constant.name)?;
    if let Some(value) = &constant.value {
        put(out, "=")?;
        print_expr(out, value)?;
    }
    Ok(())
}
