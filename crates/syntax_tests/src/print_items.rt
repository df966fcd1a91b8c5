//! Declarations, statements and programs in print.

use crate::print::{
    print_close, print_comma, print_dimensions, print_expr, print_name, print_specs, print_tag, put,
};
use c_tree::{
    AssignmentOperator, Block, BlockItem, Declaration, Expr, ExpressionStatement,
    ExternalDeclaration, First, Function, FunctionSpecifiers, InitDeclarator, Initializer,
    Iteration, Label, LabelledSection, LoopBound, Parameter, Parameters, Pointer, Program,
    Selection, Statement, Step,
};
use std::test::Fail;

fn print_init(out: &mut String, init: &Initializer) -> Result<(), Fail> {
    match init {
        Initializer::Expression(value) => print_expr(out, value)?,
        Initializer::List { parts, comma, .. } => {
            put(out, "{")?;
            for (index, part) in parts.as_slice().iter().enumerate() {
                print_comma(out, index)?;
                print_init(out, part)?;
            }
            print_close(out, *comma)?;
        }
    }
    Ok(())
}

fn print_pointer(out: &mut String, pointer: &Option<Pointer>) -> Result<(), Fail> {
    if let Some(pointer) = pointer {
        put(
            out,
            if pointer.constant.is_some() {
                "*const "
            } else {
                "*"
            },
        )?;
    }
    Ok(())
}

fn print_declarator(out: &mut String, declarator: &InitDeclarator) -> Result<(), Fail> {
    print_pointer(out, &declarator.pointer)?;
    print_name(out, &declarator.name)?;
    print_dimensions(out, declarator.dimensions.as_slice())?;
    if let Some(start) = &declarator.start {
        put(out, "=")?;
        print_init(out, &start.value)?;
    }
    Ok(())
}

fn print_objects(out: &mut String, objects: &Declaration) -> Result<(), Fail> {
    print_specs(out, &objects.specs)?;
    put(out, " ")?;
    for (index, declarator) in objects.declarators.as_slice().iter().enumerate() {
        print_comma(out, index)?;
        print_declarator(out, declarator)?;
    }
    put(out, ";")?;
    Ok(())
}

fn print_assign(out: &mut String, operator: AssignmentOperator) -> Result<(), Fail> {
    write!(out, " {operator:?} ")?;
    Ok(())
}

fn print_step(out: &mut String, step: Step) -> Result<(), Fail> {
    write!(out, "{step:?}")?;
    Ok(())
}

fn print_simple(out: &mut String, simple: &ExpressionStatement) -> Result<(), Fail> {
    match simple {
        ExpressionStatement::Assignment {
            target,
            operator,
            value,
            ..
        } => {
            print_expr(out, target)?;
            print_assign(out, *operator)?;
            print_expr(out, value)?;
        }
        ExpressionStatement::PostfixStep { operand, step, .. } => {
            print_expr(out, operand)?;
            put(out, " ")?;
            print_step(out, *step)?;
        }
        ExpressionStatement::PrefixStep { step, operand, .. } => {
            print_step(out, *step)?;
            put(out, " ")?;
            print_expr(out, operand)?;
        }
        ExpressionStatement::Call(call) => print_expr(out, call)?,
    }
    Ok(())
}

/// A condition in brackets after its word.
fn print_condition(out: &mut String, word: &str, condition: &Expr) -> Result<(), Fail> {
    put(out, word)?;
    put(out, "(")?;
    print_expr(out, condition)?;
    put(out, ")")?;
    Ok(())
}

fn print_bound(out: &mut String, bound: &Option<LoopBound>) -> Result<(), Fail> {
    if let Some(bound) = bound {
        let number = bound.number;
        write!(out, "#{number} ")?;
    }
    Ok(())
}

/// What stands between the brackets of a `for`.
fn print_head(
    out: &mut String,
    first: &First,
    condition: &Option<Expr>,
    step: &Option<ExpressionStatement>,
) -> Result<(), Fail> {
    match first {
        First::Nothing => put(out, ";")?,
        First::Declaration(objects) => print_objects(out, objects)?,
        First::Expression(simple) => {
            print_simple(out, simple)?;
            put(out, ";")?;
        }
    }
    if let Some(condition) = condition {
        print_expr(out, condition)?;
    }
    put(out, ";")?;
    if let Some(step) = step {
        print_simple(out, step)?;
    }
    Ok(())
}

/// A statement that holds no other.
fn print_plain(out: &mut String, statement: &Statement) -> Result<(), Fail> {
    match statement {
        Statement::Expression(simple) => print_simple(out, simple.get())?,
        Statement::Break(_) => put(out, "break")?,
        Statement::Continue(_) => put(out, "continue")?,
        Statement::Return(_, value) => {
            put(out, "return")?;
            if let Some(value) = value.get() {
                put(out, " ")?;
                print_expr(out, value)?;
            }
        }
        _ => {}
    }
    put(out, ";")?;
    Ok(())
}

/// A statement: those that it holds stand in angle brackets.
#[cycle(print_statements)]
fn print_statement(out: &mut String, statement: &Statement) -> Result<(), Fail> {
    match statement {
        Statement::Block(block) => print_block(out, block.get()),
        Statement::Selection(parts) => print_selection(out, parts.get()),
        Statement::Iteration(parts) => print_iteration(out, parts.get()),
        _ => print_plain(out, statement),
    }
}

#[cycle(print_statements)]
fn print_selection(out: &mut String, selection: &Selection) -> Result<(), Fail> {
    match selection {
        Selection::If {
            condition,
            then,
            otherwise,
            ..
        } => {
            print_condition(out, "if", condition)?;
            print_held(out, then)?;
            if let Some(otherwise) = otherwise {
                put(out, "else")?;
                print_held(out, otherwise)?;
            }
        }
        Selection::Switch {
            value,
            sections,
            ..
        } => {
            print_condition(out, "switch", value)?;
            print_sections(out, sections.as_slice())?;
        }
    }
    Ok(())
}

#[cycle(print_statements)]
fn print_iteration(out: &mut String, iteration: &Iteration) -> Result<(), Fail> {
    match iteration {
        Iteration::While {
            bound,
            condition,
            body,
            ..
        } => {
            print_bound(out, bound)?;
            print_condition(out, "while", condition)?;
            print_held(out, body)?;
        }
        Iteration::Do {
            bound,
            body,
            condition,
            ..
        } => {
            print_bound(out, bound)?;
            put(out, "do")?;
            print_held(out, body)?;
            print_condition(out, "while", condition)?;
            put(out, ";")?;
        }
        Iteration::For {
            bound,
            first,
            condition,
            step,
            body,
            ..
        } => {
            print_bound(out, bound)?;
            put(out, "for(")?;
            print_head(out, first, condition, step)?;
            put(out, ")")?;
            print_held(out, body)?;
        }
    }
    Ok(())
}

/// A statement in another.
#[cycle(print_statements)]
fn print_held(out: &mut String, statement: &Statement) -> Result<(), Fail> {
    put(out, "<")?;
    print_statement(out, statement)?;
    put(out, ">")?;
    Ok(())
}

/// The sections of a `switch`, each in square brackets.
#[cycle(print_statements)]
fn print_sections(out: &mut String, sections: &[LabelledSection]) -> Result<(), Fail> {
    put(out, "{")?;
    for section in sections {
        put(out, "[")?;
        for label in section.labels.as_slice() {
            print_label(out, label)?;
        }
        for statement in section.statements.as_slice() {
            print_statement(out, statement)?;
        }
        put(out, "]")?;
    }
    put(out, "}")?;
    Ok(())
}

fn print_label(out: &mut String, label: &Label) -> Result<(), Fail> {
    match label {
        Label::Case(_, value) => {
            put(out, "case ")?;
            print_expr(out, value)?;
        }
        Label::Default(_) => put(out, "default")?,
    }
    put(out, ":")?;
    Ok(())
}

#[cycle(print_statements)]
fn print_block(out: &mut String, block: &Block) -> Result<(), Fail> {
    put(out, "{")?;
    for part in block.parts.as_slice() {
        match part {
            BlockItem::Statement(statement) => print_statement(out, statement)?,
            BlockItem::Declaration(objects) => print_objects(out, objects.get())?,
            BlockItem::TagSpecifier(tag) => {
                print_tag(out, tag.get())?;
                put(out, ";")?;
            }
        }
    }
    put(out, "}")?;
    Ok(())
}

fn print_words(out: &mut String, words: &FunctionSpecifiers) -> Result<(), Fail> {
    for _ in words.inline.as_slice() {
        put(out, "inline ")?;
    }
    if let Some(fixed) = &words.fixed {
        put(out, "static ")?;
        for _ in fixed.inline.as_slice() {
            put(out, "inline ")?;
        }
    }
    Ok(())
}

fn print_parameter(out: &mut String, parameter: &Parameter) -> Result<(), Fail> {
    print_specs(out, &parameter.specs)?;
    put(out, " ")?;
    print_pointer(out, &parameter.pointer)?;
    print_name(out, &parameter.name)?;
    print_dimensions(out, parameter.dimensions.as_slice())
}

fn print_function(out: &mut String, function: &Function) -> Result<(), Fail> {
    print_words(out, &function.words)?;
    print_specs(out, &function.specs)?;
    put(out, " ")?;
    print_name(out, &function.name)?;
    put(out, "(")?;
    match &function.parameters {
        Parameters::Nothing => {}
        Parameters::Void(_) => put(out, "void")?,
        Parameters::List(parameters) => {
            for (index, parameter) in parameters.as_slice().iter().enumerate() {
                print_comma(out, index)?;
                print_parameter(out, parameter)?;
            }
        }
    }
    put(out, ")")?;
    print_block(out, &function.body)
}

fn print_item(out: &mut String, item: &ExternalDeclaration) -> Result<(), Fail> {
    match item {
        ExternalDeclaration::Typedef {
            specs,
            name,
            dimensions,
            ..
        } => {
            put(out, "typedef ")?;
            print_specs(out, specs.get())?;
            put(out, " ")?;
            print_name(out, name)?;
            print_dimensions(out, dimensions.as_slice())?;
            put(out, ";")?;
        }
        ExternalDeclaration::TagSpecifier(tag) => {
            print_tag(out, tag.get())?;
            put(out, ";")?;
        }
        ExternalDeclaration::Declaration(fixed, objects) => {
            if fixed.is_some() {
                put(out, "static ")?;
            }
            print_objects(out, objects.get())?;
        }
        ExternalDeclaration::Function(function) => print_function(out, function.get())?,
    }
    Ok(())
}

pub fn print_program(out: &mut String, program: &Program) -> Result<(), Fail> {
    if program.items().is_empty() {
        put(out, "nothing")?;
    }
    for item in program.items() {
        print_item(out, item)?;
    }
    Ok(())
}
