//! The labels of a `switch` (C11 6.8.4.2).

ghost use Rattle.std.specs.Prelude.{◌≡◌, map};
ghost use Rattle.c_typing.specs.Walks.{Tells, along};
ghost use Rattle.c_heads.specs.Labels as spec;

use crate::tokens::label_tokens;
use c_constants::constant_word;
use c_conversions::{TypeFault, TypeKind};
use c_expressions::{expr_place, value_of};
use c_meaning::{TypedLabel, convert};
use c_tree::{Label, Place};
use c_typing::{Environment, TypedValue, scalar as scalar_of};
use hy_bits::{Memory, Scalar};
use indexmap::IndexSet;
use sqlite_items::Items;
use std::alloc::Global;
use std::marker::Model;

/// The words and the `default` of a `switch` so far, the tokens of its labels, and the labels of the section.
#[derive(Drop)]
pub struct Labelled {
    words: IndexSet<u64>,
    has_default: bool,
    tokens: u32,
    labels: Items<TypedLabel>,
}

impl Model for Labelled {
    ghost use Rattle.c_heads.specs.Labels as spec;

    ghost Value = { spec.Labelled };

    ghost view = { λ l. record { words = l.words.keys; has_default = l.has_default; tokens = l.tokens; labels = l.labels } };
}

/// The labels of a section that ends, and what is kept of the labels for the next section.
#[derive(Drop)]
pub struct Ended {
    pub labels: Items<TypedLabel>,
    pub labelled: Labelled,
}

impl Labelled {
    ghost use Rattle.std.specs.Prelude.{◌≡◌, IfOk};
    ghost use Rattle.c_typing.specs.Walks.{Tells};
    ghost use Rattle.c_heads.specs.Labels as spec;

    /// No labels.
    pub fn new(alloc: Global) -> Labelled
        ensures { result ≡ spec.no_labels }
    {
        Labelled {
            words: IndexSet::new(alloc),
            has_default: false,
            tokens: 0,
            labels: Items::new(alloc),
        }
    }

    /// The tokens of all labels.
    pub fn tokens(&self) -> u32
        ensures { result ≡ self.now.tokens }
    {
        self.tokens
    }

    /// Ends a section.
    pub fn end_section(self, alloc: Global) -> Ended
        ensures labels { result.labels ≡ self.labels }
        ensures labelled { result.labelled ≡ spec.next_section self }
    {
        let Labelled {
            words,
            has_default,
            tokens,
            labels,
        } = self;
        let labelled = Labelled {
            words,
            has_default,
            tokens,
            labels: Items::new(alloc),
        };
        Ended { labels, labelled }
    }

    /// One more `case`, whose value begins at the place.
    fn with_case(
        mut self,
        env: &Environment,
        place: Place,
        word: u64,
        tokens: u32,
    ) -> Result<Labelled, TypeFault>
        ensures { Tells result env.now (spec.new_case place word tokens self env.now) }
    {
        let (_, is_new) = self.words.insert_full(word).map_err(|_| Memory)?;
        if !is_new {
            return Err(TypeFault::new(TypeKind::Twice, place));
        }
        self.labels.push(TypedLabel::Case(word))?;
        self.tokens = self.tokens.saturating_add(tokens);
        Ok(self)
    }

    /// A `default`, if none stands yet.
    fn with_default(
        mut self,
        env: &Environment,
        place: Place,
        tokens: u32,
    ) -> Result<Labelled, TypeFault>
        ensures { Tells result env.now (spec.new_default place tokens self env.now) }
    {
        if self.has_default {
            return Err(TypeFault::new(TypeKind::Twice, place));
        }
        self.labels.push(TypedLabel::Default)?;
        self.has_default = true;
        self.tokens = self.tokens.saturating_add(tokens);
        Ok(self)
    }
}

/// The word of a constant expression in the type.
fn case_word(scalar: Scalar, value: &TypedValue) -> Option<u64>
    ensures { result ≡ spec.case_word scalar value.now }
{
    let from = scalar_of(&value.ctype)?;
    let word = constant_word(&value.expr)?;
    Some(convert(from, scalar, word))
}

/// A label of a `switch` on the type, after those before it.
fn label_of(
    alloc: Global,
    env: &mut Environment,
    scalar: Scalar,
    label: &Label,
    labelled: Labelled,
) -> Result<Labelled, TypeFault>
    ensures { Tells result env.new (spec.label_of scalar label.now labelled env.old) }
{
    match label {
        Label::Case(_, expr) => {
            let value = value_of(alloc, env, expr)?;
            let place = expr_place(expr);
            match case_word(scalar, &value) {
                Some(word) => labelled.with_case(env, place, word, label_tokens(label)),
                None => Err(TypeFault::new(TypeKind::NotConstant, place)),
            }
        }
        Label::Default(place) => labelled.with_default(env, *place, label_tokens(label)),
    }
}

/// Labels of a `switch` on the type, after those before them.
///
/// # Errors
///
/// `NotConstant` at a value: it is no constant expression. `Twice` at a value or at a `default`: it stands already. Otherwise as of an expression.
pub fn labels_of(
    alloc: Global,
    env: &mut Environment,
    scalar: Scalar,
    list: &[Label],
    labelled: Labelled,
) -> Result<Labelled, TypeFault>
    ensures { Tells result env.new (along (map (spec.label_of scalar) list.now) labelled env.old) }
{
    let mut all = labelled;
    for next in list {
        all = label_of(alloc, env, scalar, next, all)?;
    }
    Ok(all)
}
