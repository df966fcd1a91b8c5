//! The items of a program (C11 6.9), and programs.

ghost use Rattle.std.specs.Prelude.{◌≡◌, ◌<◌, ◌++◌, None, codes, IfOk};
ghost use Rattle.c_decl.specs.Bare.{tag_of};
ghost use Rattle.c_reader.specs.Outcome.{Gives};
ghost use Rattle.c_reader.specs.Reading as reading;
ghost use Rattle.c_reader.specs.Reading.{choose, give};
ghost use Rattle.c_reader.specs.Tokens.{is_word as is_word_of};
ghost use Rattle.c_syntax.specs.Items as spec;
ghost use Rattle.c_syntax.specs.Outcome.{Ends};
ghost use Rattle.c_decl.specs.Declarations.{read_pointer};
ghost use Rattle.c_grammar.specs.Levels.{readers_at};
ghost use Rattle.c_reader.specs.Tokens.{read_name};
ghost use Rattle.c_statement.specs.Levels.{read_block};
ghost use Rattle.c_statement.specs.Parts.{Carried, CarriedTo};
ghost use Rattle.c_statement.specs.Starts as starts;
ghost use Rattle.c_tree.specs.declared.programs.ExternalDeclaration.TheVariants as items;

use c_decl::{Rules, bare_tag};
use c_expr::specs;
use c_reader::{Cursor, Unread, is_word, many, many_after, only};
use c_statement::{block, kept, starts_item};
use c_tree::{
    Block, Declaration, Dimension, ExternalDeclaration, Function, FunctionSpecifiers, Identifier,
    Parameters, Place, Pointer, Specifiers, StaticSpecifier, TagSpecifier, TokenKind,
};
use hy_bits::Memory;
use sqlite_items::{Boxed, Items};
use std::alloc::Global;

/// A declaration in memory of its own.
fn declaration_item(
    alloc: Global,
    fixed: Option<Place>,
    objects: Declaration,
) -> Result<ExternalDeclaration, Memory>
    ensures { IfOk result (λ item. item ≡ items.Declaration fixed objects) }
{
    Ok(ExternalDeclaration::Declaration(fixed, Boxed::new(alloc, objects)?))
}

/// A tag in memory of its own.
fn tag_item(alloc: Global, tag: TagSpecifier) -> Result<ExternalDeclaration, Memory>
    ensures { IfOk result (λ item. item ≡ items.TagSpecifier tag) }
{
    Ok(ExternalDeclaration::TagSpecifier(Boxed::new(alloc, tag)?))
}

/// The specifiers of a type, with `part`, which was read before.
fn with_specs<T: Drop>(
    rules: Rules,
    cursor: &mut Cursor<'_>,
    part: T,
) -> Result<(T, Specifiers), Unread>
    ensures { Carried ((readers_at rules.size rules.left).specs cursor.old) part result cursor.new }
{
    let specs = specs(rules.alloc, cursor, rules.size, rules.left)?;
    Ok((part, specs))
}

/// A pointer, if there is one, with `part`, which was read before.
fn with_pointer<T: Drop>(
    rules: Rules,
    cursor: &mut Cursor<'_>,
    part: T,
) -> Result<(T, Option<Pointer>), Unread>
    ensures { Carried (read_pointer rules.left cursor.old) part result cursor.new }
{
    let pointer = rules.pointer(cursor)?;
    Ok((part, pointer))
}

/// A name, with `part`, which was read before.
fn with_name<T: Drop>(
    rules: Rules,
    cursor: &mut Cursor<'_>,
    part: T,
) -> Result<(T, Identifier), Unread>
    ensures { Carried (read_name rules.left cursor.old) part result cursor.new }
{
    let name = cursor.name(rules.alloc, rules.left)?;
    Ok((part, name))
}

/// A block, with `part`, which was read before.
fn with_block<T: Drop>(rules: Rules, cursor: &mut Cursor<'_>, part: T) -> Result<(T, Block), Unread>
    ensures { Carried (read_block rules.size rules.left cursor.old) part result cursor.new }
{
    let body = block(rules, cursor)?;
    Ok((part, body))
}

/// `dims ";"`, with `part`, which was read before.
#[tactic(auto, unfolding(crate::specs::Items::read_ended_dimensions))]
fn ended_dimensions<T: Drop>(
    rules: Rules,
    cursor: &mut Cursor<'_>,
    part: T,
) -> Result<(T, Items<Dimension>), Unread>
    ensures { CarriedTo (spec.read_ended_dimensions rules.size rules.left) cursor.old part result cursor.new }
{
    let dimensions = rules.bounds(cursor)?;
    let dimensions = kept(cursor, ";", rules.left, dimensions)?;
    Ok((part, dimensions))
}

/// A `typedef` at its place.
fn typedef_of(
    alloc: Global,
    place: Place,
    specs: Specifiers,
    name: Identifier,
    dimensions: Items<Dimension>,
) -> Result<ExternalDeclaration, Memory>
    ensures { IfOk result (λ item. item ≡ items.Typedef place specs name dimensions) }
{
    let specs = Boxed::new(alloc, specs)?;
    Ok(ExternalDeclaration::Typedef {
        place,
        specs,
        name,
        dimensions,
    })
}

/// `"typedef" specs NAME dims ";"`
#[tactic(auto, unfolding(crate::specs::Items::read_typedef))]
fn typedef(rules: Rules, cursor: &mut Cursor<'_>) -> Result<ExternalDeclaration, Unread>
    ensures { Gives (spec.read_typedef rules.size rules.left cursor.old) result cursor.new }
{
    let place = cursor.word_at("typedef", rules.left)?;
    let specs = specs(rules.alloc, cursor, rules.size, rules.left)?;
    let (specs, name) = with_name(rules, cursor, specs)?;
    let ((specs, name), dimensions) = ended_dimensions(rules, cursor, (specs, name))?;
    Ok(typedef_of(rules.alloc, place, specs, name, dimensions)?)
}

/// `"(" ["void" | param ("," param)*] ")"`, with `part`, which was read before.
#[tactic(auto, unfolding(crate::specs::Items::read_head))]
fn head<T: Drop>(rules: Rules, cursor: &mut Cursor<'_>, part: T) -> Result<(T, Parameters), Unread>
    ensures { CarriedTo (spec.read_head rules.size rules.left) cursor.old part result cursor.new }
{
    cursor.mark("(", rules.left)?;
    let parameters = rules.parameters(cursor)?;
    let parameters = kept(cursor, ")", rules.left, parameters)?;
    Ok((part, parameters))
}

/// A function definition in memory of its own.
fn function_item(alloc: Global, function: Function) -> Result<ExternalDeclaration, Memory>
    ensures { IfOk result (λ item. item ≡ items.Function function) }
{
    Ok(ExternalDeclaration::Function(Boxed::new(alloc, function)?))
}

/// `"(" ["void" | param ("," param)*] ")" block`, after the name of a function.
#[tactic(auto, unfolding(crate::specs::Items::read_function_after))]
fn function_after(
    rules: Rules,
    cursor: &mut Cursor<'_>,
    words: FunctionSpecifiers,
    specs: Specifiers,
    name: Identifier,
) -> Result<ExternalDeclaration, Unread>
    ensures { Gives (spec.read_function_after rules.size rules.left words specs name cursor.old) result cursor.new }
{
    let (parts, parameters) = head(rules, cursor, (words, specs, name))?;
    let ((parts, parameters), body) = with_block(rules, cursor, (parts, parameters))?;
    let (words, specs, name) = parts;
    let function = Function {
        words,
        specs,
        name,
        parameters,
        body,
    };
    Ok(function_item(rules.alloc, function)?)
}

/// `specs NAME` and what stands after the name of a function.
#[tactic(auto, unfolding(crate::specs::Items::read_function_of))]
fn function_of(
    rules: Rules,
    cursor: &mut Cursor<'_>,
    words: FunctionSpecifiers,
) -> Result<ExternalDeclaration, Unread>
    ensures { Gives (spec.read_function_of rules.size rules.left words cursor.old) result cursor.new }
{
    let (words, specs) = with_specs(rules, cursor, words)?;
    let ((words, specs), name) = with_name(rules, cursor, (words, specs))?;
    function_after(rules, cursor, words, specs, name)
}

/// `"inline"*`
#[tactic(auto, unfolding(crate::specs::Items::read_inlines))]
fn inlines(rules: Rules, cursor: &mut Cursor<'_>) -> Result<Items<Place>, Unread>
    ensures { Gives (spec.read_inlines rules.size rules.left cursor.old) result cursor.new }
{
    many(
        rules.alloc,
        cursor,
        rules.size,
        |token| is_word("inline", token),
        |cursor| cursor.word_at("inline", rules.left),
    )
}

/// `"inline"*`, after the first.
fn more_inlines(
    rules: Rules,
    cursor: &mut Cursor<'_>,
    first: Items<Place>,
) -> Result<Items<Place>, Unread>
    ensures { Gives (reading.after (spec.read_inlines rules.size rules.left cursor.old) (λ rest. reading.give (first ++ rest))) result cursor.new }
{
    many_after(
        cursor,
        rules.size,
        |token| is_word("inline", token),
        |cursor| cursor.word_at("inline", rules.left),
        first,
    )
}

/// `"static" "inline"*`
#[tactic(auto, unfolding(crate::specs::Items::read_fixed))]
fn fixed(rules: Rules, cursor: &mut Cursor<'_>) -> Result<Option<StaticSpecifier>, Unread>
    ensures { Gives (spec.read_fixed rules.size rules.left cursor.old) result cursor.new }
{
    let place = cursor.word_at("static", rules.left)?;
    let inline = inlines(rules, cursor)?;
    Ok(Some(StaticSpecifier { place, inline }))
}

/// `["static" "inline"*]`
#[tactic(auto, using(c_reader::proofs::Gathering::choose_sees))]
fn fixed_or_not(rules: Rules, cursor: &mut Cursor<'_>) -> Result<Option<StaticSpecifier>, Unread>
    ensures { Gives (choose (is_word_of (codes "static")) (spec.read_fixed rules.size rules.left) (give None) cursor.old) result cursor.new }
{
    if cursor.sees_word("static") {
        fixed(rules, cursor)
    } else {
        Ok(None)
    }
}

/// A function that begins with `inline`.
#[tactic(auto, unfolding(crate::specs::Items::read_inlined))]
fn inlined(rules: Rules, cursor: &mut Cursor<'_>) -> Result<ExternalDeclaration, Unread>
    ensures { Gives (spec.read_inlined rules.size rules.left cursor.old) result cursor.new }
{
    let first = cursor.word_at("inline", rules.left)?;
    let inline = more_inlines(rules, cursor, only(rules.alloc, first)?)?;
    let fixed = fixed_or_not(rules, cursor)?;
    function_of(rules, cursor, FunctionSpecifiers { inline, fixed })
}

/// The words of a function that has `static` at this place, if it has it, and no `inline`.
fn words_of(rules: Rules, place: Option<Place>) -> FunctionSpecifiers
    ensures { result ≡ spec.words_of place }
{
    let fixed = match place {
        Some(place) => Some(StaticSpecifier {
            place,
            inline: Items::new(rules.alloc),
        }),
        None => None,
    };
    FunctionSpecifiers {
        inline: Items::new(rules.alloc),
        fixed,
    }
}

/// What stands after the first declared name, and the semicolon.
#[tactic(auto, unfolding(crate::specs::Items::read_item_objects))]
fn objects_after(
    rules: Rules,
    cursor: &mut Cursor<'_>,
    fixed: Option<Place>,
    specs: Specifiers,
    pointer: Option<Pointer>,
    name: Identifier,
) -> Result<ExternalDeclaration, Unread>
    ensures { Gives (spec.read_item_objects rules.size rules.left fixed specs pointer name cursor.old) result cursor.new }
{
    let objects = rules.objects_after(cursor, specs, pointer, name)?;
    let objects = kept(cursor, ";", rules.left, objects)?;
    Ok(declaration_item(rules.alloc, fixed, objects)?)
}

/// What stands after the first declared name, which is a function's where it is no pointer's and a bracket opens.
fn item_after(
    rules: Rules,
    cursor: &mut Cursor<'_>,
    fixed: Option<Place>,
    specs: Specifiers,
    pointer: Option<Pointer>,
    name: Identifier,
) -> Result<ExternalDeclaration, Unread>
    ensures { Gives (spec.read_item_after rules.size rules.left fixed specs pointer name cursor.old) result cursor.new }
{
    if pointer.is_some() || !cursor.sees_mark("(") {
        return objects_after(rules, cursor, fixed, specs, pointer, name);
    }
    let words = words_of(rules, fixed);
    function_after(rules, cursor, words, specs, name)
}

/// Declaration of a type, or a function.
#[tactic(auto, unfolding(crate::specs::Items::read_item_of))]
fn item_of(
    rules: Rules,
    cursor: &mut Cursor<'_>,
    fixed: Option<Place>,
    specs: Specifiers,
) -> Result<ExternalDeclaration, Unread>
    ensures { Gives (spec.read_item_of rules.size rules.left fixed specs cursor.old) result cursor.new }
{
    let (specs, pointer) = with_pointer(rules, cursor, specs)?;
    let ((specs, pointer), name) = with_name(rules, cursor, (specs, pointer))?;
    item_after(rules, cursor, fixed, specs, pointer, name)
}

/// A function that has `static` at this place and `inline` after it.
#[tactic(auto, unfolding(crate::specs::Items::read_static_inlined))]
fn static_inlined(
    rules: Rules,
    cursor: &mut Cursor<'_>,
    place: Place,
) -> Result<ExternalDeclaration, Unread>
    ensures { Gives (spec.read_static_inlined rules.size rules.left place cursor.old) result cursor.new }
{
    let first = cursor.word_at("inline", rules.left)?;
    let inline = more_inlines(rules, cursor, only(rules.alloc, first)?)?;
    let words = FunctionSpecifiers {
        inline: Items::new(rules.alloc),
        fixed: Some(StaticSpecifier { place, inline }),
    };
    function_of(rules, cursor, words)
}

/// An item that begins with `static`.
#[tactic(auto, using(c_reader::proofs::Gathering::choose_sees), unfolding(crate::specs::Items::read_static))]
fn static_item(rules: Rules, cursor: &mut Cursor<'_>) -> Result<ExternalDeclaration, Unread>
    ensures { Gives (spec.read_static rules.size rules.left cursor.old) result cursor.new }
{
    let place = cursor.word_at("static", rules.left)?;
    if cursor.sees_word("inline") {
        return static_inlined(rules, cursor, place);
    }
    let specs = specs(rules.alloc, cursor, rules.size, rules.left)?;
    item_of(rules, cursor, Some(place), specs)
}

/// `";"`, after a tag.
#[tactic(auto, unfolding(crate::specs::Items::read_item_tag))]
fn tag_alone(
    rules: Rules,
    cursor: &mut Cursor<'_>,
    tag: TagSpecifier,
) -> Result<ExternalDeclaration, Unread>
    ensures { Gives (spec.read_item_tag rules.left tag cursor.old) result cursor.new }
{
    let tag = kept(cursor, ";", rules.left, tag)?;
    Ok(tag_item(rules.alloc, tag)?)
}

/// What stands after the type of an item: objects or a function, or nothing after a tag.
fn plain_after(
    rules: Rules,
    cursor: &mut Cursor<'_>,
    specs: Specifiers,
) -> Result<ExternalDeclaration, Unread>
    ensures { Gives (spec.read_plain_after rules.size rules.left specs (tag_of specs) cursor.old) result cursor.new }
{
    if !cursor.sees_mark(";") {
        return item_of(rules, cursor, None, specs);
    }
    match bare_tag(specs) {
        Ok(tag) => tag_alone(rules, cursor, tag),
        Err(specs) => item_of(rules, cursor, None, specs),
    }
}

/// An item that begins with its type.
#[tactic(auto, unfolding(crate::specs::Items::read_plain))]
fn plain(rules: Rules, cursor: &mut Cursor<'_>) -> Result<ExternalDeclaration, Unread>
    ensures { Gives (spec.read_plain rules.size rules.left cursor.old) result cursor.new }
{
    let specs = specs(rules.alloc, cursor, rules.size, rules.left)?;
    plain_after(rules, cursor, specs)
}

/// An item, by its first token.
#[tactic(auto, using(c_reader::proofs::Gathering::choose_sees), unfolding(crate::specs::Items::read_item))]
fn item(rules: Rules, cursor: &mut Cursor<'_>) -> Result<ExternalDeclaration, Unread>
    ensures { Gives (spec.read_item rules.size rules.left cursor.old) result cursor.new }
{
    if cursor.sees_word("typedef") {
        typedef(rules, cursor)
    } else if cursor.sees_word("inline") {
        inlined(rules, cursor)
    } else if cursor.sees_word("static") {
        static_item(rules, cursor)
    } else {
        plain(rules, cursor)
    }
}

/// Items.
fn items(rules: Rules, cursor: &mut Cursor<'_>) -> Result<Items<ExternalDeclaration>, Unread>
    ensures { Gives (reading.many rules.size starts.starts_item (spec.read_item rules.size rules.left) cursor.old) result cursor.new }
{
    many(
        rules.alloc,
        cursor,
        rules.size,
        |token| starts_item(token),
        |cursor| item(rules, cursor),
    )
}

/// Items up to the end of the text, which is left, and its place.
#[tactic(auto, using(crate::proofs::Reading::program_ends, crate::proofs::Reading::program_goes_on), unfolding(crate::specs::Items::read_program))]
pub fn program(
    rules: Rules,
    cursor: &mut Cursor<'_>,
) -> Result<(Items<ExternalDeclaration>, Place), Unread>
    requires { 0 < rules.left }
    ensures { Ends (spec.read_program rules.size rules.left cursor.old) result cursor.new }
{
    let items = items(rules, cursor)?;
    if cursor.sees_kind(TokenKind::End) {
        Ok((items, cursor.peek().place))
    } else {
        Err(Unread::Bad)
    }
}
