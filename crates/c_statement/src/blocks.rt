//! Declarations in blocks, blocks, and statements by their first tokens (C11 6.8, 6.8.2).

ghost use Rattle.std.specs.Prelude.{◌≡◌, IfOk};
ghost use Rattle.c_decl.specs.Bare.{tag_of};
ghost use Rattle.c_reader.specs.Nested.{ReadsBy};
ghost use Rattle.c_reader.specs.Outcome.{Gives};
ghost use Rattle.c_reader.specs.Reading as reading;
ghost use Rattle.c_statement.specs.Blocks as spec;
ghost use Rattle.c_statement.specs.Levels.{read_statement};
ghost use Rattle.c_statement.specs.Starts as starts;
ghost use Rattle.c_tree.specs.declared.statements.BlockItem.TheVariants as items;

use crate::inner::Inner;
use crate::plain::{
    break_statement, continue_statement, empty, kept, return_statement, simple_statement,
};
use crate::starts::{starts_loop, starts_part};
use c_decl::{Rules, bare_tag};
use c_expr::specs;
use c_grammar::sees_type;
use c_reader::{Cursor, Unread, many};
use c_tree::{Block, BlockItem, Declaration, Specifiers, Statement, TagSpecifier};
use hy_bits::Memory;
use sqlite_items::{Boxed, Items};
use std::alloc::Global;

/// A declaration in memory of its own.
fn declaration_item(alloc: Global, objects: Declaration) -> Result<BlockItem, Memory>
    ensures { IfOk result (λ item. item ≡ items.Declaration objects) }
{
    Ok(BlockItem::Declaration(Boxed::new(alloc, objects)?))
}

/// A tag in memory of its own.
fn tag_item(alloc: Global, tag: TagSpecifier) -> Result<BlockItem, Memory>
    ensures { IfOk result (λ item. item ≡ items.TagSpecifier tag) }
{
    Ok(BlockItem::TagSpecifier(Boxed::new(alloc, tag)?))
}

/// `objects ";"`, after their type.
#[tactic(auto, unfolding(crate::specs::Blocks::read_part_objects))]
fn objects(rules: Rules, cursor: &mut Cursor<'_>, specs: Specifiers) -> Result<BlockItem, Unread>
    ensures { Gives (spec.read_part_objects rules.size rules.left specs cursor.old) result cursor.new }
{
    let objects = rules.objects_of(cursor, specs)?;
    let objects = kept(cursor, ";", rules.left, objects)?;
    Ok(declaration_item(rules.alloc, objects)?)
}

/// `";"`, after a tag.
#[tactic(auto, unfolding(crate::specs::Blocks::read_part_tag))]
fn tag_alone(rules: Rules, cursor: &mut Cursor<'_>, tag: TagSpecifier) -> Result<BlockItem, Unread>
    ensures { Gives (spec.read_part_tag rules.left tag cursor.old) result cursor.new }
{
    let tag = kept(cursor, ";", rules.left, tag)?;
    Ok(tag_item(rules.alloc, tag)?)
}

/// What stands after the type of a declaration: its objects, or nothing after a tag.
fn part_after(rules: Rules, cursor: &mut Cursor<'_>, specs: Specifiers) -> Result<BlockItem, Unread>
    ensures { Gives (spec.read_part_after rules.size rules.left specs (tag_of specs) cursor.old) result cursor.new }
{
    if !cursor.sees_mark(";") {
        return objects(rules, cursor, specs);
    }
    match bare_tag(specs) {
        Ok(tag) => tag_alone(rules, cursor, tag),
        Err(specs) => objects(rules, cursor, specs),
    }
}

/// `objects ";" | tag ";"`
#[tactic(auto, unfolding(crate::specs::Blocks::read_declaration))]
fn declaration(rules: Rules, cursor: &mut Cursor<'_>) -> Result<BlockItem, Unread>
    ensures { Gives (spec.read_declaration rules.size rules.left cursor.old) result cursor.new }
{
    let specs = specs(rules.alloc, cursor, rules.size, rules.left)?;
    part_after(rules, cursor, specs)
}

impl<F: Fn(Global, &mut Cursor<'_>, usize, u32) -> Result<Statement, Unread>> Inner<F> {
    /// A declaration or a statement.
    #[tactic(auto, using(c_reader::proofs::Gathering::choose_sees), unfolding(crate::specs::Blocks::read_part))]
    fn part(&self, cursor: &mut Cursor<'_>) -> Result<BlockItem, Unread>
        requires { ReadsBy (read_statement self.now.rules.size self.now.rules.left) self.now.rules.size self.now.rules.left (F.pre self.now.statement) (F.post self.now.statement) }
        ensures { Gives (spec.read_part self.now.rules.size self.now.rules.left (read_statement self.now.rules.size self.now.rules.left) cursor.old) result cursor.new }
    {
        if sees_type(cursor) {
            return declaration(self.rules, cursor);
        }
        let value = self.nested(cursor)?;
        Ok(BlockItem::Statement(value))
    }

    /// Declarations and statements.
    fn parts(&self, cursor: &mut Cursor<'_>) -> Result<Items<BlockItem>, Unread>
        requires { ReadsBy (read_statement self.now.rules.size self.now.rules.left) self.now.rules.size self.now.rules.left (F.pre self.now.statement) (F.post self.now.statement) }
        ensures { Gives (reading.many self.now.rules.size starts.starts_part (spec.read_part self.now.rules.size self.now.rules.left (read_statement self.now.rules.size self.now.rules.left)) cursor.old) result cursor.new }
    {
        many(
            self.rules.alloc,
            cursor,
            self.rules.size,
            |token| starts_part(token),
            |cursor| self.part(cursor),
        )
    }

    /// `"{" (statement | objects ";" | tag ";")* "}"`
    #[tactic(auto, unfolding(crate::specs::Blocks::read_braces))]
    pub fn braces(&self, cursor: &mut Cursor<'_>) -> Result<Block, Unread>
        requires { ReadsBy (read_statement self.now.rules.size self.now.rules.left) self.now.rules.size self.now.rules.left (F.pre self.now.statement) (F.post self.now.statement) }
        ensures { Gives (spec.read_braces self.now.rules.size self.now.rules.left (read_statement self.now.rules.size self.now.rules.left) cursor.old) result cursor.new }
    {
        let place = cursor.mark_at("{", self.rules.left)?;
        let parts = self.parts(cursor)?;
        let parts = kept(cursor, "}", self.rules.left, parts)?;
        Ok(Block { place, parts })
    }

    /// A statement, by its first token.
    #[tactic(auto, using(c_reader::proofs::Gathering::choose_sees), unfolding(crate::specs::Blocks::read_statement_by))]
    pub fn statement(&self, cursor: &mut Cursor<'_>) -> Result<Statement, Unread>
        requires { ReadsBy (read_statement self.now.rules.size self.now.rules.left) self.now.rules.size self.now.rules.left (F.pre self.now.statement) (F.post self.now.statement) }
        ensures { Gives (spec.read_statement_by self.now.rules.size self.now.rules.left (read_statement self.now.rules.size self.now.rules.left) cursor.old) result cursor.new }
    {
        if cursor.sees_mark("{") {
            let block = self.braces(cursor)?;
            return Ok(Statement::Block(Boxed::new(self.rules.alloc, block)?));
        }
        if cursor.sees_mark(";") {
            empty(self.rules, cursor)
        } else if cursor.sees_word("break") {
            break_statement(self.rules, cursor)
        } else if cursor.sees_word("continue") {
            continue_statement(self.rules, cursor)
        } else if cursor.sees_word("return") {
            return_statement(self.rules, cursor)
        } else if cursor.sees_word("if") {
            self.if_statement(cursor)
        } else if cursor.sees_word("switch") {
            self.switch_statement(cursor)
        } else if starts_loop(cursor.peek()) {
            self.loop_statement(cursor)
        } else {
            simple_statement(self.rules, cursor)
        }
    }
}
