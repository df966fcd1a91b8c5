//! Declared objects and their initialisers (C11 6.7, 6.7.6, 6.7.9).

ghost use Rattle.std.specs.Prelude.{◌≡◌, codes};
ghost use Rattle.c_tree.specs.declared.statements.Initializer.{Initializer};
ghost use Rattle.c_reader.specs.Closures.{PartsBy};
ghost use Rattle.c_reader.specs.Outcome.{Gives};
ghost use Rattle.c_reader.specs.Reading as reading;
ghost use Rattle.c_reader.specs.Reading.{Reader};
ghost use Rattle.c_reader.specs.Tokens.{read_mark};
ghost use Rattle.c_decl.specs.Declarations as spec;

use crate::rules::Rules;
use c_expr::{dimensions, expr, specs};
use c_grammar::starts_expr;
use c_reader::{Cursor, Unread, is_mark, many_after, more_after, only};
use c_tree::{
    Declaration, Dimension, Identifier, InitDeclarator, Initialization, Initializer, Place,
    Pointer, Specifiers, Token,
};
use sqlite_items::Items;

/// Whether an initialiser begins with this token.
#[tactic(auto, unfolding(crate::specs::Declarations::init_by, c_reader::specs::Tokens::spelled_by, c_reader::specs::Tokens::is_spelled, c_reader::specs::Tokens::is_kind))]
fn starts_init(token: &Token) -> bool
    ensures { result ≡ spec.starts_init token.now }
{
    starts_expr(token) || is_mark("{", token)
}

impl Rules {
    /// `["const"]`
    #[tactic(auto, using(c_reader::proofs::Gathering::choose_sees), unfolding(crate::specs::Declarations::read_constant))]
    fn constant(self, cursor: &mut Cursor<'_>) -> Result<Option<Place>, Unread>
        ensures { Gives (spec.read_constant self.left cursor.old) result cursor.new }
    {
        if !cursor.sees_word("const") {
            return Ok(None);
        }
        let place = cursor.word_at("const", self.left)?;
        Ok(Some(place))
    }

    /// `"*" ["const"]`
    #[tactic(auto, unfolding(crate::specs::Declarations::read_star))]
    fn star(self, cursor: &mut Cursor<'_>) -> Result<Option<Pointer>, Unread>
        ensures { Gives (spec.read_star self.left cursor.old) result cursor.new }
    {
        let place = cursor.mark_at("*", self.left)?;
        let constant = self.constant(cursor)?;
        Ok(Some(Pointer { place, constant }))
    }

    /// `["*" ["const"]]`
    #[tactic(auto, using(c_reader::proofs::Gathering::choose_sees), unfolding(crate::specs::Declarations::read_pointer))]
    pub fn pointer(self, cursor: &mut Cursor<'_>) -> Result<Option<Pointer>, Unread>
        ensures { Gives (spec.read_pointer self.left cursor.old) result cursor.new }
    {
        if cursor.sees_mark("*") {
            self.star(cursor)
        } else {
            Ok(None)
        }
    }

    /// `"{" init ("," init)* [","] "}"`
    #[tactic(auto, unfolding(crate::specs::Declarations::read_list))]
    fn list<R: Fn(&mut Cursor<'_>) -> Result<Initializer, Unread>>(
        self,
        cursor: &mut Cursor<'_>,
        init: R,
    ) -> Result<Initializer, Unread>
        requires { R.IsAlwaysCallable init }
        ensures { (part : Reader Initializer) → PartsBy part (R.post init) → Gives (spec.read_list self.size self.left part cursor.old) result cursor.new }
    {
        let place = cursor.mark_at("{", self.left)?;
        let first = only(self.alloc, init(cursor)?)?;
        let (parts, comma) = more_after(
            cursor,
            self.size,
            self.left,
            ",",
            |token| starts_init(token),
            init,
            first,
        )?;
        cursor.mark("}", self.left)?;
        Ok(Initializer::List {
            place,
            parts,
            comma,
        })
    }

    /// An initialiser: `expr`, or a list in braces, whose parts are nested in it.
    fn init(self, cursor: &mut Cursor<'_>) -> Result<Initializer, Unread>
        ensures { Gives (spec.read_init self.size self.left cursor.old) result cursor.new }
    {
        if self.left == 0 {
            return Err(Unread::Deep);
        }
        if cursor.sees_mark("{") {
            let nested = self.nested();
            return nested.list(
                cursor,
                |cursor|
                    ensures { Gives (spec.read_init nested.size nested.left cursor.old) result cursor.new }
                { nested.init(cursor) },
            );
        }
        let value = expr(self.alloc, cursor, self.size, self.left)?;
        Ok(Initializer::Expression(value))
    }

    /// `"=" init`
    #[tactic(auto, unfolding(crate::specs::Declarations::read_started))]
    fn started(self, cursor: &mut Cursor<'_>) -> Result<Option<Initialization>, Unread>
        ensures { Gives (spec.read_started self.size self.left cursor.old) result cursor.new }
    {
        let place = cursor.mark_at("=", self.left)?;
        let value = self.init(cursor)?;
        Ok(Some(Initialization { place, value }))
    }

    /// `["=" init]`
    #[tactic(auto, using(c_reader::proofs::Gathering::choose_sees), unfolding(crate::specs::Declarations::read_start))]
    fn start(self, cursor: &mut Cursor<'_>) -> Result<Option<Initialization>, Unread>
        ensures { Gives (spec.read_start self.size self.left cursor.old) result cursor.new }
    {
        if cursor.sees_mark("=") {
            self.started(cursor)
        } else {
            Ok(None)
        }
    }

    /// `("[" [expr] "]")*`
    pub fn bounds(self, cursor: &mut Cursor<'_>) -> Result<Items<Dimension>, Unread>
        ensures { Gives (spec.read_bounds self.size self.left cursor.old) result cursor.new }
    {
        dimensions(self.alloc, cursor, self.size, self.left)
    }

    /// `bounds ["=" init]`, after a declared name.
    #[tactic(auto, unfolding(crate::specs::Declarations::read_declarator_after))]
    fn declarator_after(
        self,
        cursor: &mut Cursor<'_>,
        pointer: Option<Pointer>,
        name: Identifier,
    ) -> Result<InitDeclarator, Unread>
        ensures { Gives (spec.read_declarator_after self.size self.left pointer name cursor.old) result cursor.new }
    {
        let dimensions = self.bounds(cursor)?;
        let start = self.start(cursor)?;
        Ok(InitDeclarator {
            pointer,
            name,
            dimensions,
            start,
        })
    }

    /// `pointer NAME bounds ["=" init]`
    #[tactic(auto, unfolding(crate::specs::Declarations::read_declarator))]
    fn declarator(self, cursor: &mut Cursor<'_>) -> Result<InitDeclarator, Unread>
        ensures { Gives (spec.read_declarator self.size self.left cursor.old) result cursor.new }
    {
        let pointer = self.pointer(cursor)?;
        let name = cursor.name(self.alloc, self.left)?;
        self.declarator_after(cursor, pointer, name)
    }

    /// `"," declarator`
    fn next_declarator(self, cursor: &mut Cursor<'_>) -> Result<InitDeclarator, Unread>
        ensures { Gives (reading.after (read_mark (codes ",") self.left cursor.old) (λ comma. spec.read_declarator self.size self.left)) result cursor.new }
    {
        cursor.mark(",", self.left)?;
        self.declarator(cursor)
    }

    /// What stands after the first declared name: `bounds ["=" init] ("," declarator)*`
    #[tactic(auto, unfolding(crate::specs::Declarations::read_objects_after))]
    pub fn objects_after(
        self,
        cursor: &mut Cursor<'_>,
        specs: Specifiers,
        pointer: Option<Pointer>,
        name: Identifier,
    ) -> Result<Declaration, Unread>
        ensures { Gives (spec.read_objects_after self.size self.left specs pointer name cursor.old) result cursor.new }
    {
        let first = only(self.alloc, self.declarator_after(cursor, pointer, name)?)?;
        let declarators = many_after(
            cursor,
            self.size,
            |token| is_mark(",", token),
            |cursor| self.next_declarator(cursor),
            first,
        )?;
        Ok(Declaration { specs, declarators })
    }

    /// Declaration of a type: `declarator ("," declarator)*`
    #[tactic(auto, unfolding(crate::specs::Declarations::read_objects_of))]
    pub fn objects_of(
        self,
        cursor: &mut Cursor<'_>,
        specs: Specifiers,
    ) -> Result<Declaration, Unread>
        ensures { Gives (spec.read_objects_of self.size self.left specs cursor.old) result cursor.new }
    {
        let pointer = self.pointer(cursor)?;
        let name = cursor.name(self.alloc, self.left)?;
        self.objects_after(cursor, specs, pointer, name)
    }

    /// `specs declarator ("," declarator)*`
    #[tactic(auto, unfolding(crate::specs::Declarations::read_objects))]
    pub fn objects(self, cursor: &mut Cursor<'_>) -> Result<Declaration, Unread>
        ensures { Gives (spec.read_objects self.size self.left cursor.old) result cursor.new }
    {
        let specs = specs(self.alloc, cursor, self.size, self.left)?;
        self.objects_of(cursor, specs)
    }
}
