//! The rules of types' spellings (C11 6.7.2), by the first token at each place.

ghost use Rattle.std.specs.Prelude.{◌++◌, ◌-◌, codes};
ghost use Rattle.c_grammar.specs.Levels.{readers_at};
ghost use Rattle.c_expr.specs.Nested.{AreParts};
ghost use Rattle.c_reader.specs.Outcome.{Gives};
ghost use Rattle.c_reader.specs.Lists as lists;
ghost use Rattle.c_reader.specs.Reading as reading;
ghost use Rattle.c_reader.specs.Tokens.{is_kind as is_kind_of};
ghost use Rattle.c_grammar.specs.Tokens as tokens;
ghost use Rattle.c_grammar.specs.Types as spec;

use crate::sizes::Sizes;
use c_grammar::{sees_type_word, starts_type, type_words};
use c_reader::{
    Cursor, Unread, is_kind, is_word, many, many_after, more_after, only, separated_by,
};
use c_tree::{
    Enumerator, Expr, Identifier, Place, Specifiers, StructDeclaration, StructDeclarator,
    TagSpecifier, TokenKind, TrailingComma, TypeSpecifier,
};
use sqlite_items::Items;
use std::alloc::Global;

/// `"const"*`
#[tactic(auto, unfolding(c_grammar::specs::Types::read_constants))]
fn constants(
    alloc: Global,
    cursor: &mut Cursor<'_>,
    size: usize,
    left: u32,
) -> Result<Items<Place>, Unread>
    ensures { Gives (spec.read_constants size left cursor.old) result cursor.new }
{
    many(
        alloc,
        cursor,
        size,
        |token| is_word("const", token),
        |cursor| cursor.word_at("const", left),
    )
}

/// What the rules of specifiers need where `left` levels of nesting are left, in lists of at most `size` tokens: `expr` reads
/// the expressions of enumerators, and with one level less those of members, and `specs` the specifiers of members.
#[derive(Clone, Copy)]
pub struct TypeRules<E, S> {
    pub alloc: Global,
    pub size: usize,
    pub left: u32,
    pub expr: E,
    pub specs: S,
}

impl<
    E: Fn(Global, &mut Cursor<'_>, usize, u32) -> Result<Expr, Unread> + Copy,
    S: Fn(Global, &mut Cursor<'_>, usize, u32) -> Result<Specifiers, Unread>,
> TypeRules<E, S> {
    /// `NAME dims`, nested in a struct.
    #[tactic(auto, unfolding(c_grammar::specs::Types::read_dimensioned))]
    fn dimensioned(&self, cursor: &mut Cursor<'_>) -> Result<StructDeclarator, Unread>
        requires { AreParts self.now.size self.now.left (E.pre self.now.expr) (E.post self.now.expr) (S.pre self.now.specs) (S.post self.now.specs) }
        ensures { Gives (spec.read_dimensioned self.now.size (self.now.left - 1) (readers_at self.now.size (self.now.left - 1)).expr cursor.old) result cursor.new }
    {
        let name = cursor.name(self.alloc, self.left - 1)?;
        let sizes = Sizes {
            alloc: self.alloc,
            size: self.size,
            left: self.left - 1,
            expr: self.expr,
        };
        let dimensions = sizes.dimensions(cursor)?;
        Ok(StructDeclarator { name, dimensions })
    }

    /// `NAME dims ("," NAME dims)*`, nested in a struct.
    fn some_dimensioned(&self, cursor: &mut Cursor<'_>) -> Result<Items<StructDeclarator>, Unread>
        requires { AreParts self.now.size self.now.left (E.pre self.now.expr) (E.post self.now.expr) (S.pre self.now.specs) (S.post self.now.specs) }
        ensures { Gives (lists.separated_by self.now.size (codes ",") (self.now.left - 1) (spec.read_dimensioned self.now.size (self.now.left - 1) (readers_at self.now.size (self.now.left - 1)).expr) cursor.old) result cursor.new }
    {
        separated_by(
            self.alloc,
            cursor,
            self.size,
            self.left - 1,
            ",",
            |cursor| self.dimensioned(cursor),
        )
    }

    /// `specs NAME dims ("," NAME dims)* ";"`, nested in a struct.
    #[tactic(auto, using(c_grammar::proofs::Depths::left_of), unfolding(c_grammar::specs::Types::read_members_of))]
    fn members_of(&self, cursor: &mut Cursor<'_>) -> Result<StructDeclaration, Unread>
        requires { AreParts self.now.size self.now.left (E.pre self.now.expr) (E.post self.now.expr) (S.pre self.now.specs) (S.post self.now.specs) }
        ensures { Gives (spec.read_members_of self.now.size (readers_at self.now.size (self.now.left - 1)) cursor.old) result cursor.new }
    {
        let specs = (self.specs)(self.alloc, cursor, self.size, self.left - 1)?;
        let names = self.some_dimensioned(cursor)?;
        cursor.mark(";", self.left - 1)?;
        Ok(StructDeclaration { specs, names })
    }

    /// Members after the first.
    fn more_members(
        &self,
        cursor: &mut Cursor<'_>,
        first: Items<StructDeclaration>,
    ) -> Result<Items<StructDeclaration>, Unread>
        requires { AreParts self.now.size self.now.left (E.pre self.now.expr) (E.post self.now.expr) (S.pre self.now.specs) (S.post self.now.specs) }
        ensures { Gives (reading.after (reading.many self.now.size tokens.starts_type (spec.read_members_of self.now.size (readers_at self.now.size (self.now.left - 1))) cursor.old) (λ rest. reading.give (first ++ rest))) result cursor.new }
    {
        many_after(
            cursor,
            self.size,
            |token| starts_type(token),
            |cursor| self.members_of(cursor),
            first,
        )
    }

    /// `"{" member+ "}"`
    #[tactic(auto, using(c_grammar::proofs::Depths::left_of), unfolding(c_grammar::specs::Types::read_struct_body))]
    fn struct_body(&self, cursor: &mut Cursor<'_>) -> Result<Items<StructDeclaration>, Unread>
        requires { AreParts self.now.size self.now.left (E.pre self.now.expr) (E.post self.now.expr) (S.pre self.now.specs) (S.post self.now.specs) }
        ensures { Gives (spec.read_struct_body self.now.size (readers_at self.now.size (self.now.left - 1)) cursor.old) result cursor.new }
    {
        cursor.mark("{", self.left - 1)?;
        let first = self.members_of(cursor)?;
        let members = self.more_members(cursor, only(self.alloc, first)?)?;
        cursor.mark("}", self.left - 1)?;
        Ok(members)
    }

    /// The body of a struct if there is one, after its name.
    #[tactic(auto, using(c_reader::proofs::Gathering::choose_sees), unfolding(c_grammar::specs::Types::read_struct_after))]
    fn struct_after(
        &self,
        cursor: &mut Cursor<'_>,
        place: Place,
        name: Identifier,
    ) -> Result<TagSpecifier, Unread>
        requires { AreParts self.now.size self.now.left (E.pre self.now.expr) (E.post self.now.expr) (S.pre self.now.specs) (S.post self.now.specs) }
        ensures { Gives (spec.read_struct_after self.now.size (readers_at self.now.size (self.now.left - 1)) place name cursor.old) result cursor.new }
    {
        if cursor.sees_mark("{") {
            let members = self.struct_body(cursor)?;
            Ok(TagSpecifier::Struct {
                place,
                tag: Some(name),
                members: Some(members),
            })
        } else {
            Ok(TagSpecifier::Struct {
                place,
                tag: Some(name),
                members: None,
            })
        }
    }

    /// `"struct" (NAME ["{" member+ "}"] | "{" member+ "}")`
    #[tactic(auto, using(c_reader::proofs::Gathering::choose_sees), unfolding(c_grammar::specs::Types::read_struct))]
    fn struct_tag(&self, cursor: &mut Cursor<'_>) -> Result<TagSpecifier, Unread>
        requires { AreParts self.now.size self.now.left (E.pre self.now.expr) (E.post self.now.expr) (S.pre self.now.specs) (S.post self.now.specs) }
        ensures { Gives (spec.read_struct self.now.size self.now.left (readers_at self.now.size (self.now.left - 1)) cursor.old) result cursor.new }
    {
        let place = cursor.word_at("struct", self.left)?;
        if cursor.sees_kind(TokenKind::Name) {
            let name = cursor.name(self.alloc, self.left)?;
            return self.struct_after(cursor, place, name);
        }
        let members = self.struct_body(cursor)?;
        Ok(TagSpecifier::Struct {
            place,
            tag: None,
            members: Some(members),
        })
    }

    /// `["=" expr]`
    #[tactic(auto, using(c_reader::proofs::Gathering::choose_sees), unfolding(c_grammar::specs::Types::read_value))]
    fn value(&self, cursor: &mut Cursor<'_>) -> Result<Option<Expr>, Unread>
        requires { AreParts self.now.size self.now.left (E.pre self.now.expr) (E.post self.now.expr) (S.pre self.now.specs) (S.post self.now.specs) }
        ensures { Gives (spec.read_value self.now.left (readers_at self.now.size self.now.left).expr cursor.old) result cursor.new }
    {
        if cursor.sees_mark("=") {
            cursor.mark("=", self.left)?;
            let value = (self.expr)(self.alloc, cursor, self.size, self.left)?;
            Ok(Some(value))
        } else {
            Ok(None)
        }
    }

    /// `NAME ["=" expr]`
    #[tactic(auto, unfolding(c_grammar::specs::Types::read_enumerator))]
    fn enumerator(&self, cursor: &mut Cursor<'_>) -> Result<Enumerator, Unread>
        requires { AreParts self.now.size self.now.left (E.pre self.now.expr) (E.post self.now.expr) (S.pre self.now.specs) (S.post self.now.specs) }
        ensures { Gives (spec.read_enumerator self.now.left (readers_at self.now.size self.now.left).expr cursor.old) result cursor.new }
    {
        let name = cursor.name(self.alloc, self.left)?;
        let value = self.value(cursor)?;
        Ok(Enumerator { name, value })
    }

    /// Constants after the first, and whether a comma stands after the last.
    fn more_enumerators(
        &self,
        cursor: &mut Cursor<'_>,
        first: Items<Enumerator>,
    ) -> Result<(Items<Enumerator>, TrailingComma), Unread>
        requires { AreParts self.now.size self.now.left (E.pre self.now.expr) (E.post self.now.expr) (S.pre self.now.specs) (S.post self.now.specs) }
        ensures { Gives (reading.after (lists.read_more self.now.size (codes ",") (is_kind_of TokenKind.Name) self.now.left (spec.read_enumerator self.now.left (readers_at self.now.size self.now.left).expr) cursor.old) (λ rest. reading.give (first ++ rest.0, rest.1))) result cursor.new }
    {
        more_after(
            cursor,
            self.size,
            self.left,
            ",",
            |token| is_kind(TokenKind::Name, token),
            |cursor| self.enumerator(cursor),
            first,
        )
    }

    /// `"{" NAME ["=" expr] ("," NAME ["=" expr])* [","] "}"`
    #[tactic(auto, unfolding(c_grammar::specs::Types::read_enum_body))]
    fn enum_body(
        &self,
        cursor: &mut Cursor<'_>,
    ) -> Result<(Items<Enumerator>, TrailingComma), Unread>
        requires { AreParts self.now.size self.now.left (E.pre self.now.expr) (E.post self.now.expr) (S.pre self.now.specs) (S.post self.now.specs) }
        ensures { Gives (spec.read_enum_body self.now.size self.now.left (readers_at self.now.size self.now.left).expr cursor.old) result cursor.new }
    {
        cursor.mark("{", self.left)?;
        let first = self.enumerator(cursor)?;
        let (enumerators, comma) = self.more_enumerators(cursor, only(self.alloc, first)?)?;
        cursor.mark("}", self.left)?;
        Ok((enumerators, comma))
    }

    /// The body of an enum if there is one, after its name.
    #[tactic(auto, using(c_reader::proofs::Gathering::choose_sees), unfolding(c_grammar::specs::Types::read_enum_after))]
    fn enum_after(
        &self,
        cursor: &mut Cursor<'_>,
        place: Place,
        name: Identifier,
    ) -> Result<TagSpecifier, Unread>
        requires { AreParts self.now.size self.now.left (E.pre self.now.expr) (E.post self.now.expr) (S.pre self.now.specs) (S.post self.now.specs) }
        ensures { Gives (spec.read_enum_after self.now.size self.now.left (readers_at self.now.size self.now.left).expr place name cursor.old) result cursor.new }
    {
        if cursor.sees_mark("{") {
            let (enumerators, comma) = self.enum_body(cursor)?;
            Ok(TagSpecifier::Enum {
                place,
                tag: Some(name),
                enumerators: Some(enumerators),
                comma,
            })
        } else {
            Ok(TagSpecifier::Enum {
                place,
                tag: Some(name),
                enumerators: None,
                comma: TrailingComma::Absent,
            })
        }
    }

    /// `"enum" (NAME ["{" list "}"] | "{" list "}")`
    #[tactic(auto, using(c_reader::proofs::Gathering::choose_sees), unfolding(c_grammar::specs::Types::read_enum))]
    fn enum_tag(&self, cursor: &mut Cursor<'_>) -> Result<TagSpecifier, Unread>
        requires { AreParts self.now.size self.now.left (E.pre self.now.expr) (E.post self.now.expr) (S.pre self.now.specs) (S.post self.now.specs) }
        ensures { Gives (spec.read_enum self.now.size self.now.left (readers_at self.now.size self.now.left).expr cursor.old) result cursor.new }
    {
        let place = cursor.word_at("enum", self.left)?;
        if cursor.sees_kind(TokenKind::Name) {
            let name = cursor.name(self.alloc, self.left)?;
            return self.enum_after(cursor, place, name);
        }
        let (enumerators, comma) = self.enum_body(cursor)?;
        Ok(TagSpecifier::Enum {
            place,
            tag: None,
            enumerators: Some(enumerators),
            comma,
        })
    }

    /// A struct or an enum.
    #[tactic(auto, using(c_reader::proofs::Gathering::choose_sees), unfolding(c_grammar::specs::Types::read_tag))]
    pub fn tag(&self, cursor: &mut Cursor<'_>) -> Result<TagSpecifier, Unread>
        requires { AreParts self.now.size self.now.left (E.pre self.now.expr) (E.post self.now.expr) (S.pre self.now.specs) (S.post self.now.specs) }
        ensures { Gives (spec.read_tag self.now.size self.now.left (readers_at self.now.size (self.now.left - 1)) (readers_at self.now.size self.now.left).expr cursor.old) result cursor.new }
    {
        if cursor.sees_word("struct") {
            self.struct_tag(cursor)
        } else {
            self.enum_tag(cursor)
        }
    }

    /// Words, a name that a `typedef` declares, a struct or an enum.
    #[tactic(auto, using(c_reader::proofs::Gathering::choose_sees), unfolding(c_grammar::specs::Types::read_spelling))]
    fn spelling(&self, cursor: &mut Cursor<'_>) -> Result<TypeSpecifier, Unread>
        requires { AreParts self.now.size self.now.left (E.pre self.now.expr) (E.post self.now.expr) (S.pre self.now.specs) (S.post self.now.specs) }
        ensures { Gives (spec.read_spelling self.now.size self.now.left (readers_at self.now.size (self.now.left - 1)) (readers_at self.now.size self.now.left).expr cursor.old) result cursor.new }
    {
        if sees_type_word(cursor) {
            return type_words(self.alloc, cursor, self.size, self.left);
        }
        if cursor.sees_kind(TokenKind::TypeName) {
            let name = cursor.type_name(self.alloc, self.left)?;
            return Ok(TypeSpecifier::TypeName(name));
        }
        let tag = self.tag(cursor)?;
        Ok(TypeSpecifier::TagSpecifier(tag))
    }

    /// `"const"* (words | tag | TYPENAME) "const"*`
    #[tactic(auto, unfolding(c_grammar::specs::Types::read_specs))]
    pub fn specs(&self, cursor: &mut Cursor<'_>) -> Result<Specifiers, Unread>
        requires { AreParts self.now.size self.now.left (E.pre self.now.expr) (E.post self.now.expr) (S.pre self.now.specs) (S.post self.now.specs) }
        ensures { Gives (spec.read_specs self.now.size self.now.left (readers_at self.now.size (self.now.left - 1)) (readers_at self.now.size self.now.left).expr cursor.old) result cursor.new }
    {
        let before = constants(self.alloc, cursor, self.size, self.left)?;
        let kind = self.spelling(cursor)?;
        let after = constants(self.alloc, cursor, self.size, self.left)?;
        Ok(Specifiers {
            before,
            kind,
            after,
        })
    }
}
