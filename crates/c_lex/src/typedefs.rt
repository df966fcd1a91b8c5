ghost use Rattle.std.specs.Prelude.{◌≡◌, ◌+◌, ◌<◌, ◌≤◌, ◌^◌, OnOk, IfOk};
ghost use Rattle.c_lex.specs.Typedefs.{role_of, named};
ghost use Rattle.c_lex.specs.Views.{scope_of};

use crate::names::Names;
use c_tree::{Token, TokenKind};
use hy_bits::Memory;
use std::alloc::Global;

/// What a token is to declarations.
#[derive(Clone, Copy, Debug, PartialEq, Eq)]
pub enum Role {
    Name,
    OpenBrace,
    CloseBrace,
    OpenBracket,
    CloseBracket,
    Semicolon,
    Typedef,
    Other,
}

fn role_in_declarations(token: &Token) -> Role
    ensures { result ≡ role_of token.now }
{
    if token.kind == TokenKind::Name {
        Role::Name
    } else if token.text.is(b"{") {
        Role::OpenBrace
    } else if token.text.is(b"}") {
        Role::CloseBrace
    } else if token.text.is(b"[") {
        Role::OpenBracket
    } else if token.text.is(b"]") {
        Role::CloseBracket
    } else if token.text.is(b";") {
        Role::Semicolon
    } else if token.text.is(b"typedef") {
        Role::Typedef
    } else {
        Role::Other
    }
}

/// Turns the names of types, each from the end of its `typedef` on, into the kind of their own. It takes time linear in
/// the tokens.
pub fn name_types(alloc: Global, tokens: &mut [Token]) -> Result<(), Memory>
    ensures { OnOk result (tokens.new ≡ named tokens.old) }
{
    let mut scope = Scope::new(alloc);
    for token in tokens.iter_mut() {
        let is_type = scope.is_type(token);
        scope = scope.following(alloc, token)?;
        if is_type {
            token.kind = TokenKind::TypeName;
        }
    }
    Ok(())
}

/// What the tokens before a place say.
#[derive(Drop)]
pub struct Scope {
    braces: usize,
    brackets: usize,
    /// A `typedef` outside all braces has no end yet.
    declares: bool,
    /// The last name after it outside braces and brackets.
    last: Option<Vec<u8>>,
    /// The names that are types.
    types: Names,
}

impl Scope {
    ghost use Rattle.std.specs.Prelude.{◌≡◌, ◌+◌, ◌<◌, ◌≤◌, ◌^◌, IfOk};
    ghost use Rattle.c_lex.specs.Typedefs.{role_of};
    ghost use Rattle.c_lex.specs.Scopes.{outermost, is_type as is_a_type, following as after_token, after_name as after_the_name, after_semicolon as after_a_semicolon, after_typedef as after_a_typedef};
    ghost use Rattle.c_lex.specs.Views.{scope_of};

    fn new(alloc: Global) -> Scope
        ensures { scope_of result ≡ outermost }
    {
        Scope {
            braces: 0,
            brackets: 0,
            declares: false,
            last: None,
            types: Names::new(alloc),
        }
    }

    /// Whether a token is the name of a type.
    fn is_type(&self, token: &Token) -> bool
        ensures { result ≡ is_a_type (scope_of self.now) token.now }
    {
        token.kind == TokenKind::Name && self.types.has(token.text.as_bytes())
    }

    /// What the tokens up to and with this one say.
    fn following(mut self, alloc: Global, token: &Token) -> Result<Scope, Memory>
        requires braces { self.braces < 2 ^ 63 }
        requires brackets { self.brackets < 2 ^ 63 }
        ensures scope { IfOk result (λ scope. scope_of scope ≡ after_token (scope_of self) (role_of token.now) token.now) }
        ensures braces { IfOk result (λ scope. scope.braces ≤ self.braces + 1) }
        ensures brackets { IfOk result (λ scope. scope.brackets ≤ self.brackets + 1) }
    {
        match role_in_declarations(token) {
            Role::Name => {
                if self.types.has(token.text.as_bytes()) {
                    Ok(self)
                } else {
                    self.after_name(alloc, token.text.as_bytes())
                }
            }
            Role::OpenBrace => {
                self.braces += 1;
                Ok(self)
            }
            Role::CloseBrace => {
                self.braces = self.braces.saturating_sub(1);
                Ok(self)
            }
            Role::OpenBracket => {
                self.brackets += 1;
                Ok(self)
            }
            Role::CloseBracket => {
                self.brackets = self.brackets.saturating_sub(1);
                Ok(self)
            }
            Role::Semicolon => self.after_semicolon(alloc),
            Role::Typedef => Ok(self.after_typedef()),
            Role::Other => Ok(self),
        }
    }

    /// After a name that is no type's.
    fn after_name(mut self, alloc: Global, name: &[u8]) -> Result<Scope, Memory>
        ensures scope { IfOk result (λ scope. scope_of scope ≡ after_the_name (scope_of self) name.now) }
        ensures braces { IfOk result (λ scope. scope.braces ≡ self.braces) }
        ensures brackets { IfOk result (λ scope. scope.brackets ≡ self.brackets) }
    {
        if self.declares && self.braces == 0 && self.brackets == 0 {
            self.last = Some(Vec::from_slice(alloc, name)?);
        }
        Ok(self)
    }

    /// After a `;`.
    fn after_semicolon(self, alloc: Global) -> Result<Scope, Memory>
        ensures scope { IfOk result (λ scope. scope_of scope ≡ after_a_semicolon (scope_of self)) }
        ensures braces { IfOk result (λ scope. scope.braces ≡ self.braces) }
        ensures brackets { IfOk result (λ scope. scope.brackets ≡ self.brackets) }
    {
        if self.braces != 0 {
            return Ok(self);
        }
        let Scope {
            braces,
            brackets,
            declares: _,
            last,
            mut types,
        } = self;
        if let Some(name) = last {
            types.note(alloc, name.as_slice())?;
        }
        Ok(Scope {
            braces,
            brackets,
            declares: false,
            last: None,
            types,
        })
    }

    /// After a `typedef`.
    fn after_typedef(mut self) -> Scope
        ensures scope { scope_of result ≡ after_a_typedef (scope_of self) }
        ensures braces { result.braces ≡ self.braces }
        ensures brackets { result.brackets ≡ self.brackets }
    {
        if self.braces == 0 {
            self.declares = true;
        }
        self
    }
}
