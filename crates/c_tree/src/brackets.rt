//! Expressions without the brackets around them.

ghost use Rattle.std.specs.Prelude.{◌≡◌, false};
ghost use Rattle.c_tree.specs.Brackets.{IsWithin, is_parenthesized};

use crate::expressions::Expr;

impl Expr {
    /// What stands within all the brackets around the expression.
    pub fn without_brackets(&self) -> &Expr
        ensures within { IsWithin result.now self.now }
        ensures bare { is_parenthesized result.now ≡ false }
    {
        match self {
            Expr::Parenthesized(_, inner) => inner.get().without_brackets(),
            _ => self,
        }
    }
}
