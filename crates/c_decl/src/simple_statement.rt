//! What a statement does to one place (C11 6.5.16, 6.5.2.4, 6.5.3.1, 6.8.3).

ghost use Rattle.std.specs.Prelude.{◌≡◌, true};
ghost use Rattle.c_tree.specs.Folds as grammar;
ghost use Rattle.c_reader.specs.Outcome.{Gives};
ghost use Rattle.c_decl.specs.ExpressionStatements as spec;

use crate::rules::Rules;
use crate::tables::{assign_at, sees_assign, sees_step, step_at};
use c_expr::{expr, unary};
use c_reader::{Cursor, Unread};
use c_tree::{Expr, ExpressionStatement};

/// Whether an expression is a call and nothing around it.
fn is_call(expr: &Expr) -> bool
    ensures { result ≡ grammar.is_call expr.now }
{
    matches!(expr, Expr::Call { .. })
}

/// Whether neither a prefix operator, a cast nor an operator between operands is outermost in an expression.
fn is_postfix(expr: &Expr) -> bool
    ensures { result ≡ spec.is_postfix expr.now }
{
    !matches!(
        expr,
        Expr::Unary { .. } | Expr::Cast { .. } | Expr::BinaryChain(..) | Expr::Conditional { .. }
    )
}

impl Rules {
    /// `assign expr`, after what is assigned to.
    #[tactic(auto, unfolding(crate::specs::ExpressionStatements::read_assigned))]
    fn assigned(self, cursor: &mut Cursor<'_>, target: Expr) -> Result<ExpressionStatement, Unread>
        ensures { Gives (spec.read_assigned self.size self.left target cursor.old) result cursor.new }
    {
        let (place, operator) = assign_at(cursor, self.left)?;
        let value = expr(self.alloc, cursor, self.size, self.left)?;
        Ok(ExpressionStatement::Assignment {
            target,
            place,
            operator,
            value,
        })
    }

    /// `step`, after its operand.
    #[tactic(auto, unfolding(crate::specs::ExpressionStatements::read_stepped))]
    fn stepped(self, cursor: &mut Cursor<'_>, target: Expr) -> Result<ExpressionStatement, Unread>
        ensures { Gives (spec.read_stepped self.left target cursor.old) result cursor.new }
    {
        let (place, step) = step_at(cursor, self.left)?;
        Ok(ExpressionStatement::PostfixStep {
            operand: target,
            place,
            step,
        })
    }

    /// `[assign expr | step]`, after a call.
    #[tactic(auto, using(c_reader::proofs::Gathering::choose_sees), unfolding(crate::specs::ExpressionStatements::read_simple_after))]
    fn after_call(self, cursor: &mut Cursor<'_>, call: Expr) -> Result<ExpressionStatement, Unread>
        requires { grammar.is_call call ≡ true }
        ensures { Gives (spec.read_simple_after self.size self.left call cursor.old) result cursor.new }
    {
        if sees_assign(cursor) {
            self.assigned(cursor, call)
        } else if sees_step(cursor) {
            self.stepped(cursor, call)
        } else {
            Ok(ExpressionStatement::Call(call))
        }
    }

    /// What can stand after a unary expression: an assignment; a step, unless a prefix operator or a cast leads the
    /// expression; nothing, where it is a call.
    #[tactic(auto, using(c_reader::proofs::Gathering::choose_sees), unfolding(crate::specs::ExpressionStatements::read_simple_after))]
    fn simple_after(
        self,
        cursor: &mut Cursor<'_>,
        target: Expr,
    ) -> Result<ExpressionStatement, Unread>
        ensures { Gives (spec.read_simple_after self.size self.left target cursor.old) result cursor.new }
    {
        if is_call(&target) {
            self.after_call(cursor, target)
        } else if is_postfix(&target) && sees_step(cursor) {
            self.stepped(cursor, target)
        } else {
            self.assigned(cursor, target)
        }
    }

    /// `step unary`
    #[tactic(auto, unfolding(crate::specs::ExpressionStatements::read_before))]
    fn before(self, cursor: &mut Cursor<'_>) -> Result<ExpressionStatement, Unread>
        ensures { Gives (spec.read_before self.size self.left cursor.old) result cursor.new }
    {
        let (place, step) = step_at(cursor, self.left)?;
        let operand = unary(self.alloc, cursor, self.size, self.left - 1)?;
        Ok(ExpressionStatement::PrefixStep {
            place,
            step,
            operand,
        })
    }

    /// `step unary`, or a unary expression and what stands after it.
    #[tactic(auto, using(c_reader::proofs::Gathering::choose_sees), unfolding(crate::specs::ExpressionStatements::read_simple))]
    pub fn simple(self, cursor: &mut Cursor<'_>) -> Result<ExpressionStatement, Unread>
        ensures { Gives (spec.read_simple self.size self.left cursor.old) result cursor.new }
    {
        if sees_step(cursor) {
            return self.before(cursor);
        }
        let target = unary(self.alloc, cursor, self.size, self.left)?;
        self.simple_after(cursor, target)
    }
}
