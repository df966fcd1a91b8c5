ghost use Rattle.std.specs.Prelude.{◌≡◌, ◌≤◌, ℕ, List, true};
ghost use Rattle.c_grammar.specs.Spelled.{ExprAt};
ghost use Rattle.c_reader.specs.Firsts.{NestAlike};
ghost use Rattle.c_tree.specs.Pieces.{Fits};
ghost use Rattle.c_tree.specs.Folds.{wants_of_expr, wants_of_specs, binds, are_specs};
ghost use Rattle.c_tree.specs.declared.token.Token.{Token};
ghost use Rattle.c_tree.specs.declared.expressions.Expr.{Expr};
ghost use Rattle.c_tree.specs.declared.expressions.Specifiers.{Specifiers};

/// A list of tokens spells one expression at most, however deeply it is nested. The law has an empty body.
#[tactic(auto, using(crate::proofs::Oneness::one_expr))]
pub fn one_expression()
    ensures { (nesting : ℕ) (a b : Expr) (tokens : List Token) → binds a 0 ≡ true → binds b 0 ≡ true → Fits (wants_of_expr a nesting) tokens → Fits (wants_of_expr b nesting) tokens → a ≡ b }
{}

/// A list of tokens spells one type at most. The law has an empty body.
#[tactic(auto, using(crate::proofs::Oneness::one_specs))]
pub fn one_type()
    ensures { (nesting : ℕ) (a b : Specifiers) (tokens : List Token) → are_specs a ≡ true → are_specs b ≡ true → Fits (wants_of_specs a nesting) tokens → Fits (wants_of_specs b nesting) tokens → a ≡ b }
{}

/// Expressions that begin with the same tokens, at the same nesting, nest these alike: where none of the tokens is nested more
/// deeply than a limit in one, none is in another. So a fault other than `Deep` shows that no token before its place is too
/// deep in any expression that begins with these. The law has an empty body.
pub fn expressions_nest_alike()
    ensures { (nesting : ℕ) → NestAlike (ExprAt nesting) nesting }
{}
