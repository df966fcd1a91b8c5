ghost use Rattle.std.specs.Prelude.{◌≡◌, ℕ, List, true};
ghost use Rattle.c_tree.specs.Pieces.{Fits};
ghost use Rattle.c_tree.specs.Declarations.{wants_of_simple, wants_of_objects, is_simple, are_objects, wants_of_parameters, are_parameters};
ghost use Rattle.c_tree.specs.declared.token.Token.{Token};
ghost use Rattle.c_tree.specs.declared.statements.ExpressionStatement.{ExpressionStatement};
ghost use Rattle.c_tree.specs.declared.statements.Declaration.{Declaration};
ghost use Rattle.c_tree.specs.declared.programs.Parameters.{Parameters};

/// A list of tokens spells one simple statement at most, however deeply it is nested. The law has an empty body.
#[tactic(auto, using(crate::proofs::Oneness::one_simple))]
pub fn one_simple_statement()
    ensures { (nesting : ℕ) (a b : ExpressionStatement) (tokens : List Token) → is_simple a ≡ true → is_simple b ≡ true → Fits (wants_of_simple a nesting) tokens → Fits (wants_of_simple b nesting) tokens → a ≡ b }
{}

/// A list of tokens spells one list of declared objects at most, however deeply it is nested. The law has an empty body.
#[tactic(auto, using(crate::proofs::Oneness::one_objects))]
pub fn one_declaration()
    ensures { (nesting : ℕ) (a b : Declaration) (tokens : List Token) → are_objects a ≡ true → are_objects b ≡ true → Fits (wants_of_objects a nesting) tokens → Fits (wants_of_objects b nesting) tokens → a ≡ b }
{}

/// A list of tokens spells one list of parameters at most, however deeply it is nested. The law has an empty body.
#[tactic(auto, using(crate::proofs::Oneness::one_parameters))]
pub fn one_parameter_list()
    ensures { (nesting : ℕ) (a b : Parameters) (tokens : List Token) → are_parameters a ≡ true → are_parameters b ≡ true → Fits (wants_of_parameters a nesting) tokens → Fits (wants_of_parameters b nesting) tokens → a ≡ b }
{}
