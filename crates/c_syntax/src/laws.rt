ghost use Rattle.std.specs.Prelude.{◌≡◌, List};
ghost use Rattle.c_tree.specs.declared.token.Token.{Token};
ghost use Rattle.c_tree.specs.Programs.{ProgramTree};
ghost use Rattle.c_reader.specs.Firsts.{NestAlike};
ghost use Rattle.c_syntax.specs.Programs.{IsSpelled, ProgramAt};

/// A list of tokens spells one program at most, however deeply it is nested. The law has an empty body.
pub fn one_program()
    ensures { (a b : ProgramTree) (tokens : List Token) → IsSpelled tokens a → IsSpelled tokens b → a ≡ b }
{}

/// Programs that begin with the same tokens nest these alike: where none of the tokens is nested more deeply than a limit in
/// one, none is in another. So a fault of [`parse`](crate::parse) other than `Deep` shows that no token before its place is
/// too deep in any program that begins with these. The law has an empty body.
pub fn programs_nest_alike()
    ensures { NestAlike ProgramAt 0 }
{}
