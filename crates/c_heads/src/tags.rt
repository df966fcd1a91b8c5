//! Structs and enums that stand alone (C11 6.7.2.3).

ghost use Rattle.std.specs.Prelude.{◌≡◌};
ghost use Rattle.c_typing.specs.Walks.{Tells};
ghost use Rattle.c_heads.specs.Scopes as spec;

use c_conversions::TypeFault;
use c_expressions::tag;
use c_tree::TagSpecifier;
use c_typing::{Environment, struct_alone};
use std::alloc::Global;

/// A struct or an enum that stands alone: `struct s;` declares its tag in the innermost scope.
///
/// # Errors
///
/// The first rule that is broken, at its place, or memory ran out. What is declared is then no longer of use.
pub fn tag_alone(alloc: Global, env: &mut Environment, of: &TagSpecifier) -> Result<(), TypeFault>
    ensures { Tells result env.new (spec.tag_alone of.now env.old) }
{
    match of {
        TagSpecifier::Struct {
            tag: Some(name),
            members: None,
            ..
        } => struct_alone(alloc, env, name),
        _ => {
            tag(alloc, env, of)?;
            Ok(())
        }
    }
}
