//! The scopes of blocks and of statements (C11 6.2.1).

ghost use Rattle.std.specs.Prelude.{◌≡◌, OnOk};
ghost use Rattle.c_heads.specs.Scopes as spec;

use c_typing::Environment;
use hy_bits::Memory;

/// Opens a scope.
///
/// # Errors
///
/// Memory ran out.
pub fn open(env: &mut Environment) -> Result<(), Memory>
    ensures { OnOk result (env.new ≡ spec.within env.old) }
{
    env.names.open()?;
    env.tag_names.open()
}

/// Closes the innermost scope.
pub fn close(env: &mut Environment)
    ensures { env.new ≡ spec.outside env.old }
{
    env.names.close();
    env.tag_names.close();
}
