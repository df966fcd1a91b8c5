//! The objects that lvalues name.

ghost use Rattle.std.specs.Prelude.{◌≡◌};
ghost use Rattle.std.specs.Option.{option_to_list};
ghost use Rattle.c_meaning.specs.Constants as meaning;
ghost use Rattle.c_meaning.specs.Uses.{named_by, effect_assigns};
ghost use Rattle.c_uses.specs.Names.{named_with};
ghost use Rattle.c_uses.specs.Marks.{lvalue_taken};

use c_meaning::{Lvalue, TypedEffect};

/// The object that an lvalue names, if it is nothing but a name.
pub fn named_object(lvalue: &Lvalue) -> Option<u32>
    ensures name { (known : meaning.Known) → result ≡ named_with known lvalue.now }
    ensures list { option_to_list result ≡ named_by lvalue.now }
    ensures taken { option_to_list result ≡ (lvalue_taken lvalue.now).named }
{
    match lvalue {
        Lvalue::Object { object, .. } => Some(*object),
        Lvalue::Indirection { .. } => None,
        Lvalue::Subscript { .. } => None,
        Lvalue::Member { .. } => None,
        Lvalue::Arrow { .. } => None,
    }
}

/// The object that an expression statement assigns to by its name, if it does. It takes constant time.
pub fn assigned_object(effect: &TypedEffect) -> Option<u32>
    ensures { option_to_list result ≡ effect_assigns effect.now }
{
    match effect {
        TypedEffect::Assignment { target, .. } => named_object(target),
        TypedEffect::Compound { target, .. } => named_object(target),
        TypedEffect::Advance { target, .. } => named_object(target),
        TypedEffect::Call(_) => None,
    }
}
