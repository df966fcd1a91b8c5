//! Types that are spelled by a tag alone or by void alone.

ghost use Rattle.std.specs.Prelude.{◌≡◌, Some, None, MatchResult};
ghost use Rattle.c_decl.specs.Bare as spec;

use c_tree::{Place, Specifiers, TagSpecifier, TypeSpecifier, TypeWord};

/// The place of the `void` that a type is spelled by alone.
#[tactic(auto, unfolding(crate::specs::Bare::void_of))]
pub fn void_of(specs: &Specifiers) -> Option<Place>
    ensures { result ≡ spec.void_of specs.now }
{
    if !specs.before.is_empty() || !specs.after.is_empty() {
        return None;
    }
    match &specs.kind {
        TypeSpecifier::Words(place, words) => match words.as_slice() {
            [TypeWord::Void] => Some(*place),
            _ => None,
        },
        _ => None,
    }
}

/// The tag that a type is spelled by alone, or else the type.
#[tactic(auto, unfolding(crate::specs::Bare::tag_of))]
pub fn bare_tag(specs: Specifiers) -> Result<TagSpecifier, Specifiers>
    ensures { MatchResult result (λ tag. spec.tag_of specs ≡ Some tag) (λ same. (same ≡ specs) × (spec.tag_of specs ≡ None)) }
{
    if !specs.before.is_empty() || !specs.after.is_empty() {
        return Err(specs);
    }
    let Specifiers {
        before,
        kind,
        after,
    } = specs;
    match kind {
        TypeSpecifier::TagSpecifier(tag) => Ok(tag),
        kind => Err(Specifiers {
            before,
            kind,
            after,
        }),
    }
}
