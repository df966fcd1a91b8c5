//! Where the words of nodes stand.
ghost use Rattle.std.specs.Prelude.{◌≡◌, slice_set};
ghost use Rattle.share_plan.specs.Held.{held_at, held_in, hold_in, make_in, not_held, place_in};

use choice_core::Sharing;

/// Where the word of a node stands: the code of its share at A, and the places of its codes at B and Y, in each sharing that it is held
/// in; and the sharing of the module that makes it.
#[derive(Clone, Copy)]
pub struct Held {
    pub arithmetic: Option<u32>,
    pub boolean: Option<u32>,
    pub yao: Option<u32>,
    pub maker: Option<Sharing>,
}

impl Held {
    ghost use Rattle.share_plan.specs.Held.{held_in, hold_in, make_in, not_held, place_in};

    /// A word that is held nowhere.
    pub fn nowhere() -> Held
        ensures { result ≡ not_held }
    {
        Held {
            arithmetic: None,
            boolean: None,
            yao: None,
            maker: None,
        }
    }

    /// Where the word stands in a sharing.
    pub fn held_in(&self, sharing: Sharing) -> Option<u32>
        ensures { result ≡ held_in sharing self.now }
    {
        match sharing {
            Sharing::Arithmetic => self.arithmetic,
            Sharing::Boolean => self.boolean,
            Sharing::Yao => self.yao,
        }
    }

    /// The same, where it is known to stand there.
    pub fn place_in(&self, sharing: Sharing) -> u32
        ensures { result ≡ place_in sharing self.now }
    {
        self.held_in(sharing).unwrap_or(0)
    }

    /// The same word, held in a sharing too.
    pub fn and_in(self, sharing: Sharing, at: u32) -> Held
        ensures { result ≡ hold_in sharing at self }
    {
        let mut held = self;
        match sharing {
            Sharing::Arithmetic => held.arithmetic = Some(at),
            Sharing::Boolean => held.boolean = Some(at),
            Sharing::Yao => held.yao = Some(at),
        }
        held
    }

    /// The same word, made by a module in a sharing.
    pub fn made_in(self, sharing: Sharing, at: u32) -> Held
        ensures { result ≡ make_in sharing at self }
    {
        let mut held = self.and_in(sharing, at);
        held.maker = Some(sharing);
        held
    }
}

/// Where the word of a node stands.
pub fn held_at(held: &[Held], node: usize) -> Held
    ensures { result ≡ held_at held.now node }
{
    match held.get(node) {
        Some(held) => *held,
        None => Held::nowhere(),
    }
}

/// The word of the node stands in this sharing too.
pub fn hold(held: &mut [Held], node: usize, sharing: Sharing, at: u32)
    ensures { held.new ≡ slice_set held.old node (hold_in sharing at (held_at held.old node)) }
{
    if node < held.len() {
        held[node] = held_at(held, node).and_in(sharing, at);
    }
}

/// A module makes the word of the node in this sharing.
pub fn make(held: &mut [Held], node: usize, sharing: Sharing, at: u32)
    ensures { held.new ≡ slice_set held.old node (make_in sharing at (held_at held.old node)) }
{
    if node < held.len() {
        held[node] = held_at(held, node).made_in(sharing, at);
    }
}
