//! Rings of neighbours: each list is a ring of its head and its links.

ghost use Rattle.std.specs.Prelude.{◌≡◌, ◌≢◌, ℕ, ◌+◌, ◌*◌, ◌^◌, ◌<◌, ◌≤◌, Some, IfOk, OnErr, OnOk, length, replicate, ◌∷◌, []};
ghost use Rattle.hy_links.specs.Ring.{neighbours_at, HasPlace, Replaces, Joins, Grows, IsNew};

use crate::Link;
use std::alloc::{AllocError, Global};

/// A place of a ring: the head of a list, by the list's number, or a link.
#[derive(Clone, Copy)]
pub enum Place {
    Head(u32),
    Link(Link),
}

/// The two places next to a place in its ring.
#[derive(Clone, Copy)]
pub struct Neighbours {
    pub before: Place,
    pub after: Place,
}

impl Neighbours {
    /// Those of a head alone in its ring.
    fn alone(list: u32) -> Neighbours
        ensures before { result.before ≡ Place.Head list }
        ensures after { result.after ≡ Place.Head list }
    {
        let head = Place::Head(list);
        Neighbours {
            before: head,
            after: head,
        }
    }
}

/// The neighbours of all places: one entry for each list's head, and three for each node's links,
/// of which those that stand in no list are never read.
#[derive(Drop)]
pub struct Rings {
    heads: Vec<Neighbours>,
    links: Vec<Neighbours>,
}

/// Where the neighbours of the link stand among those of all links.
fn index_of(link: Link) -> usize
    requires { link.side < 3 }
    ensures { result ≡ 3 * link.node + link.side }
{
    3 * link.node as usize + link.side as usize
}

impl Rings {
    /// The rings of `lists` empty lists and no nodes.
    pub fn new(alloc: Global, lists: u32) -> Result<Rings, AllocError>
        ensures { IfOk result (λ r. IsNew r lists) }
    {
        let mut heads = Vec::with_capacity(alloc, lists as usize)?;
        for list in 0..lists {
            heads.push(Neighbours::alone(list))?;
        }
        Ok(Rings {
            heads,
            links: Vec::new(alloc),
        })
    }

    /// Adds the ring of the next empty list, whose number is `list`, and the links of a node.
    pub fn grow(&mut self, list: u32) -> Result<(), AllocError>
        requires { list ≡ length self.old.heads.items }
        ensures ok { OnOk result (Grows self.old self.new) }
        ensures heads_kept { OnErr result (self.new.heads.items ≡ self.old.heads.items) }
        ensures links_kept { OnErr result (self.new.links.items ≡ self.old.links.items) }
    {
        let alone = Neighbours::alone(list);
        self.heads.reserve(1)?;
        self.links.extend_from_slice(&[alone, alone, alone])?;
        self.heads.push(alone)?;
        Ok(())
    }

    /// The neighbours of the place.
    pub fn neighbours(&self, place: Place) -> Neighbours
        requires { HasPlace self.now place }
        ensures { neighbours_at self.now place ≡ Some result }
    {
        match place {
            Place::Head(list) => self.heads[list as usize],
            Place::Link(link) => self.links[index_of(link)],
        }
    }

    /// Writes the neighbours of the place.
    fn set(&mut self, place: Place, entry: Neighbours)
        requires { HasPlace self.old place }
        ensures { Replaces self.old self.new place entry }
    {
        match place {
            Place::Head(list) => self.heads[list as usize] = entry,
            Place::Link(link) => self.links[index_of(link)] = entry,
        }
    }

    /// Makes the two places next to each other, `right` after `left`.
    pub fn join(&mut self, left: Place, right: Place)
        requires has_left { HasPlace self.old left }
        requires has_right { HasPlace self.old right }
        ensures { Joins self.old self.new left right }
    {
        let entry = self.neighbours(left);
        self.set(
            left,
            Neighbours {
                after: right,
                ..entry
            },
        );
        let entry = self.neighbours(right);
        self.set(
            right,
            Neighbours {
                before: left,
                ..entry
            },
        );
    }
}
