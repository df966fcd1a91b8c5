//! An arena of nodes with three links each, kept in doubly linked lists by index.
//!
//! The lists are rings of neighbours in two vectors, so that every call but `new` takes constant
//! time (`make` over many calls, since the vectors grow). Contracts see an arena as an `Arena`: how
//! many lists it was made with, how many nodes it has, and its lists by their numbers.
//!
//! # Guarantees
//!
//! Each clause stands in `src/lib.rt`; read `specs/Arena.antt`.
//!
//! - `Links::new` makes an arena of as many empty lists as are asked for, at most `MAX_LISTS`, and no node.
//! - `Links::make` adds a node whose links stand in no list, and an empty list; it is full exactly at `MAX_NODES` nodes.
//! - `Links::push` puts a link in front of a list, and all else stays.
//! - `Links::unlink` takes a link out of its list, and all other orders stay.
//! - `Links::walk` gives the first link of a list or the one after a given one, and none exactly at the end.
//! - `Links::move_all` puts all links of one list in front of another's, in order, and leaves the first list empty.
//! - `Links::is_linked_once` says of every arena that each link stands in one list at most, and there once; `proofs/Chains.antt` says which
//!   links stand where after each call.
#![tactic(auto)]

ghost use Rattle.std.specs.Prelude.{◌≡◌, ◌≢◌, ◌+◌, ◌^◌, ◌<◌, ◌≤◌, ◌↔◌, [], ◌∷◌, ◌++◌, replicate, map, slice_get, slice_set, Contains, IfOk, OnErr, MatchOption};
ghost use Rattle.std.specs.Option.{ForSome};
ghost use Rattle.hy_links.specs.Arena.{Arena, chain, HasList, HasLink, Stands, IsLinkedOnce, link_after, max_lists, max_nodes, without};

mod ring;

use ring::{Place, Rings};
use std::alloc::{AllocError, AllocFailed, Global};
use std::marker::Model;

/// The most lists that an arena is made with.
pub const MAX_LISTS: u32 = 1 << 30;

/// The most nodes of an arena.
pub const MAX_NODES: u32 = 1 << 24;

/// One of the three links of a node: `side` is 0, 1 or 2.
#[derive(Clone, Copy, PartialEq, Eq, Debug)]
pub struct Link {
    pub node: u32,
    pub side: u8,
}

/// Why a call gave nothing.
#[derive(Clone, Copy, PartialEq, Eq, Debug)]
pub enum LinkFault {
    /// The arena has `MAX_NODES` nodes.
    Full,
    /// There is no memory left.
    Memory,
}

impl From<AllocError> for LinkFault {
    ghost use Rattle.std.specs.Prelude.{◌≡◌};
    ghost use Rattle.hy_links.specs.declared.LinkFault.{LinkFault};

    ghost from_gives = { λ _ fault. fault ≡ LinkFault.Memory };

    fn from(_: AllocError) -> LinkFault {
        LinkFault::Memory
    }
}

/// Nodes whose links stand in doubly linked lists. Each link stands in one list at most.
#[derive(Drop)]
pub struct Links {
    lists: u32,
    nodes: u32,
    rings: Rings,
}

impl Model for Links {
    ghost use Rattle.hy_links.specs.Arena.{Arena};

    ghost Value = { Arena };

    ghost use Rattle.hy_links.specs.Inside.{arena_of, IsSound};

    ghost view = { arena_of };

    ghost invariant = { IsSound };
}

impl Links {
    /// An arena of `lists` empty lists, at most `MAX_LISTS`, and no node. Time grows with `lists`.
    pub fn new(alloc: Global, lists: u32) -> Result<Links, LinkFault>
        requires { lists ≤ max_lists }
        ensures ok { IfOk result (λ r. r ≡ record { lists = lists; nodes = 0; chains = replicate lists [] }) }
        ensures never_full { result ≢ Err LinkFault.Full }
    {
        let rings = Rings::new(alloc, lists)?;
        Ok(Links {
            lists,
            nodes: 0,
            rings,
        })
    }

    /// A new node, whose links stand in no list, and a new empty list. The node's number is the
    /// number of nodes before; the new list's is that plus the lists that the arena was made with.
    pub fn make(&mut self) -> Result<u32, LinkFault>
        ensures number { IfOk result (λ k. k ≡ self.old.nodes) }
        ensures ok { IfOk result (λ _. self.new ≡ record self.old { nodes = self.old.nodes + 1; chains = self.old.chains ++ [] ∷ [] }) }
        ensures full { (result ≡ Err LinkFault.Full) ↔ (self.old.nodes ≡ max_nodes) }
        ensures err { OnErr result (self.new ≡ self.old) }
    {
        let node = self.nodes;
        if node == MAX_NODES {
            return Err(LinkFault::Full);
        }
        self.rings.grow(self.lists + node)?;
        self.nodes = node + 1;
        Ok(node)
    }

    /// Puts the link in front of the list.
    pub fn push(&mut self, list: u32, link: Link)
        requires list_made { HasList self.old list }
        requires link_made { HasLink self.old link }
        requires free { ¬ Stands self.old link }
        ensures { self.new ≡ record self.old { chains = slice_set self.old.chains list (link ∷ chain self.old list) } }
    {
        let head = Place::Head(list);
        let place = Place::Link(link);
        let first = self.rings.neighbours(head).after;
        self.rings.join(head, place);
        self.rings.join(place, first);
    }

    /// Takes the link out of its list. All that is left keeps its order.
    pub fn unlink(&mut self, link: Link)
        requires { Stands self.old link }
        ensures { self.new ≡ record self.old { chains = map (without link) self.old.chains } }
    {
        let around = self.rings.neighbours(Place::Link(link));
        self.rings.join(around.before, around.after);
    }

    /// The list's first link, or the one after the given link; `None` at the end.
    pub fn walk(&self, list: u32, after: Option<Link>) -> Option<Link>
        requires list_made { HasList self.now list }
        requires standing { ForSome after (λ link. Contains (chain self.now list) link) }
        ensures { MatchOption after (result ≡ slice_get (chain self.now list) 0) (λ link. result ≡ link_after link (chain self.now list)) }
    {
        let place = match after {
            Some(link) => Place::Link(link),
            None => Place::Head(list),
        };
        match self.rings.neighbours(place).after {
            Place::Link(link) => Some(link),
            Place::Head(_) => None,
        }
    }

    /// Puts all of `from`'s links in front of those of `to`, in constant time, and leaves `from`
    /// empty.
    pub fn move_all(&mut self, from: u32, to: u32)
        requires from_made { HasList self.old from }
        requires to_made { HasList self.old to }
        requires apart { from ≢ to }
        ensures { self.new ≡ record self.old { chains = slice_set (slice_set self.old.chains to (chain self.old from ++ chain self.old to)) from [] } }
    {
        let source = Place::Head(from);
        let target = Place::Head(to);
        let moved = self.rings.neighbours(source);
        if let Place::Link(_) = moved.after {
            let first = self.rings.neighbours(target).after;
            self.rings.join(target, moved.after);
            self.rings.join(moved.before, first);
            self.rings.join(source, source);
        }
    }

    /// Of every arena: a list for each number, whose links are of its nodes, each link in one
    /// list at most, and there once.
    pub fn is_linked_once(&self)
        ensures { IsLinkedOnce self.now }
    {
        let _ = &self.rings;
    }
}
