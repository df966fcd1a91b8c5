ghost use Rattle.std.specs.Prelude.{◌≡◌, ◌+◌, ◌<◌, ◌≤◌, ◌++◌, ◌↔◌, [], IfOk, IsTrue, length, take, drop, slice_index};
ghost use Rattle.word_queue.specs.Ring.{spare};

use crate::pieces::{read_across, write_ring};
use hy_bits::Memory;
use std::alloc::Global;
use std::marker::Model;

/// A queue of words in a ring of a fixed size. Contracts see it as the list of its words, the one that was put first at the front,
/// and the number of words that there is room for in all.
#[derive(Drop)]
pub struct WordQueue {
    /// The ring.
    ring: Vec<u64>,
    /// The place of the front, and the number of words from it on, which go on at the ring's begin.
    first: usize,
    count: usize,
}

impl Model for WordQueue {
    ghost use Rattle.std.specs.Prelude.{◌≤◌, length, take};
    ghost use Rattle.word_queue.specs.Ring.{Ring, rotated};

    ghost Value = { Ring };

    ghost view = { λ q. record {
      items = take q.count (rotated q.first q.ring.items);
      room = length q.ring.items;
    } };

    ghost invariant = { λ q. (q.first ≤ length q.ring.items) × (q.count ≤ length q.ring.items) };
}

impl WordQueue {
    /// An empty queue with room for `words` words. It takes time linear in `words`.
    ///
    /// # Errors
    ///
    /// Memory ran out.
    pub fn new(alloc: Global, words: usize) -> Result<WordQueue, Memory>
        ensures { IfOk result (λ queue. queue ≡ record { items = []; room = words }) }
    {
        let ring = vec![in alloc; 0; words]?;
        Ok(WordQueue {
            ring,
            first: 0,
            count: 0,
        })
    }

    /// The number of words in the queue.
    pub fn len(&self) -> usize
        ensures { result ≡ length self.now.items }
    {
        self.count
    }

    /// Whether the queue has no words.
    pub fn is_empty(&self) -> bool
        ensures { IsTrue result ↔ (self.now.items ≡ []) }
    {
        self.count == 0
    }

    /// The number of words that there is still room for.
    pub fn spare(&self) -> usize
        ensures { result ≡ spare self.now }
    {
        self.ring.len() - self.count
    }

    /// The word at place `at`, counted from the front.
    pub fn word(&self, at: usize) -> u64
        requires { at < length self.now.items }
        ensures { result ≡ slice_index self.now.items at }
    {
        let behind = self.ring.len() - self.first;
        if at < behind {
            self.ring[self.first + at]
        } else {
            self.ring[at - behind]
        }
    }

    /// Copies the words from place `at` on, counted from the front, into `out`, as many as it has room for. It takes time linear in
    /// them.
    pub fn copy(&self, at: usize, out: &mut [u64])
        requires { at + length out.old ≤ length self.now.items }
        ensures { out.new ≡ take (length out.old) (drop at self.now.items) }
    {
        let (low, high) = self.ring.as_slice().split_at(self.first);
        read_across(high, low, at, out);
    }

    /// Puts `words` at the end, in time linear in their number.
    pub fn put(&mut self, words: &[u64])
        requires { length words.now ≤ spare self.old }
        ensures items { self.new.items ≡ self.old.items ++ words.now }
        ensures room { self.new.room ≡ self.old.room }
    {
        write_ring(self.ring.as_mut_slice(), self.first, self.count, words);
        self.count += words.len();
    }

    /// Drops the first `count` words, in constant time.
    pub fn take(&mut self, count: usize)
        requires { count ≤ length self.old.items }
        ensures items { self.new.items ≡ drop count self.old.items }
        ensures room { self.new.room ≡ self.old.room }
    {
        let behind = self.ring.len() - self.first;
        self.first = if count < behind {
            self.first + count
        } else {
            count - behind
        };
        self.count -= count;
    }
}
