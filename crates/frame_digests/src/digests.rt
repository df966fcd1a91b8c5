//! Digests of frames.
ghost use Rattle.std.specs.Prelude.{◌≡◌, ◌++◌, ◌+◌, ◌≤◌, ℕ, List, drop, length, take};
ghost use Rattle.sha2.specs.Hashers.{Holds256};
ghost use Rattle.sha2.specs.Sha256.{sha256};
ghost use Rattle.frame_digests.specs.Fed.{Bytes, Fed, digests_of, nothing, with_bytes};

use byte_queue::Queue;
use hy_bits::Role;
use sha2::{Digest, Sha256};

/// Three digests: of P0's frames, of P1's, and of all frames in the order in which they are sent.
#[derive(Drop)]
pub struct Digests {
    pub first: Sha256,
    pub second: Sha256,
    pub both: Sha256,
}

/// How many bytes are fed at a time.
const PIECE: usize = 64;

/// Feeds so many bytes of a queue from place `at` on.
fn feed_piece(hash: &mut Sha256, queue: &Queue, at: usize, size: usize)
    requires few { size ≤ 64 }
    requires within { at + size ≤ length queue.now.items }
    ensures { (m : List ℕ) → Holds256 hash.old m → Holds256 hash.new (m ++ take size (drop at queue.now.items)) }
{
    let mut buffer = [0; PIECE];
    let piece = &mut buffer[..size];
    queue.copy(at, piece);
    hash.update(&*piece);
}

/// Feeds the bytes of a queue from place `from` on, in time linear in their number.
fn feed(hash: &mut Sha256, queue: &Queue, from: usize)
    ensures { (m : List ℕ) → Holds256 hash.old m → Holds256 hash.new (m ++ drop from queue.now.items) }
{
    let mut at = from;
    while at < queue.len() {
        let size = (queue.len() - at).min(PIECE);
        feed_piece(hash, queue, at, size);
        at += size;
    }
}

/// The digest of what was fed.
fn ended(hash: &Sha256) -> [u8; 32]
    ensures { (m : List ℕ) → Holds256 hash.now m → result ≡ sha256 m }
{
    match hash.clone() {
        Ok(hash) => hash.finalize(),
        Err(_) => [0; 32],
    }
}

impl Digests {
    /// Digests that have been fed nothing.
    pub fn new() -> Digests
        ensures { Fed result nothing }
    {
        Digests {
            first: Sha256::new(),
            second: Sha256::new(),
            both: Sha256::new(),
        }
    }

    /// Feeds what a party has put into its outbox from place `from` on, in time linear in its bytes.
    pub fn note(&mut self, role: Role, outbox: &Queue, from: usize)
        ensures { (b : Bytes) → Fed self.old b → Fed self.new (with_bytes role (drop from outbox.now.items) b) }
    {
        match role {
            Role::P0 => feed(&mut self.first, outbox, from),
            Role::P1 => feed(&mut self.second, outbox, from),
        }
        feed(&mut self.both, outbox, from);
    }

    /// The three digests of what was fed.
    pub fn ends(&self) -> [[u8; 32]; 3]
        ensures { (b : Bytes) → Fed self.now b → result ≡ digests_of b }
    {
        [ended(&self.first), ended(&self.second), ended(&self.both)]
    }
}
