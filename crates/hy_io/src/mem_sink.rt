ghost use Rattle.std.specs.Prelude.{◌≡◌, ℕ, ◌+◌, ◌-◌, ◌<◌, ◌≤◌, List, ◌++◌, [], length, take, min, Some, IfOk, OnErr, IsOk, true, false};
ghost use Rattle.hy_io.specs.Outside.{next as next_count};
ghost use Rattle.hy_io.specs.Tape.{Tape, fails_now};

use crate::counts::next;
use crate::{Failed, Sink};
use hy_bits::Memory;
use std::alloc::Global;
use std::marker::Model;

/// A sink in memory, of a room that is taken at once. Of its calls with a piece that isn't empty, counted from 0,
/// those whose numbers it was given fail, and all once the room is used up.
///
/// A call costs time linear in the bytes that it takes and in the numbers given.
#[derive(Drop)]
pub struct MemSink {
    taken: Vec<u8>,
    limit: usize,
    step: usize,
    calls: u64,
    fails: Vec<u64>,
    faults: u64,
}

impl Model for MemSink {
    ghost use Rattle.std.specs.Prelude.{◌≤◌, ◌<◌, vec_len, vec_capacity};
    ghost use Rattle.hy_io.specs.Tape.{Tape};

    ghost Value = { Tape };

    ghost view = { λ s. record {
      taken = s.taken.items;
      limit = s.limit;
      step = s.step;
      calls = s.calls;
      fails = s.fails.items;
      faults = s.faults;
    } };

    ghost invariant = { λ s. (0 < s.step) × (s.limit ≤ vec_capacity s.taken) };
}

impl MemSink {
    /// A sink that has room for `limit` bytes and takes at most `step` of them in a call.
    pub fn new(alloc: Global, limit: usize, step: usize, fails: Vec<u64>) -> Result<MemSink, Memory>
        requires { 0 < step }
        ensures { IfOk result (λ tape. tape ≡ record {
          taken = [];
          limit = limit;
          step = step;
          calls = 0;
          fails = fails.items;
          faults = 0;
        }) }
    {
        let taken = Vec::with_capacity(alloc, limit)?;
        Ok(MemSink {
            taken,
            limit,
            step,
            calls: 0,
            fails,
            faults: 0,
        })
    }

    /// The bytes taken so far.
    pub fn taken(&self) -> &[u8]
        ensures { result.now ≡ self.now.taken }
    {
        self.taken.as_slice()
    }
}

impl Sink for MemSink {
    ghost taken = { λ tape. Some tape.taken };

    ghost faults = { λ tape. tape.faults };

    fn write(&mut self, piece: &[u8]) -> Result<usize, Failed>
        ensures empty { length piece.now ≡ 0 → (result ≡ Ok 0) × (self.new ≡ self.old) }
        ensures failed { OnErr result ((fails_now self.old ≡ true) × (self.new ≡ record self.old { calls = next_count self.old.calls; faults = next_count self.old.faults })) }
        ensures ok { 0 < length piece.now → IfOk result (λ count. (fails_now self.old ≡ false)
            × (count ≡ min (min self.old.step (length piece.now)) (self.old.limit - length self.old.taken))
            × (self.new ≡ record self.old { taken = self.old.taken ++ take count piece.now; calls = next_count self.old.calls })) }
        ensures progress { IfOk result (λ count. 0 < length piece.now → 0 < count) }
        ensures faults { self.old.faults ≤ self.new.faults }
    {
        if piece.is_empty() {
            return Ok(0);
        }
        let fails = self.fails.contains(&self.calls) || self.limit <= self.taken.len();
        self.calls = next(self.calls);
        if fails {
            self.faults = next(self.faults);
            return Err(Failed);
        }
        let count = self
            .step
            .min(piece.len())
            .min(self.limit - self.taken.len());
        match self.taken.extend_from_slice(&piece[..count]) {
            Ok(()) => Ok(count),
            Err(_) => unreachable!(),
        }
    }
}
