//! Frames, put into the outbox piece by piece.
ghost use Rattle.std.specs.Prelude.{◌≡◌, ◌+◌, ◌≤◌, ◌++◌, ◌∷◌, length};
ghost use Rattle.byte_queue.specs.Ring.{spare};
ghost use Rattle.share_core.specs.Bytes.{bytes};
ghost use Rattle.share_core.specs.Instructions.{frame_code, frame_for};

use byte_queue::Queue;
use share_core::{HEAD, InstrKind, write_number};

/// Puts the head of a frame of this kind with so many bytes of payload.
pub(crate) fn put_head(kind: InstrKind, payload: usize, outbox: &mut Queue)
    requires { 5 ≤ spare outbox.old }
    ensures items { outbox.new.items ≡ outbox.old.items ++ frame_code kind ∷ bytes 4 payload }
    ensures room { outbox.new.room ≡ outbox.old.room }
{
    let mut head = [0; HEAD];
    let (code, announced) = head.split_at_mut(1);
    code[0] = kind.frame_code();
    write_number(payload as u64, announced);
    outbox.put(head.as_slice());
}

/// Puts the frame of this kind with the payload.
pub(crate) fn put_frame(kind: InstrKind, payload: &[u8], outbox: &mut Queue)
    requires { length (frame_for kind payload.now) ≤ spare outbox.old }
    ensures items { outbox.new.items ≡ outbox.old.items ++ frame_for kind payload.now }
    ensures room { outbox.new.room ≡ outbox.old.room }
{
    put_head(kind, payload.len(), outbox);
    outbox.put(payload);
}
