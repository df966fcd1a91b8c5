//! Queues.
use byte_queue::Queue;
use std::process::Abort;
use std::test::Fail;

/// Puts numbered bytes and takes them again, a varying count at a time, round and round the ring.
fn go_round(rt: &impl Abort, queue: &mut Queue) {
    let mut put = 0u8;
    let mut taken = 0u8;
    for turn in 0..200usize {
        let mut piece = [0; 7];
        for byte in piece.iter_mut() {
            *byte = put;
            put = put.wrapping_add(1);
        }
        if piece.len() > queue.spare() {
            put = put.wrapping_sub(7);
        } else {
            queue.put(piece.as_slice());
        }
        for _ in 0..turn % 9 {
            if queue.len() > 0 {
                assert_eq!(rt; queue.byte(0), taken);
                taken = taken.wrapping_add(1);
                queue.take(1);
            }
        }
        read_all(rt, queue, taken);
    }
}

/// The bytes go on from this one.
fn read_all(rt: &impl Abort, queue: &Queue, next: u8) {
    let mut buffer = [0; 19];
    if queue.len() <= 19 {
        let bytes = &mut buffer[..queue.len()];
        queue.copy(0, bytes);
        let mut want = next;
        for (place, byte) in bytes.iter().enumerate() {
            assert_eq!(rt; *byte, want, "place {place}");
            want = want.wrapping_add(1);
        }
    }
}

#[test]
fn bytes_go_round_the_ring_in_order(rt: HostRuntime) -> Result<(), Fail> {
    let mut queue = Queue::new(rt.alloc(), 19)?;
    assert_eq!(rt; queue.spare(), 19);
    go_round(&rt, &mut queue);
    let mut none = Queue::new(rt.alloc(), 0)?;
    assert!(rt; none.is_empty());
    if none.spare() == 0 {
        none.put(&[]);
        none.take(0);
    }
    assert_eq!(rt; none.spare(), 0);
    Ok(())
}
