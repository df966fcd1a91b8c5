use share_core::{FrameFault, deframe, frame, read_number, write_number};
use std::test::Fail;

#[test]
fn a_frame_has_its_kind_its_length_and_its_payload(rt: HostRuntime) -> Result<(), Fail> {
    let mut out = [0; 7];
    frame(6, &[2, 9], &mut out);
    assert_eq!(rt; out.as_slice(), [6, 2, 0, 0, 0, 2, 9].as_slice());
    Ok(())
}

#[test]
fn the_first_fault_of_a_frame_is_told(rt: HostRuntime) -> Result<(), Fail> {
    let cases: [(&[u8], Result<(), FrameFault>); 8] = [
        (&[6, 2, 0, 0, 0, 1, 1], Ok(())),
        // more bytes may follow
        (&[6, 2, 0, 0, 0, 1, 1, 9], Ok(())),
        (&[], Err(FrameFault::Short)),
        // the head isn't whole, whatever its kind
        (&[7, 2, 0, 0], Err(FrameFault::Short)),
        // another kind, before another length
        (&[7, 3, 0, 0, 0], Err(FrameFault::Kind)),
        // another length, before too few bytes
        (&[6, 3, 0, 0, 0], Err(FrameFault::Length)),
        (&[6, 2, 1, 0, 0, 1, 1], Err(FrameFault::Length)),
        // the payload isn't whole
        (&[6, 2, 0, 0, 0, 1], Err(FrameFault::Short)),
    ];
    for (bytes, answer) in cases {
        assert_eq!(rt; deframe(bytes, 6, 2), answer);
    }
    Ok(())
}

#[test]
fn numbers_are_written_lowest_byte_first(rt: HostRuntime) -> Result<(), Fail> {
    let mut four = [0; 4];
    write_number(0x0102_0304, &mut four);
    assert_eq!(rt; four.as_slice(), [4, 3, 2, 1].as_slice());
    assert_eq!(rt; read_number(&[4, 3, 2, 1]), 0x0102_0304);
    assert_eq!(rt; read_number(&[0xff; 8]), u64::MAX);
    Ok(())
}
