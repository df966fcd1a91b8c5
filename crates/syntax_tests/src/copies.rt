use c_tree::{Place, Token, TokenKind};
use hy_bits::{Scalar, Text};
use std::test::Fail;

#[test]
fn a_copy_stands_at_its_own_place(rt: HostRuntime) -> Result<(), Fail> {
    let token = Token {
        kind: TokenKind::Integer,
        text: Text::copy_of(rt.alloc(), b"0x2A")?,
        number: 42,
        scalar: Scalar::S32,
        place: Place { line: 3, column: 7 },
    };
    let place = Place { line: 9, column: 1 };
    let copy = token.copy_at(rt.alloc(), place)?;
    assert_eq!(rt; copy.kind, TokenKind::Integer);
    assert_eq!(rt; copy.text.as_bytes(), b"0x2A".as_slice());
    assert_eq!(rt; copy.number, 42);
    assert_eq!(rt; copy.scalar, Scalar::S32);
    assert_eq!(rt; copy.place, place);
    Ok(())
}
