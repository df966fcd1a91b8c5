use c_scan::{Piece, Scan, scan};
use std::test::Fail;

#[test]
fn a_text_has_its_pieces(rt: HostRuntime) -> Result<(), Fail> {
    let Scan {
        pieces,
        unclosed,
        end,
    } = scan(rt.alloc(), b"ab/* */1\n#\"")?;
    assert!(rt; pieces.len() == 5);
    assert!(rt; matches!(&pieces[0], Piece::Token(_)));
    assert!(rt; matches!(&pieces[1], Piece::Token(_)));
    assert!(rt; matches!(&pieces[2], Piece::Line));
    assert!(rt; matches!(&pieces[3], Piece::Hash(_)));
    assert!(rt; matches!(&pieces[4], Piece::BadLiteral(_)));
    assert!(rt; unclosed.is_none());
    assert_eq!(rt; end.line, 2);
    assert_eq!(rt; end.column, 3);
    Ok(())
}
