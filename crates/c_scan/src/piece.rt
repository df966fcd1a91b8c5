use c_tree::{Place, Token};

/// A piece of a text that is no white space.
#[derive(Debug, Drop)]
pub enum Piece {
    /// The end of a line.
    Line,
    /// A word, a literal or a mark.
    Token(Token),
    /// A `#` at this place.
    Hash(Place),
    /// At this place stands a byte that begins no piece, or that a string must not have.
    BadByte(Place),
    /// At this place begins what is no literal.
    BadLiteral(Place),
}

/// What a text begins with, and how many bytes it has.
#[derive(Debug, Drop)]
pub enum Front {
    /// A comment or other white space.
    Blank(usize),
    /// A piece.
    Piece(Piece, usize),
    /// A comment that doesn't end.
    Unclosed,
}

/// The pieces of a text in order, up to a comment that doesn't end.
#[derive(Debug, Drop)]
pub struct Scan {
    pub pieces: Vec<Piece>,
    /// The place of a comment that doesn't end.
    pub unclosed: Option<Place>,
    /// The place after the last byte, or that of a comment that doesn't end.
    pub end: Place,
}
