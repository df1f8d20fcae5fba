/// What a piece of a text is.
#[derive(Clone, Copy, Debug, PartialEq, Eq)]
pub enum PieceKind {
    /// A letter, then letters, digits and `_`.
    Word,
    /// A run of digits, with the number that it spells.
    Number(i64),
    /// One of `[`, `]`, `,`, `.`, `;`, `-`, `(` and `)`.
    Symbol(u8),
}

/// A piece of a text: `length` bytes from the byte `place` on.
#[derive(Clone, Copy, Debug, PartialEq, Eq)]
pub struct Piece {
    pub place: u32,
    pub length: u32,
    pub kind: PieceKind,
}
