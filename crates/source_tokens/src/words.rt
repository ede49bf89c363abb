//! Words: what a token is.
use fuun_base::Base;

/// What a token of a source is.
#[derive(Clone, Copy, Debug, PartialEq, Eq)]
pub enum Word {
    /// `->`
    Arrow,
    /// `=`
    Equals,
    /// `:`
    Colon,
    /// `;`
    Semicolon,
    /// `,`
    Comma,
    /// `+`
    Plus,
    /// `*`
    Star,
    /// `!`
    Bang,
    /// `|`
    Bar,
    /// `(`
    Open,
    /// `)`
    Close,
    /// `[`
    OpenBracket,
    /// `]`
    CloseBracket,
    /// `{`
    OpenBrace,
    /// `}`
    CloseBrace,
    /// `<`
    Less,
    /// `>`
    Greater,
    /// One of the letters I, C, F and P.
    Base(Base),
    /// A number in decimal, held at 2^63.
    Number(u64),
    /// A name, by its place among the names met so far: first the reserved names `data`, `rest` and `self`, then the names of
    /// the twenty commands in the order of their table, and then the others as the source has them.
    Name(u64),
    /// A byte that begins no token.
    Other,
}

/// A word of a source, and where it stands.
#[derive(Clone, Copy, Debug, PartialEq, Eq)]
pub struct Token {
    pub word: Word,
    /// How many bytes of the source stand before it.
    pub at: u64,
}
