/// What a token is. The bytes of a directive, a name and a variable are those of its slice.
#[derive(Clone, Copy, Debug, PartialEq, Eq)]
pub enum Tok {
    /// `%@` and the small letters behind it.
    Directive,
    /// The word `not` alone.
    Not,
    /// A small letter, and the letters, digits and underscores behind it.
    Name,
    /// A capital, and the letters, digits and underscores behind it.
    Variable,
    /// `_`, a variable without a name.
    Anonymous,
    /// A number with its value.
    Number(i32),
    /// A `-` that belongs to no number.
    Minus,
    /// `:-`
    Arrow,
    /// `:`
    Colon,
    /// `.`
    Dot,
    /// `..`, the sign of an interval.
    Dots,
    /// `,`
    Comma,
    /// `;`
    Semicolon,
    /// `|`
    Bar,
    /// `(`
    LeftParen,
    /// `)`
    RightParen,
    /// `{`
    LeftBrace,
    /// `}`
    RightBrace,
    /// `=`
    Eq,
    /// `!=`
    Ne,
    /// `<>`, which means the same as `!=`.
    NeAngle,
    /// `<`
    Lt,
    /// `<=`
    Le,
    /// `>`
    Gt,
    /// `>=`
    Ge,
}

/// A token and its slice of the text.
#[derive(Clone, Copy, Debug, PartialEq, Eq)]
pub struct Token {
    /// What it is.
    pub kind: Tok,
    /// The place of its first byte, from 0.
    pub from: u32,
    /// The place behind its last byte.
    pub to: u32,
}
