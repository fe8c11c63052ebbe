//! The piece that stands at the front of some bytes: the longest front that is a blank, a comment or a token.
ghost use Rattle.std.specs.Prelude.{◌≡◌, ◌≤◌, ◌∷◌, [], false, length, min, take, option_map, None, IfSome, IsTrue};
ghost use Rattle.std.specs.List.{list_all, prefix_len};
ghost use Rattle.std.specs.Str.Parse.{digits_value};
ghost use Rattle.asp_defs.specs.declared.faults.Which.TheVariants as which;
ghost use Rattle.asp_defs.specs.Limits.{limit};
ghost use Rattle.asp_defs.specs.Tokens.{is_blank, is_lower, is_upper, is_digit, is_name_byte, sign_shape, word_token};
ghost use Rattle.asp_lex.specs.Fronts.{
  IsFront,
  number_shape,
  sign_shape_of,
  long_sign_shape,
  may_begin_sign,
  begins_digit,
  begins_line_comment,
  close_of,
  is_not_line_feed,
};
ghost use Rattle.asp_lex.specs.Slices.{token_of};

use crate::tokens::Tok;

/// What a piece is.
#[derive(Clone, Copy)]
pub enum Shape {
    /// A blank or a comment.
    Gap,
    /// A token of this kind.
    Token(Tok),
    /// A byte that begins nothing.
    BadByte,
    /// A number that 32 bits don't hold.
    BadNumber,
    /// A block comment without an end.
    OpenComment,
}

/// A piece: what it is, and how many bytes it has.
#[derive(Clone, Copy)]
pub struct Piece {
    /// What it is.
    pub shape: Shape,
    /// The count of its bytes.
    pub len: usize,
}

/// A bound that no number in range reaches.
const LARGE: u64 = 10_000_000_000;

fn is_blank(byte: u8) -> bool
    ensures { result ≡ is_blank byte }
{
    byte == b' ' || byte == b'\t' || byte == b'\n' || byte == b'\r'
}

fn is_lower(byte: u8) -> bool
    ensures { result ≡ is_lower byte }
{
    b'a' <= byte && byte <= b'z'
}

fn is_upper(byte: u8) -> bool
    ensures { result ≡ is_upper byte }
{
    b'A' <= byte && byte <= b'Z'
}

fn is_digit(byte: u8) -> bool
    ensures { result ≡ is_digit byte }
{
    b'0' <= byte && byte <= b'9'
}

fn is_name_byte(byte: u8) -> bool
    ensures { result ≡ is_name_byte byte }
{
    is_lower(byte) || is_upper(byte) || is_digit(byte) || byte == b'_'
}

/// How many small letters stand at the front.
fn letters_len(bytes: &[u8]) -> usize
    ensures in_range { result ≤ length bytes.now }
    ensures value { result ≡ prefix_len is_lower bytes.now }
{
    bytes.iter().take_while(|byte| is_lower(**byte)).count()
}

/// How many bytes of names stand at the front.
fn name_len(bytes: &[u8]) -> usize
    ensures in_range { result ≤ length bytes.now }
    ensures value { result ≡ prefix_len is_name_byte bytes.now }
{
    bytes.iter().take_while(|byte| is_name_byte(**byte)).count()
}

/// How many digits stand at the front.
fn digits_len(bytes: &[u8]) -> usize
    ensures in_range { result ≤ length bytes.now }
    ensures value { result ≡ prefix_len is_digit bytes.now }
{
    bytes.iter().take_while(|byte| is_digit(**byte)).count()
}

/// How many bytes stand before the first line feed, or at all.
fn line_len(bytes: &[u8]) -> usize
    ensures in_range { result ≤ length bytes.now }
    ensures value { result ≡ prefix_len is_not_line_feed bytes.now }
{
    bytes.iter().take_while(|byte| **byte != b'\n').count()
}

/// How many bytes stand up to and with the first `*%`.
fn block_len(bytes: &[u8]) -> Option<usize>
    ensures in_range { IfSome result (λ len. len ≤ length bytes.now) }
    ensures value { result ≡ close_of false 0 bytes.now }
{
    let mut star = false;
    for (at, byte) in bytes.iter().enumerate() {
        if star && *byte == b'%' {
            return Some(at + 1);
        }
        star = *byte == b'*';
    }
    None
}

/// The number that a digit and the digits behind it write, or `LARGE` where it is larger.
fn value_of(first: u8, digits: &[u8]) -> u64
    requires first_is_digit { IsTrue (is_digit first) }
    requires are_digits { IsTrue (list_all is_digit digits.now) }
    ensures { result ≡ min (digits_value 10 (first ∷ digits.now)) LARGE }
{
    let mut value = u64::from(first - b'0');
    for digit in digits {
        value = (value * 10 + u64::from(*digit - b'0')).min(LARGE);
    }
    value
}

/// The shape of a number with this value.
fn number_of(value: i64) -> Shape
    ensures { result ≡ number_shape value }
{
    match i32::try_from(value) {
        Ok(value) => Shape::Token(Tok::Number(value)),
        Err(_) => Shape::BadNumber,
    }
}

/// A number without a minus.
fn number(first: u8, rest: &[u8]) -> Piece
    requires begins { IsTrue (is_digit first) }
    requires short { length rest.now ≤ limit which.Bytes }
    ensures { IsFront (first ∷ rest.now) result }
{
    let digits = digits_len(rest);
    let value = value_of(first, &rest[..digits]);
    Piece {
        shape: number_of(value as i64),
        len: 1 + digits,
    }
}

/// A number behind a minus, with its minus.
fn negative_number(first: u8, rest: &[u8]) -> Piece
    requires begins { IsTrue (is_digit first) }
    requires short { length rest.now ≤ limit which.Bytes }
    ensures { IsFront (45 ∷ first ∷ rest.now) result }
{
    let digits = digits_len(rest);
    let value = value_of(first, &rest[..digits]);
    Piece {
        shape: number_of(-(value as i64)),
        len: 2 + digits,
    }
}

/// A minus that begins no number.
fn lone_minus(rest: &[u8]) -> Piece
    requires { begins_digit rest.now ≡ false }
    ensures { IsFront (45 ∷ rest.now) result }
{
    Piece {
        shape: Shape::Token(Tok::Minus),
        len: 1,
    }
}

/// A minus, or the number that it begins.
fn minus(rest: &[u8]) -> Piece
    requires { length rest.now ≤ limit which.Bytes }
    ensures { IsFront (45 ∷ rest.now) result }
{
    let Some((first, behind)) = rest.split_first() else {
        return lone_minus(rest);
    };
    if is_digit(*first) {
        negative_number(*first, behind)
    } else {
        lone_minus(rest)
    }
}

/// The kind of a word with this first letter: `not` or a name.
fn word_kind(first: u8, behind: &[u8]) -> Tok
    ensures { token_of result (first ∷ behind.now) ≡ word_token (first ∷ behind.now) }
{
    if first == b'n' && behind == b"ot".as_slice() {
        Tok::Not
    } else {
        Tok::Name
    }
}

/// A word that begins with a small letter.
fn word(first: u8, rest: &[u8]) -> Piece
    requires begins { IsTrue (is_lower first) }
    requires short { length rest.now ≤ limit which.Bytes }
    ensures { IsFront (first ∷ rest.now) result }
{
    let len = name_len(rest);
    Piece {
        shape: Shape::Token(word_kind(first, &rest[..len])),
        len: 1 + len,
    }
}

/// A variable, which begins with a capital.
fn variable(first: u8, rest: &[u8]) -> Piece
    requires begins { IsTrue (is_upper first) }
    requires short { length rest.now ≤ limit which.Bytes }
    ensures { IsFront (first ∷ rest.now) result }
{
    Piece {
        shape: Shape::Token(Tok::Variable),
        len: 1 + name_len(rest),
    }
}

/// A block comment, by what stands behind its `%*`.
fn block_comment(rest: &[u8]) -> Piece
    requires { length rest.now ≤ limit which.Bytes }
    ensures { IsFront (37 ∷ 42 ∷ rest.now) result }
{
    match block_len(rest) {
        Some(len) => Piece {
            shape: Shape::Gap,
            len: 2 + len,
        },
        None => Piece {
            shape: Shape::OpenComment,
            len: 2 + rest.len(),
        },
    }
}

/// A line comment, by what stands behind its `%`.
fn line_comment(rest: &[u8]) -> Piece
    requires begins { IsTrue (begins_line_comment rest.now) }
    requires short { length rest.now ≤ limit which.Bytes }
    ensures { IsFront (37 ∷ rest.now) result }
{
    Piece {
        shape: Shape::Gap,
        len: 1 + line_len(rest),
    }
}

/// A directive, by what stands behind its `%@`.
fn directive(rest: &[u8]) -> Piece
    requires { length rest.now ≤ limit which.Bytes }
    ensures { IsFront (37 ∷ 64 ∷ rest.now) result }
{
    Piece {
        shape: Shape::Token(Tok::Directive),
        len: 2 + letters_len(rest),
    }
}

/// A directive or a comment, by what stands behind its `%`.
fn percent(rest: &[u8]) -> Piece
    requires { length rest.now ≤ limit which.Bytes }
    ensures { IsFront (37 ∷ rest.now) result }
{
    let Some((mark, behind)) = rest.split_first() else {
        return line_comment(rest);
    };
    if *mark == b'@' {
        directive(behind)
    } else if *mark == b'*' {
        block_comment(behind)
    } else {
        line_comment(rest)
    }
}

/// The sign of one byte.
fn single_sign(byte: u8) -> Option<Tok>
    ensures { option_map (sign_shape_of (byte ∷ [])) result ≡ sign_shape (byte ∷ []) }
{
    match byte {
        b':' => Some(Tok::Colon),
        b'.' => Some(Tok::Dot),
        b',' => Some(Tok::Comma),
        b';' => Some(Tok::Semicolon),
        b'|' => Some(Tok::Bar),
        b'(' => Some(Tok::LeftParen),
        b')' => Some(Tok::RightParen),
        b'{' => Some(Tok::LeftBrace),
        b'}' => Some(Tok::RightBrace),
        b'=' => Some(Tok::Eq),
        b'<' => Some(Tok::Lt),
        b'>' => Some(Tok::Gt),
        b'_' => Some(Tok::Anonymous),
        _ => None,
    }
}

/// The sign of two bytes.
fn double_sign(first: u8, second: u8) -> Option<Tok>
    ensures { option_map (sign_shape_of (first ∷ second ∷ [])) result ≡ sign_shape (first ∷ second ∷ []) }
{
    match (first, second) {
        (b':', b'-') => Some(Tok::Arrow),
        (b'.', b'.') => Some(Tok::Dots),
        (b'!', b'=') => Some(Tok::Ne),
        (b'<', b'>') => Some(Tok::NeAngle),
        (b'<', b'=') => Some(Tok::Le),
        (b'>', b'=') => Some(Tok::Ge),
        _ => None,
    }
}

/// The sign of a byte and the one behind it, if there is one.
fn long_sign(first: u8, rest: &[u8]) -> Option<Tok>
    ensures { option_map (sign_shape_of (first ∷ take 1 rest.now)) result ≡ long_sign_shape first rest.now }
{
    match rest.first() {
        Some(second) => double_sign(first, *second),
        None => None,
    }
}

/// A sign of one byte, or a byte that begins nothing.
fn short_sign(first: u8, rest: &[u8]) -> Piece
    requires begins { IsTrue (may_begin_sign first) }
    requires no_longer { long_sign_shape first rest.now ≡ None }
    ensures { IsFront (first ∷ rest.now) result }
{
    let shape = match single_sign(first) {
        Some(kind) => Shape::Token(kind),
        None => Shape::BadByte,
    };
    Piece { shape, len: 1 }
}

/// A sign, or a byte that begins nothing.
fn sign(first: u8, rest: &[u8]) -> Piece
    requires { IsTrue (may_begin_sign first) }
    ensures { IsFront (first ∷ rest.now) result }
{
    match long_sign(first, rest) {
        Some(kind) => Piece {
            shape: Shape::Token(kind),
            len: 2,
        },
        None => short_sign(first, rest),
    }
}

/// The piece that a byte and the bytes behind it begin with.
pub fn first_piece(first: u8, rest: &[u8]) -> Piece
    requires { length rest.now ≤ limit which.Bytes }
    ensures { IsFront (first ∷ rest.now) result }
{
    if is_lower(first) {
        word(first, rest)
    } else if is_upper(first) {
        variable(first, rest)
    } else if is_digit(first) {
        number(first, rest)
    } else if is_blank(first) {
        Piece {
            shape: Shape::Gap,
            len: 1,
        }
    } else if first == b'%' {
        percent(rest)
    } else if first == b'-' {
        minus(rest)
    } else {
        sign(first, rest)
    }
}
