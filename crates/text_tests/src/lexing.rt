//! Cutting texts into tokens.
use crate::texts::{MOST_BYTES, expect, told};
use asp_defs::{NoMemory, TextFault};
use asp_lex::{Tok, Token, lex};
use std::alloc::Global;
use std::process::Abort;

/// A token's kind, the place of its first byte, and the place behind its last.
type Cut = (Tok, u32, u32);

/// Signs, with the bytes that stand beside them.
const SIGNS: [(&str, &[Cut]); 14] = [
    ("", &[]),
    (" \t\n\r", &[]),
    (":-1", &[(Tok::Arrow, 0, 2), (Tok::Number(1), 2, 3)]),
    (
        "a:-b",
        &[(Tok::Name, 0, 1), (Tok::Arrow, 1, 3), (Tok::Name, 3, 4)],
    ),
    ("::-", &[(Tok::Colon, 0, 1), (Tok::Arrow, 1, 3)]),
    (
        "{a : -b}",
        &[
            (Tok::LeftBrace, 0, 1),
            (Tok::Name, 1, 2),
            (Tok::Colon, 3, 4),
            (Tok::Minus, 5, 6),
            (Tok::Name, 6, 7),
            (Tok::RightBrace, 7, 8),
        ],
    ),
    (
        "p(1..2).",
        &[
            (Tok::Name, 0, 1),
            (Tok::LeftParen, 1, 2),
            (Tok::Number(1), 2, 3),
            (Tok::Dots, 3, 5),
            (Tok::Number(2), 5, 6),
            (Tok::RightParen, 6, 7),
            (Tok::Dot, 7, 8),
        ],
    ),
    (
        "p(1. .2).",
        &[
            (Tok::Name, 0, 1),
            (Tok::LeftParen, 1, 2),
            (Tok::Number(1), 2, 3),
            (Tok::Dot, 3, 4),
            (Tok::Dot, 5, 6),
            (Tok::Number(2), 6, 7),
            (Tok::RightParen, 7, 8),
            (Tok::Dot, 8, 9),
        ],
    ),
    (
        "1...2",
        &[
            (Tok::Number(1), 0, 1),
            (Tok::Dots, 1, 3),
            (Tok::Dot, 3, 4),
            (Tok::Number(2), 4, 5),
        ],
    ),
    ("....", &[(Tok::Dots, 0, 2), (Tok::Dots, 2, 4)]),
    (
        "<><=<>=>=!=",
        &[
            (Tok::NeAngle, 0, 2),
            (Tok::Le, 2, 4),
            (Tok::NeAngle, 4, 6),
            (Tok::Eq, 6, 7),
            (Tok::Ge, 7, 9),
            (Tok::Ne, 9, 11),
        ],
    ),
    (
        "< = >",
        &[(Tok::Lt, 0, 1), (Tok::Eq, 2, 3), (Tok::Gt, 4, 5)],
    ),
    ("=<", &[(Tok::Eq, 0, 1), (Tok::Lt, 1, 2)]),
    (
        ":,;|(){}",
        &[
            (Tok::Colon, 0, 1),
            (Tok::Comma, 1, 2),
            (Tok::Semicolon, 2, 3),
            (Tok::Bar, 3, 4),
            (Tok::LeftParen, 4, 5),
            (Tok::RightParen, 5, 6),
            (Tok::LeftBrace, 6, 7),
            (Tok::RightBrace, 7, 8),
        ],
    ),
];

/// Numbers, and minuses that belong to none.
const NUMBERS: [(&str, &[Cut]); 10] = [
    ("-1", &[(Tok::Number(-1), 0, 2)]),
    ("-a", &[(Tok::Minus, 0, 1), (Tok::Name, 1, 2)]),
    ("- 1", &[(Tok::Minus, 0, 1), (Tok::Number(1), 2, 3)]),
    ("-", &[(Tok::Minus, 0, 1)]),
    ("--1", &[(Tok::Minus, 0, 1), (Tok::Number(-1), 1, 3)]),
    ("X-1", &[(Tok::Variable, 0, 1), (Tok::Number(-1), 1, 3)]),
    ("12a", &[(Tok::Number(12), 0, 2), (Tok::Name, 2, 3)]),
    (
        "2147483647 -2147483648",
        &[
            (Tok::Number(2147483647), 0, 10),
            (Tok::Number(-2147483648), 11, 22),
        ],
    ),
    (
        "007 -0 0",
        &[
            (Tok::Number(7), 0, 3),
            (Tok::Number(0), 4, 6),
            (Tok::Number(0), 7, 8),
        ],
    ),
    (
        "00000000000000000000002147483647",
        &[(Tok::Number(2147483647), 0, 32)],
    ),
];

/// Words, variables and directives.
const WORDS: [(&str, &[Cut]); 9] = [
    (
        "not nota not_ a_b _ X_1",
        &[
            (Tok::Not, 0, 3),
            (Tok::Name, 4, 8),
            (Tok::Name, 9, 13),
            (Tok::Name, 14, 17),
            (Tok::Anonymous, 18, 19),
            (Tok::Variable, 20, 23),
        ],
    ),
    ("noT aB9_z", &[(Tok::Name, 0, 3), (Tok::Name, 4, 9)]),
    ("_X", &[(Tok::Anonymous, 0, 1), (Tok::Variable, 1, 2)]),
    (
        "__a",
        &[
            (Tok::Anonymous, 0, 1),
            (Tok::Anonymous, 1, 2),
            (Tok::Name, 2, 3),
        ],
    ),
    ("%@exists a", &[(Tok::Directive, 0, 8), (Tok::Name, 9, 10)]),
    ("%@", &[(Tok::Directive, 0, 2)]),
    ("%@Exists", &[(Tok::Directive, 0, 2), (Tok::Variable, 2, 8)]),
    (
        "%@existsX",
        &[(Tok::Directive, 0, 8), (Tok::Variable, 8, 9)],
    ),
    ("%@a1", &[(Tok::Directive, 0, 3), (Tok::Number(1), 3, 4)]),
];

/// Comments, and what they leave.
const COMMENTS: [(&str, &[Cut]); 12] = [
    ("a%c\nb", &[(Tok::Name, 0, 1), (Tok::Name, 4, 5)]),
    ("a % c", &[(Tok::Name, 0, 1)]),
    ("%", &[]),
    ("%\n%\r\na", &[(Tok::Name, 5, 6)]),
    ("% \" 2147483648 %*", &[]),
    ("%%@exists\na", &[(Tok::Name, 10, 11)]),
    ("%*a*%b", &[(Tok::Name, 5, 6)]),
    ("%*%*%a", &[(Tok::Name, 5, 6)]),
    ("%***%a", &[(Tok::Name, 5, 6)]),
    ("%* %* *% b", &[(Tok::Name, 9, 10)]),
    ("%* \" *%a", &[(Tok::Name, 7, 8)]),
    ("%*%@exists*%a", &[(Tok::Name, 12, 13)]),
];

/// Texts with lexical refusals.
const REFUSED: [(&str, &str); 24] = [
    ("!", "bad byte at 0"),
    ("!a", "bad byte at 0"),
    ("a!", "bad byte at 1"),
    ("! =", "bad byte at 0"),
    ("\0", "bad byte at 0"),
    ("a \x7f", "bad byte at 2"),
    ("\"a\"", "bad byte at 0"),
    ("a.\n+", "bad byte at 3"),
    ("2147483648", "bad number at 0"),
    (" -2147483649", "bad number at 1"),
    ("p(4294967297)", "bad number at 2"),
    ("p(18446744073709551617)", "bad number at 2"),
    ("-18446744073709551615", "bad number at 0"),
    ("%*", "open comment at 0"),
    ("a %* b", "open comment at 2"),
    ("%*%", "open comment at 0"),
    ("%* *", "open comment at 0"),
    ("%@%*", "open comment at 2"),
    ("\" 2147483648", "bad byte at 0"),
    ("2147483648 \"", "bad number at 0"),
    ("2147483648!", "bad number at 0"),
    ("%* \" 2147483648", "open comment at 0"),
    ("a $ %*", "bad byte at 2"),
    ("-2147483649 %*", "bad number at 0"),
];

/// Bytes that are no text in UTF-8.
const NO_UTF8: &[u8] = b"\xc8";

/// A byte, how often it stands, a last byte, and the one token that they are.
const LONG: [(u8, usize, u8, Cut); 5] = [
    (b'0', 10_000, b'7', (Tok::Number(7), 0, 10_001)),
    (b' ', 1_048_575, b'X', (Tok::Variable, 1_048_575, 1_048_576)),
    (b'a', 1_048_575, b'_', (Tok::Name, 0, 1_048_576)),
    (b'\n', 1_048_575, b'-', (Tok::Minus, 1_048_575, 1_048_576)),
    (b'0', 1_048_575, b'1', (Tok::Number(1), 0, 1_048_576)),
];

/// A byte, how often it stands, and the refusal.
const LONG_REFUSED: [(u8, usize, &str); 2] = [
    (b'9', 10_000, "bad number at 0"),
    (b'1', 1_048_576, "bad number at 0"),
];

/// A byte, how often it stands, and how many tokens there are.
const MANY: [(u8, usize, usize); 2] = [(b'.', 1_048_576, 524_288), (b',', 1_048_576, 1_048_576)];

/// Whether the tokens are these.
fn are_cuts(tokens: &[Token], cuts: &[Cut]) -> bool {
    tokens.len() == cuts.len()
        && tokens
            .iter()
            .zip(cuts)
            .all(|(token, cut)| (token.kind, token.from, token.to) == *cut)
}

/// The tokens of a text. A text that is too long counts as unfinished.
fn tokens_of(alloc: Global, text: &[u8]) -> Result<Vec<Token>, TextFault> {
    if text.len() > MOST_BYTES {
        return Err(TextFault::Unfinished);
    }
    lex(alloc, text)
}

/// Whether a text is cut into these tokens.
fn is_cut_into(alloc: Global, text: &[u8], cuts: &[Cut]) -> bool {
    match tokens_of(alloc, text) {
        Ok(tokens) => are_cuts(tokens.as_slice(), cuts),
        Err(_) => false,
    }
}

/// The words of a text's refusal, or none where it is cut into tokens.
fn refusal_of(alloc: Global, text: &[u8]) -> Result<String, NoMemory> {
    match tokens_of(alloc, text) {
        Ok(_) => Ok(String::new(alloc)),
        Err(fault) => told(alloc, &fault),
    }
}

/// Cuts each text.
fn cut_rows(rt: &impl Abort, alloc: Global, rows: &[(&str, &[Cut])]) {
    for (text, cuts) in rows {
        assert!(rt; is_cut_into(alloc, text.as_bytes(), cuts), "{text}");
    }
}

/// Asks for the refusal of each text.
fn refuse_rows(rt: &impl Abort, alloc: Global, rows: &[(&str, &str)]) -> Result<(), NoMemory> {
    for (text, words) in rows {
        let refusal = refusal_of(alloc, text.as_bytes())?;
        expect(rt, text, refusal.as_str(), words);
    }
    Ok(())
}

/// Cuts each long text.
fn cut_long_rows(
    rt: &impl Abort,
    alloc: Global,
    rows: &[(u8, usize, u8, Cut)],
) -> Result<(), NoMemory> {
    for (fill, count, last, cut) in rows {
        let mut bytes = vec![in alloc; *fill; *count]?;
        bytes.push(*last)?;
        assert!(rt;
            is_cut_into(alloc, bytes.as_slice(), &[*cut]),
            "{count} of {fill}"
        );
    }
    Ok(())
}

/// Asks for the refusal of each long number.
fn refuse_long_rows(
    rt: &impl Abort,
    alloc: Global,
    rows: &[(u8, usize, &str)],
) -> Result<(), NoMemory> {
    for (fill, count, words) in rows {
        let bytes = vec![in alloc; *fill; *count]?;
        let refusal = refusal_of(alloc, bytes.as_slice())?;
        assert!(rt; refusal.as_str() == *words, "{count} of {fill}: {refusal}");
    }
    Ok(())
}

/// Counts the tokens of each long text.
fn count_rows(
    rt: &impl Abort,
    alloc: Global,
    rows: &[(u8, usize, usize)],
) -> Result<(), TextFault> {
    for (fill, count, tokens) in rows {
        let bytes = vec![in alloc; *fill; *count]?;
        let found = tokens_of(alloc, bytes.as_slice())?.len();
        assert!(rt; found == *tokens, "{count} of {fill} are {found}");
    }
    Ok(())
}

#[test]
fn cuts_signs_and_numbers(rt: HostRuntime) {
    cut_rows(&rt, rt.alloc(), &SIGNS);
    cut_rows(&rt, rt.alloc(), &NUMBERS);
}

#[test]
fn cuts_words_and_comments(rt: HostRuntime) {
    cut_rows(&rt, rt.alloc(), &WORDS);
    cut_rows(&rt, rt.alloc(), &COMMENTS);
}

#[test]
fn refuses_texts(rt: HostRuntime) -> Result<(), NoMemory> {
    refuse_rows(&rt, rt.alloc(), &REFUSED)
}

#[test]
fn refuses_bytes(rt: HostRuntime) -> Result<(), NoMemory> {
    let refusal = refusal_of(rt.alloc(), NO_UTF8)?;
    expect(&rt, "no UTF-8", refusal.as_str(), "bad byte at 0");
    Ok(())
}

#[test]
fn cuts_long_tokens(rt: HostRuntime) -> Result<(), NoMemory> {
    cut_long_rows(&rt, rt.alloc(), &LONG)
}

#[test]
fn refuses_long_numbers(rt: HostRuntime) -> Result<(), NoMemory> {
    refuse_long_rows(&rt, rt.alloc(), &LONG_REFUSED)
}

#[test]
fn cuts_many_tokens(rt: HostRuntime) -> Result<(), TextFault> {
    count_rows(&rt, rt.alloc(), &MANY)
}
