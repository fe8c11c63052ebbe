//! Texts that are refused, and why.
use crate::runs::refuse_rows;
use std::test::Fail;

/// Texts, and why they are refused, for their tokens and for their directives.
const REFUSED_PARTS: [(&str, &str); 25] = [
    ("", "no level"),
    (" \t\r\n", "no level"),
    ("% %@exists", "no level"),
    ("%* %@exists *%", "no level"),
    ("#", "bad byte at 0"),
    ("%@exists a:-b+c.", "bad byte at 13"),
    ("%@exists a. !", "bad byte at 12"),
    ("%@exists a b. !", "bad byte at 14"),
    ("2147483648", "bad number at 0"),
    ("%@exists p(-2147483649).", "bad number at 11"),
    ("%@exists a. 99999999999", "bad number at 12"),
    ("%*%", "open comment at 0"),
    ("%@%* a", "open comment at 2"),
    ("%@exists a.%*%*", "open comment at 11"),
    ("a.", "before a level at 0"),
    (" -a.", "before a level at 1"),
    ("%@constraint", "before a level at 0"),
    ("%@ a.", "unknown directive at 0"),
    ("%@Exists", "unknown directive at 0"),
    ("%@existsa.", "unknown directive at 0"),
    ("%@exists a %@x b.", "unknown directive at 11"),
    ("%@exists %@constraint %@all", "unknown directive at 22"),
    (
        "%@exists %@constraint %@exists",
        "after the constraint part at 22",
    ),
    (
        "%@exists %@constraint:-a. %@constraint:-b.",
        "after the constraint part at 26",
    ),
    (
        "%@exists %@constraint:-a. %@forall",
        "after the constraint part at 26",
    ),
];

/// Texts, and why they are refused, for their statements.
const REFUSED_STATEMENTS: [(&str, &str); 48] = [
    ("%@exists a", "unfinished"),
    ("%@exists a:-", "unfinished"),
    ("%@exists {a:b", "unfinished"),
    ("%@exists p(1..", "unfinished"),
    ("%@exists a. b :- X =", "unfinished"),
    ("%@exists -", "unfinished"),
    ("%@exists a. 1", "unfinished"),
    ("%@exists {a}-1", "unfinished"),
    // A bound without a choice, further bounds, and bounds that are names.
    ("%@exists 1.", "unexpected at 10"),
    ("%@exists 1 = 1.", "unexpected at 11"),
    ("%@exists -1 a.", "unexpected at 12"),
    ("%@exists 0 0{}.", "unexpected at 11"),
    ("%@exists 1 2{a}.", "unexpected at 11"),
    ("%@exists {a} 1 2.", "unexpected at 15"),
    ("%@exists n{a}.", "unexpected at 10"),
    ("%@exists {a} n.", "unexpected at 13"),
    ("%@exists 1{a}n:-b.", "unexpected at 13"),
    // A minus before a number, a variable, a parenthesis and a minus.
    ("%@exists - 1.", "unexpected at 11"),
    ("%@exists {- 1}.", "unexpected at 12"),
    ("%@exists a:-- 1=X.", "unexpected at 14"),
    ("%@exists -X.", "unexpected at 10"),
    ("%@exists {-X}.", "unexpected at 11"),
    ("%@exists a:-b(c),-D.", "unexpected at 18"),
    ("%@exists -(a).", "unexpected at 10"),
    ("%@exists a|-(b).", "unexpected at 12"),
    ("%@exists {a : -(b)}.", "unexpected at 15"),
    ("%@exists --a.", "unexpected at 10"),
    ("%@exists {a;--b}.", "unexpected at 13"),
    ("%@exists a:-not --b.", "unexpected at 17"),
    ("%@exists ).", "unexpected at 9"),
    ("%@exists _X.", "unexpected at 9"),
    ("%@exists {1}.", "unexpected at 10"),
    ("%@exists a 1.", "unexpected at 11"),
    ("%@exists a - ", "unexpected at 11"),
    ("%@exists a %@forall", "unexpected at 11"),
    ("%@exists p(- a).", "unexpected at 11"),
    ("%@exists p(b,-c).", "unexpected at 13"),
    ("%@exists p(1. .2).", "unexpected at 12"),
    ("%@exists p(1...2).", "unexpected at 14"),
    ("%@exists p(1..2):-q.", "unexpected at 16"),
    ("%@exists p(1..2)|q.", "unexpected at 16"),
    ("%@exists {a:-b}.", "unexpected at 11"),
    ("%@exists a:-X-1=2.", "unexpected at 13"),
    ("%@exists a:-X=-b.", "unexpected at 14"),
    ("%@exists a:-X=not.", "unexpected at 14"),
    ("%@exists a:-not=1.", "unexpected at 15"),
    ("%@exists a:-not X=1.", "unexpected at 16"),
    ("%@exists a. b c.", "unexpected at 14"),
];

/// Texts, and why they are refused.
const REFUSED: [(&str, &str); 24] = [
    (".", "before a level at 0"),
    (":-a.", "before a level at 0"),
    ("1{a}.", "before a level at 0"),
    ("%@exists a. %@", "unknown directive at 12"),
    ("%@exists a. %@Forall", "unknown directive at 12"),
    ("%@exists a:-%@.", "unknown directive at 12"),
    ("%@exists %@constraint p(%@x).", "unknown directive at 24"),
    ("%@existsX.", "unexpected at 8"),
    (
        "%@exists %@constraint a. %@exists",
        "after the constraint part at 25",
    ),
    ("%@exists %@constraint:-a %@exists", "unexpected at 25"),
    ("%@exists not a.", "unexpected at 9"),
    ("%@exists a:-p(not).", "unexpected at 14"),
    ("%@exists a-", "unexpected at 10"),
    ("%@exists a:--b=c.", "unexpected at 14"),
    ("%@exists a:-b,- ", "unfinished"),
    ("%@exists {a;-b=c}.", "unexpected at 14"),
    ("%@exists %@constraint 2", "unfinished"),
    ("%@exists {a:-1=1}.", "unexpected at 11"),
    ("%@exists p(1..2,X):-q(X).", "unexpected at 18"),
    ("%@exists a. )", "unexpected at 12"),
    // Refusals of tokens come first, also behind others.
    ("%@exists ) 2147483648", "bad number at 11"),
    ("a b. %* c", "open comment at 5"),
    ("b. #", "bad byte at 3"),
    ("%@exists -a. {a} 1. #", "bad byte at 20"),
];

#[test]
fn refuses_tokens_and_directives(rt: HostRuntime) -> Result<(), Fail> {
    refuse_rows(rt.alloc(), &REFUSED_PARTS)
}

#[test]
fn refuses_statements(rt: HostRuntime) -> Result<(), Fail> {
    refuse_rows(rt.alloc(), &REFUSED_STATEMENTS)
}

#[test]
fn refuses_further_texts(rt: HostRuntime) -> Result<(), Fail> {
    refuse_rows(rt.alloc(), &REFUSED)
}
