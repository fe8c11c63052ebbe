//! Reading texts: each text against its program in one form, or against the words of its refusal.
use crate::forms::form_of;
use crate::texts::{MOST_BYTES, expect, program_of, repeated, told};
use asp_defs::{NoMemory, Part};
use std::alloc::Global;
use std::process::Abort;

/// Texts and their programs.
const PROGRAMS: [(&str, &str); 41] = [
    ("%@exists", "EC"),
    ("%@forall\n", "AC"),
    (" \t\r\n%@exists%@forall%@constraint\n", "EAC"),
    (
        "%@exists a. b. %@exists c. %@forall d. e. %@constraint :- a. :- b.",
        "Ea <- .b <- .Ec <- .Ad <- .e <- .C <- a. <- b.",
    ),
    ("%@exists %@constraint a :- b. c.", "ECa <- b.c <- ."),
    (
        "%@exists a :- not b. b :- not a.",
        "Ea <- not b.b <- not a.C",
    ),
    ("%@exists :-.", "E <- .C"),
    ("%@exists a:-.:-.b.", "Ea <- . <- .b <- .C"),
    ("%@exists p().", "Ep <- .C"),
    ("%@exists p() :- q(), not r().", "Ep <- q,not r.C"),
    ("%@exists a|b;c :- d.", "Ea|b|c <- d.C"),
    ("%@exists p(1) | q(X) | r.", "Ep(1)|q(X)|r <- .C"),
    ("%@exists {}.", "E{} <- .C"),
    ("%@exists {} :- a.", "E{} <- a.C"),
    ("%@exists {} :- .", "E{} <- .C"),
    ("%@exists {a}.", "E{a:;} <- .C"),
    ("%@exists {a;b : ; c:}.", "E{a:;b:;c:;} <- .C"),
    (
        "%@exists {a : b, not c; d : X < 1, 2 >= Y} :- e, f.",
        "E{a:b,not c;d:X<1,2>=Y;} <- e,f.C",
    ),
    (
        "%@exists {a : b = c, d; p(X,Y)}.",
        "E{a:b=c,d;p(X,Y):;} <- .C",
    ),
    (
        "%@exists {p(X) : q(X)} :- not r(X).",
        "E{p(X):q(X);} <- not r(X).C",
    ),
    ("%@exists p(1..2).", "Ep(1..2) <- .C"),
    ("%@exists p(-1..-2,X,a,3..4).", "Ep(-1..-2,X,a,3..4) <- .C"),
    (
        "%@exists p(1, 2..3, 4). q(5).",
        "Ep(1,2..3,4) <- .q(5) <- .C",
    ),
    ("%@exists p(1.. %* to *% 2).", "Ep(1..2) <- .C"),
    (
        "%@exists a :- b = c, b != c, b <> c, b < c, b <= c, b > c, b >= c.",
        "Ea <- b=c,b!=c,b!=c,b<c,b<=c,b>c,b>=c.C",
    ),
    (
        "%@exists a :- X = 1, 1 = X, b, b = X, _ = b.",
        "Ea <- X=1,1=X,b,b=X,_1=b.C",
    ),
    (
        "%@exists a :- b, c(d), not e(1,-2), f.",
        "Ea <- b,c(d),not e(1,-2),f.C",
    ),
    ("%@exists a:-1<2.", "Ea <- 1<2.C"),
    (
        "%@exists notx :- not noty, nota, not_b = X.",
        "Enotx <- not noty,nota,not_b=X.C",
    ),
    (
        "%@exists p(_,_) :- q(_), not r(_), _ < _. s(_).",
        "Ep(_1,_2) <- q(_3),not r(_4),_5<_6.s(_1) <- .C",
    ),
    (
        "%@exists {p(_) : q(_), _ = 1; r(_)} :- s(_). {t(_)}. :- u(_). v(_) | w(_).",
        "E{p(_1):q(_2),_3=1;r(_4):;} <- s(_5).{t(_1):;} <- . <- u(_1).v(_1)|w(_2) <- .C",
    ),
    (
        "%@exists p(_). %@forall p(_). %@constraint :- p(_).",
        "Ep(_1) <- .Ap(_1) <- .C <- p(_1).",
    ),
    ("%@exists % note\na. %* b. %* *% c. % d.", "Ea <- .c <- .C"),
    ("%@exists%* %@forall *%a%\n.", "Ea <- .C"),
    ("%@exists a.%@forall b.%", "Ea <- .Ab <- .C"),
    ("%@exists p(a,B,_,0,-7).", "Ep(a,B,_1,0,-7) <- .C"),
    (
        "%@exists p(2147483647,-2147483648,007).",
        "Ep(2147483647,-2147483648,7) <- .C",
    ),
    ("%@exists aB_9 :- b__(Cd_).", "EaB_9 <- b__(Cd_).C"),
    (
        "%@exists a :- b.\n%@exists c :- d, not e.",
        "Ea <- b.Ec <- d,not e.C",
    ),
    ("%@exists p :- q(X,X), X != -1.", "Ep <- q(X,X),X!=-1.C"),
    ("%@forall {a:b}:-c.%@exists:-a.", "A{a:b;} <- c.E <- a.C"),
];

/// Refusals at the first token, and of directives.
const BEGINNINGS: [(&str, &str); 24] = [
    ("", "no level"),
    (" \n", "no level"),
    ("% a note", "no level"),
    ("%* a note *%\n", "no level"),
    ("a.\n", "before a level at 0"),
    ("\n :- a.", "before a level at 2"),
    ("-a.", "before a level at 0"),
    ("1 {a}.", "before a level at 0"),
    (".", "before a level at 0"),
    ("%@constraint", "before a level at 0"),
    ("%@constraint\n%@exists", "before a level at 0"),
    ("%@foral\n", "unknown directive at 0"),
    ("%@", "unknown directive at 0"),
    ("%@Exists a.", "unknown directive at 0"),
    ("%@existsa.", "unknown directive at 0"),
    ("%@exists a. %@foo b.", "unknown directive at 12"),
    ("%@exists a :- %@foo", "unknown directive at 14"),
    ("%@exists a :- %@foo.", "unknown directive at 14"),
    ("%@exists %@constraint %@x", "unknown directive at 22"),
    ("%@exists %@constraint p(%@x)", "unknown directive at 24"),
    (
        "%@exists\n%@constraint\n%@forall\n",
        "after the constraint part at 22",
    ),
    (
        "%@exists %@constraint %@constraint",
        "after the constraint part at 22",
    ),
    (
        "%@exists %@constraint :- a. %@exists b.",
        "after the constraint part at 28",
    ),
    (
        "%@exists %@constraint a. %@exists",
        "after the constraint part at 25",
    ),
];

/// Texts with a minus before names, and their programs.
const NEGATED: [(&str, &str); 22] = [
    ("%@exists\n-a.\n", "E-a <- .C"),
    ("%@exists - a.", "E-a <- .C"),
    ("%@exists -\n\ta().", "E-a <- .C"),
    ("%@exists -%* b *%a.", "E-a <- .C"),
    ("%@exists a. -b. c.", "Ea <- .-b <- .c <- .C"),
    ("%@exists a | -b.", "Ea|-b <- .C"),
    ("%@exists -a ; -b ; c.", "E-a|-b|c <- .C"),
    ("%@exists a :- -b.", "Ea <- -b.C"),
    ("%@exists -a:--b.", "E-a <- -b.C"),
    ("%@exists a :- b, -c.", "Ea <- b,-c.C"),
    ("%@exists a :- not -b.", "Ea <- not -b.C"),
    ("%@exists a :- not - b, - c.", "Ea <- not -b,-c.C"),
    ("%@exists a :- b(c),-d.", "Ea <- b(c),-d.C"),
    ("%@exists a :- -b(-1), -2 = X.", "Ea <- -b(-1),-2=X.C"),
    (
        "%@exists a :- -b(X,_,c), X < -2.",
        "Ea <- -b(X,_1,c),X<-2.C",
    ),
    ("%@exists {-a}.", "E{-a:;} <- .C"),
    ("%@exists {a ; -b}.", "E{a:;-b:;} <- .C"),
    ("%@exists {a : -b}.", "E{a:-b;} <- .C"),
    ("%@exists {a : b, not -c}.", "E{a:b,not -c;} <- .C"),
    ("%@exists -p(1..3,X,-2).", "E-p(1..3,X,-2) <- .C"),
    ("%@exists -p(_) | -q(_).", "E-p(_1)|-q(_2) <- .C"),
    ("%@exists %@constraint -a. :- -a.", "EC-a <- . <- -a."),
];

/// Texts with bounds of choices, and their programs.
const BOUNDED: [(&str, &str); 17] = [
    ("%@exists\n1 {a} 1.\n", "E1{a:;}1 <- .C"),
    ("%@exists 2{a}1.", "E2{a:;}1 <- .C"),
    ("%@exists -1 {a}.", "E-1{a:;} <- .C"),
    ("%@exists {a} 1.", "E{a:;}1 <- .C"),
    ("%@exists {a}-1.", "E{a:;}-1 <- .C"),
    ("%@exists {} 2.", "E{}2 <- .C"),
    ("%@exists 0 {}.", "E0{} <- .C"),
    ("%@exists -007 {} 00 :- .", "E-7{}0 <- .C"),
    (
        "%@exists 2147483647 {a} -2147483648.",
        "E2147483647{a:;}-2147483648 <- .C",
    ),
    ("%@exists a. 1 {b}.", "Ea <- .1{b:;} <- .C"),
    (
        "%@exists {a} 1. 2 {b}. {c}. 3 {d} 4.",
        "E{a:;}1 <- .2{b:;} <- .{c:;} <- .3{d:;}4 <- .C",
    ),
    ("%@exists 1 {a;b} 2 :- c.", "E1{a:;b:;}2 <- c.C"),
    ("%@exists 1 {a} :- not b.", "E1{a:;} <- not b.C"),
    ("%@exists {a : 1 = X} 3.", "E{a:1=X;}3 <- .C"),
    (
        "%@exists 1{-a : -b; c}1 :- not -d.",
        "E1{-a:-b;c:;}1 <- not -d.C",
    ),
    ("%@forall 1 {p(_)} 2 :- q(_).", "A1{p(_1):;}2 <- q(_2).C"),
    ("%@exists %@constraint 1 {a}.", "EC1{a:;} <- ."),
];

/// A number at the beginning of a statement that no choice follows, further numbers, and bounds that are no numbers.
const BOUNDS: [(&str, &str); 25] = [
    ("%@exists 1 a.", "unexpected at 11"),
    ("%@exists a. 2 b.", "unexpected at 14"),
    ("%@exists 1 -a.", "unexpected at 11"),
    ("%@exists 1.", "unexpected at 10"),
    ("%@exists -5.", "unexpected at 11"),
    ("%@exists -5 :- a.", "unexpected at 12"),
    ("%@exists 1 %@forall", "unexpected at 11"),
    ("%@exists %@constraint 1.", "unexpected at 23"),
    ("%@exists 1 2 {a}.", "unexpected at 11"),
    ("%@exists 1 -2{a}.", "unexpected at 11"),
    ("%@exists a. 3 3 {b}.", "unexpected at 14"),
    ("%@exists {a} 1 2.", "unexpected at 15"),
    ("%@exists 1 {a} 1 -1.", "unexpected at 17"),
    ("%@exists {} 1 1 :- a.", "unexpected at 14"),
    ("%@exists {a} 1 | b.", "unexpected at 15"),
    ("%@exists n {a}.", "unexpected at 11"),
    ("%@exists {a} n.", "unexpected at 13"),
    ("%@exists 1 {a} n :- b.", "unexpected at 15"),
    ("%@exists X {a}.", "unexpected at 9"),
    ("%@exists {a} X.", "unexpected at 13"),
    ("%@exists 1..2 {a}.", "unexpected at 10"),
    ("%@exists {a} 1..2.", "unexpected at 14"),
    ("%@exists - 1 {a}.", "unexpected at 11"),
    ("%@exists {a} - 1.", "unexpected at 13"),
    ("%@exists a :- 1 {b}.", "unexpected at 16"),
];

/// A minus that no name follows, and one whose name isn't that of an atom.
const MINUSES: [(&str, &str); 23] = [
    ("%@exists - 5.", "unexpected at 11"),
    ("%@exists --5.", "unexpected at 10"),
    ("%@exists a :- - 5 = X.", "unexpected at 16"),
    ("%@exists {a : - 1 = X}.", "unexpected at 16"),
    ("%@exists -X.", "unexpected at 10"),
    ("%@exists a :- -X = 1.", "unexpected at 15"),
    ("%@exists {-X}.", "unexpected at 11"),
    ("%@exists -_.", "unexpected at 10"),
    ("%@exists -(a).", "unexpected at 10"),
    ("%@exists a :- -(b).", "unexpected at 15"),
    ("%@exists a | -(b).", "unexpected at 14"),
    ("%@exists --a.", "unexpected at 10"),
    ("%@exists a :- --b.", "unexpected at 15"),
    ("%@exists {a; --b}.", "unexpected at 14"),
    ("%@exists a :- -not b.", "unexpected at 15"),
    ("%@exists -{a}.", "unexpected at 10"),
    ("%@exists -.", "unexpected at 10"),
    ("%@exists a :- -b = c.", "unexpected at 17"),
    ("%@exists a :- -b(c) = d.", "unexpected at 20"),
    ("%@exists {a : -b != c}.", "unexpected at 17"),
    ("%@exists a :- b < -c.", "unexpected at 18"),
    ("%@exists -p(1..2) :- q.", "unexpected at 18"),
    ("%@exists -p(-a).", "unexpected at 12"),
];

/// Tokens that continue no head.
const HEADS: [(&str, &str); 31] = [
    ("%@exists a %@forall", "unexpected at 11"),
    ("%@exists {a; %@forall", "unexpected at 13"),
    ("%@exists a -b.", "unexpected at 11"),
    ("%@exists {a}-b.", "unexpected at 12"),
    ("%@exists a 1.", "unexpected at 11"),
    ("%@exists {1}.", "unexpected at 10"),
    ("%@exists {a; 1}.", "unexpected at 13"),
    ("%@exists {a:b} | c.", "unexpected at 15"),
    ("%@exists {a}; b.", "unexpected at 12"),
    ("%@exists a | {b}.", "unexpected at 13"),
    ("%@exists\na b.\n", "unexpected at 11"),
    ("%@exists .", "unexpected at 9"),
    ("%@exists )", "unexpected at 9"),
    ("%@exists X.", "unexpected at 9"),
    ("%@exists _.", "unexpected at 9"),
    ("%@exists not a.", "unexpected at 9"),
    ("%@exists = .", "unexpected at 9"),
    ("%@exists a. )", "unexpected at 12"),
    ("%@exists a. .", "unexpected at 12"),
    ("%@exists a..b.", "unexpected at 10"),
    ("%@exists a..", "unexpected at 10"),
    ("%@exists a, b.", "unexpected at 10"),
    ("%@exists a = b.", "unexpected at 11"),
    ("%@exists a | .", "unexpected at 13"),
    ("%@exists a : - b.", "unexpected at 11"),
    ("%@exists {a : b; }.", "unexpected at 17"),
    ("%@exists {a, b}.", "unexpected at 11"),
    ("%@exists {a : b : c}.", "unexpected at 16"),
    ("%@exists {a : b.", "unexpected at 15"),
    ("%@exists {not a}.", "unexpected at 10"),
    ("%@exists {a}}.", "unexpected at 12"),
];

/// Tokens that continue no body.
const BODIES: [(&str, &str); 21] = [
    ("%@exists %@constraint :- a %@exists", "unexpected at 27"),
    ("%@exists a :- X = -b.", "unexpected at 18"),
    ("%@exists {a:-b}.", "unexpected at 11"),
    ("%@exists {a:-1=X}.", "unexpected at 11"),
    ("%@exists {a} :- b 1.", "unexpected at 18"),
    ("%@exists a :- b,.", "unexpected at 16"),
    ("%@exists a :- ,b.", "unexpected at 14"),
    ("%@exists a :- b c.", "unexpected at 16"),
    ("%@exists a :- b. c d.", "unexpected at 19"),
    ("%@exists a :- b :- c.", "unexpected at 16"),
    ("%@exists a :- b | c.", "unexpected at 16"),
    ("%@exists a :- b; c.", "unexpected at 15"),
    ("%@exists a :- {b}.", "unexpected at 14"),
    ("%@exists a :- not not b.", "unexpected at 18"),
    ("%@exists a :- not X = Y.", "unexpected at 18"),
    ("%@exists a :- not b = Y.", "unexpected at 20"),
    ("%@exists a :- not = X.", "unexpected at 18"),
    ("%@exists a :- X = not.", "unexpected at 18"),
    ("%@exists a :- X.", "unexpected at 15"),
    ("%@exists a :- 1.", "unexpected at 15"),
    ("%@exists a :- X = Y = Z.", "unexpected at 20"),
];

/// Tokens that continue no atom with arguments.
const ARGUMENTS: [(&str, &str); 25] = [
    ("%@exists a(-b).", "unexpected at 11"),
    ("%@exists a(b,-c).", "unexpected at 13"),
    ("%@exists a :- b(c,-d).", "unexpected at 18"),
    ("%@exists a(b),-c.", "unexpected at 13"),
    ("%@exists a(not).", "unexpected at 11"),
    ("%@exists a :- b(c) = d.", "unexpected at 19"),
    ("%@exists a :- b = c(d).", "unexpected at 19"),
    ("%@exists p(,a).", "unexpected at 11"),
    ("%@exists p(a,).", "unexpected at 13"),
    ("%@exists p(a b).", "unexpected at 13"),
    ("%@exists p(a(b)).", "unexpected at 12"),
    ("%@exists p(a=b).", "unexpected at 12"),
    ("%@exists p(a).q(b)).", "unexpected at 18"),
    ("%@exists p()().", "unexpected at 12"),
    ("%@exists p(1. .2).", "unexpected at 12"),
    ("%@exists p(1..2) :- q.", "unexpected at 17"),
    ("%@exists p(1..2) | q.", "unexpected at 17"),
    ("%@exists p(1..2); q.", "unexpected at 16"),
    ("%@exists q | p(1..2).", "unexpected at 16"),
    ("%@exists q :- p(1..2).", "unexpected at 17"),
    ("%@exists {p(1..2)}.", "unexpected at 13"),
    ("%@exists p(1..X).", "unexpected at 14"),
    ("%@exists p(a..2).", "unexpected at 12"),
    ("%@exists p(1..).", "unexpected at 14"),
    ("%@exists p(1..2..3).", "unexpected at 15"),
];

/// Refusals of the lexer come first, wherever they stand.
const LEXICAL: [(&str, &str); 5] = [
    ("%@exists\np(\"x\").\n", "bad byte at 11"),
    ("%@exists a b. !", "bad byte at 14"),
    ("%@exists\na(2147483648).\n", "bad number at 11"),
    ("%@exists\n%* a.", "open comment at 9"),
    ("a b. %* c", "open comment at 5"),
];

/// Texts that end within a statement.
const UNFINISHED: [&str; 35] = [
    "%@exists a |",
    "%@exists a | b",
    "%@exists a(",
    "%@exists a()",
    "%@exists a(1",
    "%@exists a(1,",
    "%@exists a(1..",
    "%@exists a(1..2",
    "%@exists a(1..2)",
    "%@exists :-",
    "%@exists a :- b,",
    "%@exists a :- X",
    "%@exists a :- X <",
    "%@exists a :- X < 1",
    "%@exists a :- not b",
    "%@exists {}",
    "%@exists {a",
    "%@exists {a;",
    "%@exists -",
    "%@exists -a",
    "%@exists -a(",
    "%@exists {a : b, -",
    "%@exists 1",
    "%@exists 1 {",
    "%@exists {a} 2",
    "%@exists 1 {a} 2 :-",
    "%@exists {a:",
    "%@exists {a:b",
    "%@exists {a:b} :- c",
    "%@exists a. b",
    "%@exists\na :- b",
    "%@exists a",
    "%@exists {",
    "%@exists a. {b} %",
    "%@exists %@constraint :- not",
];

/// The program of a text in one form, or the words of its refusal.
fn answer(alloc: Global, bytes: &[u8]) -> Result<String, NoMemory> {
    match program_of(alloc, bytes) {
        Ok(program) => form_of(alloc, &program),
        Err(fault) => told(alloc, &fault),
    }
}

/// Reads each text.
fn read_rows(rt: &impl Abort, alloc: Global, rows: &[(&str, &str)]) -> Result<(), NoMemory> {
    for (text, expected) in rows {
        let answer = answer(alloc, text.as_bytes())?;
        expect(rt, text, answer.as_str(), expected);
    }
    Ok(())
}

#[test]
fn reads_programs(rt: HostRuntime) -> Result<(), NoMemory> {
    read_rows(&rt, rt.alloc(), &PROGRAMS)
}

#[test]
fn refuses_beginnings_and_directives(rt: HostRuntime) -> Result<(), NoMemory> {
    read_rows(&rt, rt.alloc(), &BEGINNINGS)?;
    read_rows(&rt, rt.alloc(), &LEXICAL)
}

#[test]
fn reads_negated_atoms_and_bounds(rt: HostRuntime) -> Result<(), NoMemory> {
    read_rows(&rt, rt.alloc(), &NEGATED)?;
    read_rows(&rt, rt.alloc(), &BOUNDED)
}

#[test]
fn refuses_bounds_and_minuses(rt: HostRuntime) -> Result<(), NoMemory> {
    read_rows(&rt, rt.alloc(), &BOUNDS)?;
    read_rows(&rt, rt.alloc(), &MINUSES)
}

#[test]
fn refuses_unexpected_tokens(rt: HostRuntime) -> Result<(), NoMemory> {
    read_rows(&rt, rt.alloc(), &HEADS)?;
    read_rows(&rt, rt.alloc(), &BODIES)?;
    read_rows(&rt, rt.alloc(), &ARGUMENTS)
}

/// Reads the beginning of each text.
fn read_beginnings(rt: &impl Abort, alloc: Global, texts: &[&str]) -> Result<(), NoMemory> {
    for text in texts {
        let answer = answer(alloc, text.as_bytes())?;
        expect(rt, text, answer.as_str(), "unfinished");
    }
    Ok(())
}

#[test]
fn refuses_what_is_unfinished(rt: HostRuntime) -> Result<(), NoMemory> {
    read_beginnings(&rt, rt.alloc(), &UNFINISHED)
}

/// How many rules the first level has, if there is one.
fn first_len(levels: &[Part]) -> usize {
    match levels.first() {
        Some(level) => level.rules.len(),
        None => 0,
    }
}

/// The same for the levels of a text, and 0 where the text is refused.
fn count_rules(alloc: Global, text: &[u8]) -> usize {
    match program_of(alloc, text) {
        Ok(program) => first_len(program.levels.as_slice()),
        Err(_) => 0,
    }
}

/// A first part, a second one, how often it stands, a last part, and how many rules the longest text of them has.
const LONGEST: [(&str, &str, u32, &str, usize); 2] = [
    // As many facts as fit: two bytes each behind the directive.
    ("%@exists \n", "a.", 524_283, "", 524_283),
    // Rules of 32 bytes, and one literal more in the last.
    (
        "%@exists  \t\r\n",
        "p(X):-q(X,_),not r(X),_!=X%*a*%.",
        32_767,
        ":-p(-123456789).   ",
        32_768,
    ),
];

/// Counts the rules of each longest text.
fn count_rows(
    rt: &impl Abort,
    alloc: Global,
    rows: &[(&str, &str, u32, &str, usize)],
) -> Result<(), NoMemory> {
    for (first, part, times, last, rules) in rows {
        let bytes = repeated(alloc, first, part, *times, last)?;
        assert!(rt; bytes.len() == MOST_BYTES, "{part}");
        assert!(rt; count_rules(alloc, bytes.as_slice()) == *rules, "{part}");
    }
    Ok(())
}

#[test]
fn reads_the_longest_texts(rt: HostRuntime) -> Result<(), NoMemory> {
    count_rows(&rt, rt.alloc(), &LONGEST)
}
