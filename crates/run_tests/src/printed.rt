//! Texts that `check` prints, and whether their variables are safe.
use crate::runs::{Row, run_rows};
use std::test::Fail;

/// Texts that `check` prints in their canonical form.
const PRINTED: [Row; 19] = [
    ("check", "%@exists p().", "%@exists\np.\n", 0),
    (
        "check",
        "%@exists:-p(X,Y),X<>Y.",
        "%@exists\n:- p(X,Y), X != Y.\n",
        0,
    ),
    ("check", "%@forall a;b|c.", "%@forall\na | b | c.\n", 0),
    (
        "check",
        "%@exists{}.{a:}.{b:not c}.",
        "%@exists\n{}.\n{a}.\n{b : not c}.\n",
        0,
    ),
    ("check", "%@exists:-.a:-.", "%@exists\n:- .\na.\n", 0),
    (
        "check",
        "%@exists p(-1..3,x).",
        "%@exists\np(-1..3,x).\n",
        0,
    ),
    ("check", "%@exists p(3..1).", "%@exists\np(3..1).\n", 0),
    ("check", "%@exists p(007,-0).", "%@exists\np(7,0).\n", 0),
    ("check", "%@exists:-1=1.", "%@exists\n:- 1 = 1.\n", 0),
    ("check", "%@exists:-a=b,c.", "%@exists\n:- a = b, c.\n", 0),
    (
        "check",
        "%@exists notx:-not not_y.",
        "%@exists\nnotx :- not not_y.\n",
        0,
    ),
    (
        "check",
        "%@exists:-p(_,_),not q(1).",
        "%@exists\n:- p(_,_), not q(1).\n",
        0,
    ),
    (
        "check",
        "%@exists:-p(X),1<X,X<=2,X>0,X>=1,X!=2.",
        "%@exists\n:- p(X), 1 < X, X <= 2, X > 0, X >= 1, X != 2.\n",
        0,
    ),
    (
        "check",
        "%@exists a. %@forall{b}:-a. %@constraint:-a,not b.",
        "%@exists\na.\n%@forall\n{b} :- a.\n%@constraint\n:- a, not b.\n",
        0,
    ),
    ("check", "%@exists\na.\n%@constraint", "%@exists\na.\n", 0),
    (
        "check",
        "%@exists % %@forall\na. %* %@x %* *%",
        "%@exists\na.\n",
        0,
    ),
    (
        "check",
        "%@exists\np(not).\n",
        "aspq: unexpected at 11\n",
        3,
    ),
    ("check", "%@exists %*%*%a.", "%@exists\na.\n", 0),
    (
        "check",
        "%@exists p(-2147483648,2147483647).",
        "%@exists\np(-2147483648,2147483647).\n",
        0,
    ),
];

/// Forms that are printed in one way alone.
const FORMS: [Row; 25] = [
    ("check", "%@exists p(1..2).", "%@exists\np(1..2).\n", 0),
    ("check", "%@exists p(1 .. 2).", "%@exists\np(1..2).\n", 0),
    ("check", "%@exists p(-1).", "%@exists\np(-1).\n", 0),
    ("check", "%@exists a:-1=1.", "%@exists\na :- 1 = 1.\n", 0),
    ("check", "%@exists a:--1=1.", "%@exists\na :- -1 = 1.\n", 0),
    (
        "check",
        "%@exists p()|q():-r(),not s().",
        "%@exists\np | q :- r, not s.\n",
        0,
    ),
    (
        "check",
        "%@exists a:-X<>Y,p(X,Y).",
        "%@exists\na :- X != Y, p(X,Y).\n",
        0,
    ),
    (
        "check",
        "%@exists a:-notx=1,not_=nota.",
        "%@exists\na :- notx = 1, not_ = nota.\n",
        0,
    ),
    ("check", "%@exists{}:-a.", "%@exists\n{} :- a.\n", 0),
    (
        "check",
        "%@exists{a:1<2;b:2<>1;c:d=e}.",
        "%@exists\n{a : 1 < 2; b : 2 != 1; c : d = e}.\n",
        0,
    ),
    ("check", "%@exists{a:q(_)}.", "%@exists\n{a : q(_)}.\n", 0),
    (
        "check",
        "%@exists- a:-not - b,-c.",
        "%@exists\n-a :- not -b, -c.\n",
        0,
    ),
    ("check", "%@exists a:--b.", "%@exists\na :- -b.\n", 0),
    (
        "check",
        "%@exists-p(1..2,-1).",
        "%@exists\n-p(1..2,-1).\n",
        0,
    ),
    (
        "check",
        "%@exists\n{a} 1 :- not b.\n",
        "%@exists\n{a} 1 :- not b.\n",
        0,
    ),
    (
        "check",
        "%@exists{a}1:-not b.",
        "%@exists\n{a} 1 :- not b.\n",
        0,
    ),
    (
        "check",
        "%@exists 01{a: -b;-c}-0.",
        "%@exists\n1 {a : -b; -c} 0.\n",
        0,
    ),
    (
        "check",
        "%@exists-2{}3:--d.",
        "%@exists\n-2 {} 3 :- -d.\n",
        0,
    ),
    (
        "check",
        "%@exists a:-q(_),_=1,2=_.",
        "%@exists\na :- q(_), _ = 1, 2 = _.\n",
        0,
    ),
    ("check", "%@exists a. % %* b", "%@exists\na.\n", 0),
    ("check", "%@exists a.%%@forall b.", "%@exists\na.\n", 0),
    ("check", "%@exists a.%* % *%b.", "%@exists\na.\nb.\n", 0),
    ("check", "%@exists %*%@forall*% a.", "%@exists\na.\n", 0),
    (
        "check",
        "%@exists a.%* %@x",
        "aspq: open comment at 11\n",
        3,
    ),
    (
        "check",
        "%@exists %@forall %@constraint",
        "%@exists\n%@forall\n",
        0,
    ),
];

/// What is safe, and what isn't.
const SAFETY: [Row; 22] = [
    (
        "check",
        "%@exists p(Z):-q(X),Y=X,Z=Y.",
        "%@exists\np(Z) :- q(X), Y = X, Z = Y.\n",
        0,
    ),
    (
        "check",
        "%@exists p(Z):-Y=Z,X=Y,q(X).",
        "%@exists\np(Z) :- Y = Z, X = Y, q(X).\n",
        0,
    ),
    (
        "check",
        "%@exists p(X,Y):-X=3,b=Y.",
        "%@exists\np(X,Y) :- X = 3, b = Y.\n",
        0,
    ),
    (
        "check",
        "%@exists p(X):-X=Y.",
        "aspq: unsafe variable X in rule 1\n",
        3,
    ),
    (
        "check",
        "%@exists p:-Y=X,X=Y.",
        "aspq: unsafe variable Y in rule 1\n",
        3,
    ),
    (
        "check",
        "%@exists p:-not q(X).",
        "aspq: unsafe variable X in rule 1\n",
        3,
    ),
    (
        "check",
        "%@exists p:-X<3.",
        "aspq: unsafe variable X in rule 1\n",
        3,
    ),
    (
        "check",
        "%@exists p(X):-q(Y),X!=Y.",
        "aspq: unsafe variable X in rule 1\n",
        3,
    ),
    (
        "check",
        "%@exists p(X):-q(Y),X>=Y,X<=Y.",
        "aspq: unsafe variable X in rule 1\n",
        3,
    ),
    (
        "check",
        "%@exists{p(X):q(X)}.",
        "%@exists\n{p(X) : q(X)}.\n",
        0,
    ),
    (
        "check",
        "%@exists{p(X):q(X);r(X)}.",
        "aspq: unsafe variable X in rule 1\n",
        3,
    ),
    (
        "check",
        "%@exists{r(X);p(X):q(X)}.",
        "aspq: unsafe variable X in rule 1\n",
        3,
    ),
    (
        "check",
        "%@exists{p(X);r(X)}:-q(X).",
        "%@exists\n{p(X); r(X)} :- q(X).\n",
        0,
    ),
    (
        "check",
        "%@exists{p(Y):q(X),Y=X}.",
        "%@exists\n{p(Y) : q(X), Y = X}.\n",
        0,
    ),
    (
        "check",
        "%@exists{p(X):q(X)}:-not r(X).",
        "aspq: unsafe variable X in rule 1\n",
        3,
    ),
    (
        "check",
        "%@exists p(_).",
        "aspq: unsafe variable _ in rule 1\n",
        3,
    ),
    (
        "check",
        "%@exists p:-q(_),not r(_).",
        "aspq: unsafe variable _ in rule 1\n",
        3,
    ),
    (
        "check",
        "%@exists:-q(_),_=1.",
        "%@exists\n:- q(_), _ = 1.\n",
        0,
    ),
    (
        "check",
        "%@exists a. b. %@forall{c}. %@constraint:-a. :-not p(X).",
        "aspq: unsafe variable X in rule 5\n",
        3,
    ),
    (
        "check",
        "%@exists a. %@exists b. %@constraint:-a. c.",
        "aspq: not a constraint: rule 4\n",
        3,
    ),
    (
        "check",
        "%@exists %@constraint c. :-not p(X).",
        "aspq: unsafe variable X in rule 2\n",
        3,
    ),
    (
        "check",
        "%@exists %@constraint{c}. :-p(1,2,3,4,5,6,7,8,9,10,11,12,13,14,15,16,17).",
        "aspq: not a constraint: rule 1\n",
        3,
    ),
];

/// Variables that are safe or not, and the rule that is refused.
const VARIABLES: [Row; 24] = [
    (
        "check",
        "%@exists{a:not q(_)}.",
        "aspq: unsafe variable _ in rule 1\n",
        3,
    ),
    (
        "check",
        "%@exists{p(_):q(_)}.",
        "aspq: unsafe variable _ in rule 1\n",
        3,
    ),
    (
        "check",
        "%@exists a|p(_):-q(_).",
        "aspq: unsafe variable _ in rule 1\n",
        3,
    ),
    (
        "check",
        "%@exists a:-_<3.",
        "aspq: unsafe variable _ in rule 1\n",
        3,
    ),
    (
        "check",
        "%@exists a:-_=_.",
        "aspq: unsafe variable _ in rule 1\n",
        3,
    ),
    (
        "check",
        "%@exists p(X):-q(Y),X>Y.",
        "aspq: unsafe variable X in rule 1\n",
        3,
    ),
    (
        "check",
        "%@exists p(X):-X=Y,Y=Z,not q(Z).",
        "aspq: unsafe variable X in rule 1\n",
        3,
    ),
    (
        "check",
        "%@exists p(X):-Y=1,X=Z,Z=Y.",
        "%@exists\np(X) :- Y = 1, X = Z, Z = Y.\n",
        0,
    ),
    (
        "check",
        "%@exists p:-not q(Z),not r(A).",
        "aspq: unsafe variable Z in rule 1\n",
        3,
    ),
    (
        "check",
        "%@exists p(X,Y):-q(X),not r(Z).",
        "aspq: unsafe variable Y in rule 1\n",
        3,
    ),
    (
        "check",
        "%@exists{p(X):not q(X)}.",
        "aspq: unsafe variable X in rule 1\n",
        3,
    ),
    (
        "check",
        "%@exists{p(X):X<3}.",
        "aspq: unsafe variable X in rule 1\n",
        3,
    ),
    (
        "check",
        "%@exists{p(Z):Z=Y}:-q(X),Y=X.",
        "%@exists\n{p(Z) : Z = Y} :- q(X), Y = X.\n",
        0,
    ),
    (
        "check",
        "%@exists{p(X):q(X);r(Y):q(Y),X=Y}.",
        "%@exists\n{p(X) : q(X); r(Y) : q(Y), X = Y}.\n",
        0,
    ),
    (
        "check",
        "%@exists{a:q(X);p(Y):Y=X}.",
        "aspq: unsafe variable X in rule 1\n",
        3,
    ),
    (
        "check",
        "%@exists{p(X):q(Y)}:-X=Y.",
        "aspq: unsafe variable X in rule 1\n",
        3,
    ),
    // Here the condition and the body's equations make W safe, and X is unsafe by the body alone.
    (
        "check",
        "%@exists{p(W):W=X,q(Z)}:-X=Y,Y=Z.",
        "aspq: unsafe variable X in rule 1\n",
        3,
    ),
    (
        "check",
        "%@exists{p(W):W=X,q(Z)}:-X=Y,Z=V.",
        "aspq: unsafe variable W in rule 1\n",
        3,
    ),
    (
        "check",
        "%@exists{p(W):W=X;a:q(Y)}:-X=Y.",
        "aspq: unsafe variable W in rule 1\n",
        3,
    ),
    (
        "check",
        "%@exists a. b. %@forall c. p(X).",
        "aspq: unsafe variable X in rule 4\n",
        3,
    ),
    (
        "check",
        "%@exists a. %@forall b. %@constraint:-c. :-X<1.",
        "aspq: unsafe variable X in rule 4\n",
        3,
    ),
    (
        "check",
        "%@exists a. %@forall b. p(X). %@constraint:-X<1.",
        "aspq: unsafe variable X in rule 3\n",
        3,
    ),
    (
        "check",
        "%@exists a. %@forall b. %@constraint:-c. {d}.",
        "aspq: not a constraint: rule 4\n",
        3,
    ),
    (
        "check",
        "%@exists %@forall %@constraint:-. a|b.",
        "aspq: not a constraint: rule 2\n",
        3,
    ),
];

#[test]
fn prints_canonical_texts(rt: HostRuntime) -> Result<(), Fail> {
    run_rows(rt.alloc(), &PRINTED)
}

#[test]
fn prints_further_forms(rt: HostRuntime) -> Result<(), Fail> {
    run_rows(rt.alloc(), &FORMS)
}

#[test]
fn judges_safety(rt: HostRuntime) -> Result<(), Fail> {
    run_rows(rt.alloc(), &SAFETY)
}

#[test]
fn judges_further_variables(rt: HostRuntime) -> Result<(), Fail> {
    run_rows(rt.alloc(), &VARIABLES)
}
