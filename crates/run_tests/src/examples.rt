//! The texts of the repository's folder `examples`, the conformant plan first and the others by their names: a test can't read
//! files, so a change of one is made here too.
use crate::rows::expect;
use crate::runs::{check_run, is_run, run_text};
use asp_top::Status;
use std::alloc::Global;
use std::test::Fail;

/// A text, and what `solve` says of it, with the exit status.
type Example = (&'static str, &'static str, u8);

const EXAMPLES: [Example; 25] = [
    (
        "% A robot stands in one of three cells of a corridor and can't see which one. A step takes it to the next cell on the
% left or on the right; at a wall it stays where it is.
% Is there a plan of two steps after which it stands in cell 1, wherever it stood at first?
% Level 1 (exists) chooses a direction for each step, level 2 (forall) the cell where the robot stands at first.
% Yes, and `solve` says COHERENT: left and left again.

%@exists
cell(1..3).
time(1..2).
next(1,2). next(2,3).
step(left,1,1). step(left,2,1). step(left,3,2).
step(right,1,2). step(right,2,3). step(right,3,3).
% The plan: one direction at each time.
{plan(D,T) : step(D,_,_)} :- time(T).
:- time(T), not plan(left,T), not plan(right,T).
:- plan(left,T), plan(right,T).

%@forall
% The first cell may be any one, and nothing else is open.
at(1,1) | at(2,1) | at(3,1).
at(C,U) :- at(B,T), next(T,U), plan(D,T), step(D,B,C).

%@constraint
:- not at(1,3).
",
        "COHERENT\n",
        10,
    ),
    (
        "% Arguments attack one another. A set of arguments is admissible if no member attacks another, and if each attacker of a member is
% attacked by a member. A preferred extension is a largest admissible set. Does argument d belong to every preferred extension?
% Level 1 (forall) chooses an admissible set, level 2 (exists) one that has all of it, and is larger if d isn't in the first one.
% Yes, and `solve` says COHERENT: the preferred extensions are {a, d} and {b, d}, since a and b attack each other and both attack c,
% which alone attacks d. With a in place of d in the rule of `fine` it says INCOHERENT.
% (P. M. Dung, On the acceptability of arguments, Artificial Intelligence 77, 1995.)

%@forall
% An admissible set. It is preferred if the next level finds no larger one.
argument(a). argument(b). argument(c). argument(d).
attacks(a,b). attacks(b,a). attacks(a,c). attacks(b,c). attacks(c,d).
{in(X) : argument(X)}.
beaten(X) :- in(Y), attacks(Y,X).
:- in(X), beaten(X).
:- in(X), attacks(Y,X), not beaten(Y).

%@exists
% Either d is in the set, or the set isn't preferred: there is a larger admissible one.
{more(X) : argument(X)}.
defeated(X) :- more(Y), attacks(Y,X).
:- more(X), defeated(X).
:- more(X), attacks(Y,X), not defeated(Y).
:- in(X), not more(X).
larger :- more(X), not in(X).
fine :- larger.
fine :- in(d).
:- not fine.
",
        "COHERENT\n",
        10,
    ),
    (
        "% The nodes of a graph are to be red or blue so that no maximal clique of two nodes or more has one colour alone. Is there such a
% colouring? The graph has three triangles in a row, each of which shares a node with the next one, and one more edge.
% Level 1 (exists) chooses the colours, level 2 (forall) a maximal clique.
% Yes, and `solve` says COHERENT: red are 1, 4 and 7, for instance, and blue the others.
% (D. Marx, Complexity of clique coloring and related problems, Theoretical Computer Science 412, 2011.)

%@exists
node(1..8).
edge(1,2). edge(1,3). edge(2,3).
edge(3,4). edge(3,5). edge(4,5).
edge(5,6). edge(5,7). edge(6,7).
edge(7,8).
joined(X,Y) :- edge(X,Y).
joined(Y,X) :- edge(X,Y).
{red(X) : node(X)}.

%@forall
% A maximal clique of two nodes or more: each node outside lacks an edge to one inside.
2 {in(X) : node(X)}.
:- in(X), in(Y), X < Y, not joined(X,Y).
barred(X) :- node(X), in(Y), X != Y, not joined(X,Y).
:- node(X), not in(X), not barred(X).
some_red :- in(X), red(X).
some_blue :- in(X), not red(X).

%@constraint
:- not some_red.
:- not some_blue.
",
        "COHERENT\n",
        10,
    ),
    (
        "% Somebody stays where it isn't known that they leave, and leaves where it isn't known that they stay. Is there an answer set?
% Level 1 (exists) chooses one of the two.
% Yes, and `solve` says COHERENT: {stay} is one, and so is {leave}.

%@exists
stay :- not leave.
leave :- not stay.
",
        "COHERENT\n",
        10,
    ),
    (
        "% A vault has three locks, and any one of three clerks may be away. Can at most six keys be given out, at most two to each clerk,
% so that the two who are there always can open the vault?
% Level 1 (exists) chooses who gets which keys, level 2 (forall) who is away.
% Yes, and `solve` says COHERENT: each clerk gets two keys, and no two lack the same one. With 5 in place of 6 it says INCOHERENT,
% since each lock needs keys of two clerks.

%@exists
% The clerks have the numbers 1 to 3, and so have the locks. key(C,L): clerk C has a key to lock L.
number(1..3).
{key(C,L) : number(C), number(L)} 6.
{key(C,L) : number(L)} 2 :- number(C).

%@forall
1 {away(C) : number(C)} 1.
open(L) :- key(C,L), not away(C).

%@constraint
:- number(L), not open(L).
",
        "COHERENT\n",
        10,
    ),
    (
        "% Four stones lie in a heap. Two players take one or two of them by turns, and who takes the last stone wins.
% Is there a first move after which the first player wins, whatever the other one does?
% Level 1 (exists) chooses the first move, level 2 (forall) the other player's, level 3 (exists) the first player's next one.
% Yes, and `solve` says COHERENT: take one stone, and then two if the other one takes one, and one if the other one takes two.

%@exists
% leaves(H,T,S): who takes T stones from a heap of H leaves S.
leaves(4,1,3). leaves(4,2,2).
leaves(3,1,2). leaves(3,2,1).
leaves(2,1,1). leaves(2,2,0).
leaves(1,1,0).
first(1) | first(2).
after_first(S) :- first(T), leaves(4,T,S).

%@forall
second(1) | second(2).
after_second(S) :- after_first(H), second(T), leaves(H,T,S).

%@exists
third(1) | third(2).
after_third(S) :- after_second(H), third(T), leaves(H,T,S).

%@constraint
% The first player has won where the third move leaves nothing.
:- not after_third(0).
",
        "COHERENT\n",
        10,
    ),
    (
        "% Two players move a piece along the arrows of a map by turns, never to a town where it was before. Who can't move has lost.
% The piece starts in ulm, and the first player moves first. Does the first player win, whatever the other one does?
% Levels 1, 3 and 5 (exists) choose the first player's moves, levels 2 and 4 (forall) those of the other one.
% Yes, and `solve` says COHERENT: to kiel. From there the other one has to go to trier, the first player goes to mainz, and no way leads on.
% (T. J. Schaefer, On the complexity of some two-person perfect-information games, JCSS 16, 1978.)

%@exists
arrow(ulm,bonn). arrow(ulm,kiel).
arrow(bonn,jena). arrow(bonn,trier).
arrow(kiel,trier).
arrow(jena,mainz). arrow(jena,kiel).
arrow(trier,mainz). arrow(trier,ulm).
arrow(mainz,kiel).
can1(Y) :- arrow(ulm,Y).
{to1(Y) : can1(Y)} 1.
moved1 :- to1(_).
:- can1(_), not moved1.

%@forall
can2(Y) :- to1(X), arrow(X,Y), Y != ulm.
{to2(Y) : can2(Y)} 1.
moved2 :- to2(_).
:- can2(_), not moved2.

%@exists
can3(Y) :- to2(X), arrow(X,Y), Y != ulm, not to1(Y).
{to3(Y) : can3(Y)} 1.
moved3 :- to3(_).
:- can3(_), not moved3.

%@forall
can4(Y) :- to3(X), arrow(X,Y), Y != ulm, not to1(Y), not to2(Y).
{to4(Y) : can4(Y)} 1.
moved4 :- to4(_).
:- can4(_), not moved4.

%@exists
can5(Y) :- to4(X), arrow(X,Y), Y != ulm, not to1(Y), not to2(Y), not to3(Y).
{to5(Y) : can5(Y)} 1.
moved5 :- to5(_).
:- can5(_), not moved5.

%@constraint
% The first player has lost where it is the first who can't move.
:- not moved1.
:- moved2, not moved3.
:- moved4, not moved5.
",
        "COHERENT\n",
        10,
    ),
    (
        "% A book says of some of three mushrooms that they are safe, of at most one that it is unsafe, and of the others nothing.
% Whatever it says, are there two that are known to be safe?
% Level 1 (forall) chooses what the book says, level 2 (exists) two mushrooms.
% No, and `solve` says INCOHERENT: the book may say nothing at all. Not to be known to be unsafe is less than to be known to be safe.

%@forall
number(1..3).
% safe(M): mushroom M is known to be safe. -safe(M): it is known to be unsafe. No answer set has both.
{safe(M) : number(M)}.
{-safe(M) : number(M)} 1.

%@exists
2 {eaten(M) : number(M)} 2.
:- eaten(M), not safe(M).
",
        "INCOHERENT\n",
        20,
    ),
    (
        "% A fire engine is to stand at one of three crossings. minutes(C,H,M): from crossing C to house H it takes M minutes.
% Is there a crossing from which no house is more than three minutes away?
% Level 1 (exists) chooses the crossing, level 2 (forall) the house that burns.
% Yes, and `solve` says COHERENT: the centre. With 2 in place of 3 in the last line it says INCOHERENT, so three minutes are the shortest
% longest way.

%@exists
minutes(north,mill,2). minutes(north,school,5). minutes(north,harbour,4).
minutes(centre,mill,3). minutes(centre,school,2). minutes(centre,harbour,3).
minutes(south,mill,6). minutes(south,school,3). minutes(south,harbour,1).
station(north) | station(centre) | station(south).

%@forall
% The house that burns is the worst one.
fire(mill) | fire(school) | fire(harbour).

%@constraint
:- station(C), fire(H), minutes(C,H,M), M > 3.
",
        "COHERENT\n",
        10,
    ),
    (
        "% Nine people in three groups, of each of which one of two teams comes to a meeting. Whichever teams come, are there always three
% people, of whom any two know each other? So the least of the greatest cliques has at least three members.
% Level 1 (forall) chooses a team of each group, level 2 (exists) the three people.
% Yes, and `solve` says COHERENT. With 4 in place of 3 in the last level it says INCOHERENT.
% (K.-I. Ko and C.-L. Lin, On the complexity of min-max optimization problems and their approximation, in Minimax and Applications, 1995.)

%@forall
group(1..3).
% member(G,T,P): person P is in team T of group G.
member(1,1,1). member(1,1,2). member(1,2,3).
member(2,1,4). member(2,1,5). member(2,2,6).
member(3,1,7). member(3,2,8). member(3,2,9).
knows(1,2). knows(1,4). knows(2,4). knows(1,7). knows(4,7).
knows(3,4). knows(3,5). knows(4,5). knows(3,6). knows(6,7). knows(3,7).
knows(1,6). knows(2,6). knows(6,8). knows(6,9). knows(8,9). knows(3,8). knows(3,9).
knows(4,8). knows(5,9).
1 {comes(G,T) : member(G,T,_)} 1 :- group(G).
present(P) :- comes(G,T), member(G,T,P).

%@exists
3 {in(P) : present(P)}.
:- in(P), in(Q), P < Q, not knows(P,Q).
",
        "COHERENT\n",
        10,
    ),
    (
        "% A book says of some of three mushrooms that they are safe, of at most one that it is unsafe, and of the others nothing.
% Whatever it says, are there two that aren't known to be unsafe?
% Level 1 (forall) chooses what the book says, level 2 (exists) two mushrooms.
% Yes, and `solve` says COHERENT: at most one is known to be unsafe, so two others are left.

%@forall
number(1..3).
% safe(M): mushroom M is known to be safe. -safe(M): it is known to be unsafe. No answer set has both.
{safe(M) : number(M)}.
{-safe(M) : number(M)} 1.

%@exists
2 {eaten(M) : number(M)} 2.
:- eaten(M), -safe(M).
",
        "COHERENT\n",
        10,
    ),
    (
        "% Three places lie in a ring, and each is red or blue. Can all neighbours be unlike?
% Level 1 (exists) chooses the colours.
% No, and `solve` says INCOHERENT: two colours aren't enough for an odd ring.

%@exists

a_red :- not a_blue.
a_blue :- not a_red.
b_red :- not b_blue.
b_blue :- not b_red.
c_red :- not c_blue.
c_blue :- not c_red.

:- a_red, b_red.
:- a_blue, b_blue.
:- b_red, c_red.
:- b_blue, c_blue.
:- c_red, a_red.
:- c_blue, a_blue.
",
        "INCOHERENT\n",
        20,
    ),
    (
        "% A door is open where it isn't known to be open. Is there an answer set?
% Level 1 (exists) has one atom, which would have to be derived exactly where it is false.
% No, and `solve` says INCOHERENT.

%@exists
open :- not open.
",
        "INCOHERENT\n",
        20,
    ),
    (
        "% A number puzzle of nine rows, columns and boxes, of which 22 places are given. Has it exactly one solution? That is: is there a solution
% with which every solution agrees?
% Level 1 (exists) chooses a solution, level 2 (forall) another one or the same.
% Yes, and `solve` says COHERENT. Without the first given place it says INCOHERENT: there are several solutions then.

%@exists
number(1..9).
block(1..3).
% third(R,B): row R, or column R, is one of the three of block B.
third(1,1). third(2,1). third(3,1).
third(4,2). third(5,2). third(6,2).
third(7,3). third(8,3). third(9,3).
% given(R,C,V): in row R and column C stands V.
given(1,8,7). given(1,9,9).
given(2,3,2). given(2,4,3). given(2,5,5).
given(3,6,2). given(3,7,1). given(3,9,5).
given(4,2,4). given(4,3,5).
given(5,2,1). given(5,4,4). given(5,9,8).
given(6,5,7). given(6,6,9).
given(7,1,1). given(7,6,3).
given(8,4,5). given(8,7,3). given(8,9,4).
given(9,2,6). given(9,7,7).
1 {solution(R,C,V) : number(V)} 1 :- number(R), number(C).
1 {solution(R,C,V) : number(C)} 1 :- number(R), number(V).
1 {solution(R,C,V) : number(R)} 1 :- number(C), number(V).
1 {solution(R,C,V) : third(R,B), third(C,S)} 1 :- block(B), block(S), number(V).
:- given(R,C,V), not solution(R,C,V).

%@forall
1 {other(R,C,V) : number(V)} 1 :- number(R), number(C).
1 {other(R,C,V) : number(C)} 1 :- number(R), number(V).
1 {other(R,C,V) : number(R)} 1 :- number(C), number(V).
1 {other(R,C,V) : third(R,B), third(C,S)} 1 :- block(B), block(S), number(V).
:- given(R,C,V), not other(R,C,V).

%@constraint
:- solution(R,C,V), not other(R,C,V).
",
        "COHERENT\n",
        10,
    ),
    (
        "% Four pebbles lie on the nodes of a chain of three. A move takes two pebbles from a node, puts one of them on a neighbour, and throws
% the other away. Can a pebble be brought to any node, wherever the four lie?
% Level 1 (forall) chooses where the pebbles lie and which node is to be reached, level 2 (exists) the moves.
% Yes, and `solve` says COHERENT. With three pebbles it says INCOHERENT: if all three lie on node 1, one move brings a pebble to node 2,
% and node 3 stays empty.
% (F. R. K. Chung, Pebbling in hypercubes, SIAM Journal on Discrete Mathematics 2, 1989.)

%@forall
% Somebody else puts the pebbles down and says which node is to be reached.
node(1..3).
pebble(1..4).
edge(1,2). edge(2,1). edge(2,3). edge(3,2).
1 {lies(P,X) : node(X)} 1 :- pebble(P).
1 {goal(X) : node(X)} 1.

%@exists
% At most one move at each of three times.
next(1,2). next(2,3). next(3,4).
{move(P,Q,X,Y,T) : pebble(P), pebble(Q), P != Q, edge(X,Y)} 1 :- next(T,_).
on(P,X,1) :- lies(P,X).
:- move(P,_,X,_,T), not on(P,X,T).
:- move(_,Q,X,_,T), not on(Q,X,T).
taken(P,T) :- move(P,_,_,_,T).
taken(Q,T) :- move(_,Q,_,_,T).
on(P,Y,U) :- move(P,_,_,Y,T), next(T,U).
on(P,X,U) :- on(P,X,T), next(T,U), not taken(P,T).
reached :- goal(X), on(_,X,_).
:- not reached.
",
        "COHERENT\n",
        10,
    ),
    (
        "% Can nine pigeons sit in eight holes, no two in one?
% Level 1 (exists) chooses a hole for each pigeon.
% No, and `solve` says INCOHERENT, but a search that knows no counting takes long to find that out: `solve --budget 1000` says
% UNKNOWN search 1 1000 (status 30), since a search in level 1 placed 1,000 literals and wasn't through.

%@exists
pigeon(1..9).
hole(1..8).
1 {sits(P,H) : hole(H)} 1 :- pigeon(P).
:- sits(P,H), sits(Q,H), P < Q.
",
        "INCOHERENT\n",
        20,
    ),
    (
        "% For all x and y, are there u and v with (x or u) and (not x or not u) and (y or not v) and (not y or v) and (u or v or x)?
% Level 1 (forall) chooses x and y, level 2 (exists) u and v.
% Yes, and `solve` says COHERENT: take u as the opposite of x, and v as y.

%@forall
{x; y}.

%@exists
{u; v}.
% Each constraint is a clause: it forbids what makes all literals of the clause false.
:- not x, not u.
:- x, u.
:- not y, v.
:- y, not v.
:- not u, not v, not x.
",
        "COHERENT\n",
        10,
    ),
    (
        "% Six people, each two of whom know each other or don't. Are there always three who all know each other, or three of whom no two do?
% Level 1 (forall) chooses who knows whom, level 2 (exists) the three people.
% Yes, and `solve` says COHERENT. With 5 in place of 6 it says INCOHERENT: let five sit round a table and know their neighbours.

%@forall
person(1..6).
{know(A,B) : A < B} :- person(A), person(B).

%@exists
% The three who are looked for, in ascending order.
1 {first(A) : person(A)} 1.
1 {second(B) : person(B)} 1.
1 {third(C) : person(C)} 1.
:- first(A), second(B), A >= B.
:- second(B), third(C), B >= C.
% Whether the first two know each other, so do the others, or don't.
alike :- first(A), second(B), know(A,B).
:- first(A), third(C), alike, not know(A,C).
:- second(B), third(C), alike, not know(B,C).
:- first(A), third(C), not alike, know(A,C).
:- second(B), third(C), not alike, know(B,C).
",
        "COHERENT\n",
        10,
    ),
    (
        "% A talk, a demo and a panel are to be in the morning or in the evening. Talk and panel share a hall, so they can't be at one time.
% A morning demo needs a morning talk; an evening demo needs the evening panel if the hall is in use then; the panel can't be in the
% morning. Is there a plan?
% Level 1 (exists) chooses a time for each of the three.
% Yes, and `solve` says COHERENT: the talk in the morning, the panel in the evening, and the demo with either.

%@exists

talk_morning :- not talk_evening.
talk_evening :- not talk_morning.
demo_morning :- not demo_evening.
demo_evening :- not demo_morning.
panel_morning :- not panel_evening.
panel_evening :- not panel_morning.

hall_morning :- talk_morning.
hall_morning :- panel_morning.
hall_evening :- talk_evening.
hall_evening :- panel_evening.

:- talk_morning, panel_morning.
:- talk_evening, panel_evening.
:- demo_morning, not talk_morning.
:- demo_evening, hall_evening, not panel_evening.
:- panel_morning.
",
        "COHERENT\n",
        10,
    ),
    (
        "% Somebody is at place 1, and goes to place 2 later. Is there an answer set in which they get there?
% Level 1 (exists) settles all atoms over its predicates and constants, at(2) among them: it isn't derived, so it is false from there on.
% No, and `solve` says INCOHERENT: in level 2 (exists) the rule with the head at(2) derives nothing. With then_at(2) in place of at(2), a
% predicate that level 1 doesn't know, it says COHERENT.

%@exists
place(1..2). at(1).
%@exists
at(2) :- place(2).
:- not at(2).
",
        "INCOHERENT\n",
        20,
    ),
    (
        "% A holding has companies, and each product is made by two of them. A company is controlled by up to two others: who owns both owns it
% too. A set of companies is strategic if it makes all products, holds what it controls, and no smaller part of it does both.
% Is there a strategic set to which barilla belongs?
% Level 1 (exists) chooses a strategic set.
% Yes, and `solve` says COHERENT: barilla and frutto.
% (N. Leone and others, Disjunctive stable models, Information and Computation 135, 1997.)

%@exists
made(pasta,barilla,saiwa). made(tomatoes,frutto,barilla). made(wine,frutto,saiwa).
controlled(panino,barilla,saiwa).
strategic(X) | strategic(Y) :- made(_,X,Y).
strategic(Z) :- controlled(Z,X,Y), strategic(X), strategic(Y).
:- not strategic(barilla).
",
        "COHERENT\n",
        10,
    ),
    (
        "% Somebody else colours one of three countries that border one another. Can the other two always be coloured?
% Each country is to have exactly one of three colours, and no neighbours are to be alike.
% Level 1 (forall) chooses the first country's colour, level 2 (exists) those of the other two.
% Yes, and `solve` says COHERENT: the other two get the two colours that are left.

%@forall
number(1..3).
1 {first(C) : number(C)} 1.

%@exists
% colour(N,C): country N has colour C.
colour(1,C) :- first(C).
1 {colour(N,C) : number(C)} 1 :- number(N), N > 1.
:- colour(M,C), colour(N,C), M < N.
",
        "COHERENT\n",
        10,
    ),
    (
        "% Four places lie in a ring, and each is red or blue. Can all neighbours be unlike?
% Level 1 (exists) chooses the colours.
% Yes, and `solve` says COHERENT: red, blue, red, blue.

%@exists

a_red :- not a_blue.
a_blue :- not a_red.
b_red :- not b_blue.
b_blue :- not b_red.
c_red :- not c_blue.
c_blue :- not c_red.
d_red :- not d_blue.
d_blue :- not d_red.

:- a_red, b_red.
:- a_blue, b_blue.
:- b_red, c_red.
:- b_blue, c_blue.
:- c_red, d_red.
:- c_blue, d_blue.
:- d_red, a_red.
:- d_blue, a_blue.
",
        "COHERENT\n",
        10,
    ),
    (
        "% Who trusts wins, and who wins trusts. Is there an answer set in which somebody wins?
% Level 1 (exists) has two atoms that derive only each other.
% No, and `solve` says INCOHERENT: an answer set has no atoms without support from outside.

%@exists
win :- trust.
trust :- win.
:- not win.
",
        "INCOHERENT\n",
        20,
    ),
    (
        "% A vault has three locks. Each of three clerks gets keys to some of them, and any one of the three may be away.
% Can the keys be given out so that no clerk can open the vault alone, but the two who are there always can?
% Level 1 (exists) chooses who gets which keys, level 2 (forall) who is away.
% Yes, and `solve` says COHERENT: each clerk gets two keys, and no two lack the same one.

%@exists
% The clerks have the numbers 1 to 3, and so have the locks. key(C,L): clerk C has a key to lock L.
number(1..3).
{key(C,L) : number(C), number(L)}.
:- key(C,1), key(C,2), key(C,3).

%@forall
away(1) | away(2) | away(3).
open(L) :- key(C,L), not away(C).

%@constraint
:- number(L), not open(L).
",
        "COHERENT\n",
        10,
    ),
];

fn examples() -> &'static [Example] {
    &EXAMPLES
}

/// Runs `solve` over each text.
fn solve_rows(alloc: Global, rows: &[Example]) -> Result<(), Fail> {
    for (text, line, code) in rows {
        let expected = (line.as_bytes(), *code);
        check_run(alloc, "solve", text.as_bytes(), 60_000, expected, text)?;
    }
    Ok(())
}

#[test]
fn solves_the_examples(rt: HostRuntime) -> Result<(), Fail> {
    solve_rows(rt.alloc(), examples())
}

/// The canonical text of the first example.
const CONFORMANT_PLAN: &str = "%@exists\n\
    cell(1..3).\n\
    time(1..2).\n\
    next(1,2).\n\
    next(2,3).\n\
    step(left,1,1).\n\
    step(left,2,1).\n\
    step(left,3,2).\n\
    step(right,1,2).\n\
    step(right,2,3).\n\
    step(right,3,3).\n\
    {plan(D,T) : step(D,_,_)} :- time(T).\n\
    :- time(T), not plan(left,T), not plan(right,T).\n\
    :- plan(left,T), plan(right,T).\n\
    %@forall\n\
    at(1,1) | at(2,1) | at(3,1).\n\
    at(C,U) :- at(B,T), next(T,U), plan(D,T), step(D,B,C).\n\
    %@constraint\n\
    :- not at(1,3).\n";

#[test]
fn prints_an_example(rt: HostRuntime) -> Result<(), Fail> {
    let Some((text, _, _)) = examples().first() else {
        return Err(Fail::new("no example"));
    };
    let expected = (CONFORMANT_PLAN.as_bytes(), 0);
    check_run(rt.alloc(), "check", text.as_bytes(), 60_000, expected, text)
}

/// Runs `check` over a text, and over what it printed of it.
fn check_printed(alloc: Global, text: &str) -> Result<(), Fail> {
    let (status, first) = run_text(alloc, "check", text.as_bytes(), 60_000)?;
    let printed = first.taken();
    let stands = is_run(alloc, "check", printed, 60_000, (printed, 0));
    expect(status == Status::Done && stands, text)
}

fn print_rows(alloc: Global, rows: &[Example]) -> Result<(), Fail> {
    for (text, _, _) in rows {
        check_printed(alloc, text)?;
    }
    Ok(())
}

#[test]
fn prints_texts_that_are_printed_as_they_stand(rt: HostRuntime) -> Result<(), Fail> {
    print_rows(rt.alloc(), examples())
}
