//! A small implementation, and a caller that is generic over the trait.
ghost use Rattle.std.specs.Prelude.{◌≡◌, ◌≢◌, [], ◌∷◌, ◌++◌, List, Bool, true, false, not, IsTrue, IfOk, length};
ghost use Rattle.std.specs.List.{list_all};
ghost use Rattle.asp_defs.specs.declared.ground.Lit.{Lit};
ghost use Rattle.asp_defs.specs.Entries.{lit_true, cube_holds};
ghost use Rattle.asp_defs.specs.Games.{base};
ghost use Rattle.asp_defs.specs.Interpretations.{holds};
ghost use Rattle.asp_game.specs.State.{Unasked};
ghost use Rattle.asp_game.specs.Answers.{IsCore};
ghost use Rattle.asp_game.specs.Questions.{is_open, is_region};
ghost use Rattle.level_tests.specs.Example.{one_choice, set_of, last_of};

use asp_bits::Bits;
use asp_defs::{Give, List, Lit, NoMemory};
use asp_game::{Gate, Moves, NoGate, Point, Step};
use bases_tests::rows::expect;
use std::alloc::Global;
use std::cell::Cell;
use std::test::Fail;

/// The moves of the one level of `{a}.`, the one without the atom first.
#[derive(Drop)]
struct OneChoice {
    kept: List<List<Lit>>,
    region: List<Lit>,
    ordered: bool,
    blocked: List<List<Lit>>,
    // The atom's value in the last move that was found.
    found: Option<bool>,
    begun: bool,
    core: bool,
    refused: bool,
}

/// Whether the literal is true where the atom has this value.
fn is_true(literal: &Lit, value: bool) -> bool
    ensures { result ≡ lit_true (set_of value) literal.now }
{
    (literal.atom == 0 && value) == literal.positive
}

fn is_in(cube: &[Lit], value: bool) -> bool
    ensures { result ≡ cube_holds cube.now (set_of value) }
{
    cube.iter().all(|literal| is_true(literal, value))
}

fn is_outside(cubes: &[List<Lit>], value: bool) -> bool
    ensures { result ≡ list_all (λ cube. not (cube_holds cube (set_of value))) cubes.now }
{
    cubes.iter().all(|cube| !is_in(cube.as_slice(), value))
}

impl OneChoice {
    fn is_open(&self, value: bool) -> bool
        ensures { result ≡ is_open self.now.region (self.now.kept ++ self.now.blocked) (set_of value) }
    {
        is_in(self.region.as_slice(), value) && self.is_left(value)
    }

    /// Whether the move is outside all cubes that are left out.
    fn is_left(&self, value: bool) -> bool
        ensures { result ≡ list_all (λ cube. not (cube_holds cube (set_of value))) (self.now.kept ++ self.now.blocked) }
    {
        is_outside(self.kept.as_slice(), value) && is_outside(self.blocked.as_slice(), value)
    }
}

/// The interpretation in which the atom has this value.
fn set(alloc: Global, value: bool) -> Result<Bits, NoMemory>
    ensures { IfOk result (λ set. set ≡ value ∷ []) }
{
    let mut set = Bits::new(alloc, 1)?;
    set.set(0, value);
    Ok(set)
}

impl Moves for OneChoice {
    ghost state = { λ moves. record {
      game = one_choice;
      level = 1;
      budget = 0;
      kept = moves.kept;
      outer = [];
      region = moves.region;
      ordered = moves.ordered;
      blocked = moves.blocked;
      last = last_of moves.begun moves.refused moves.core moves.found;
      searches = 0;
      checks = 0;
    } };

    fn begin(
        &mut self,
        alloc: Global,
        _outer: &Bits,
        region: &[Lit],
        ordered: bool,
    ) -> Result<(), NoMemory> {
        let region = List::from_slice(alloc, region)?;
        self.region = region;
        self.ordered = ordered;
        self.blocked = List::new(alloc);
        self.found = None;
        self.begun = true;
        self.core = false;
        self.refused = false;
        Ok(())
    }

    fn next(&mut self, alloc: Global) -> Result<Step, Give> {
        if self.refused {
            return Err(Give::NoMemory);
        }
        self.found = if self.is_open(false) {
            Some(false)
        } else if self.is_open(true) {
            Some(true)
        } else {
            None
        };
        self.core = self.found.is_none();
        let Some(value) = self.found else {
            return Ok(Step::Core(List::new(alloc)));
        };
        match set(alloc, value) {
            Ok(set) => Ok(Step::Found(set)),
            Err(_) => {
                self.refused = true;
                Err(Give::NoMemory)
            }
        }
    }

    fn block(&mut self, alloc: Global, cube: &[Lit]) -> Result<(), NoMemory> {
        let blocked = List::from_slice(alloc, cube);
        let added = match blocked {
            Ok(cube) => self.blocked.push(cube),
            Err(fault) => Err(fault),
        };
        self.refused = added.is_err();
        added
    }

    fn keep(&mut self, alloc: Global, cube: &[Lit]) -> Result<(), NoMemory> {
        let kept = List::from_slice(alloc, cube);
        let added = match kept {
            Ok(cube) => self.kept.push(cube),
            Err(fault) => Err(fault),
        };
        if added.is_err() {
            self.refused = self.begun;
        }
        added
    }
}

/// Asks until no move is left, and answers the core. Each move is blocked with all others.
fn exhaust<M: Moves>(alloc: Global, moves: &mut M) -> Result<List<Lit>, Give>
    requires { (M.state moves.old).last ≢ Unasked }
    ensures { IfOk result (IsCore (record (M.state moves.old) { blocked = (M.state moves.new).blocked })) }
{
    loop {
        match moves.next(alloc)? {
            Step::Found(_) => moves.block(alloc, &[])?,
            Step::Core(core) => return Ok(core),
        }
    }
}

/// A new one, which was asked for nothing.
fn one_choice(alloc: Global) -> OneChoice {
    OneChoice {
        kept: List::new(alloc),
        region: List::new(alloc),
        ordered: false,
        blocked: List::new(alloc),
        found: None,
        begun: false,
        core: false,
        refused: false,
    }
}

/// Whether the next move is the one with this value, and no core is needed behind it.
fn is_first<M: Moves>(alloc: Global, moves: &mut M, value: bool) -> Result<bool, Give>
    requires { (M.state moves.old).last ≢ Unasked }
{
    let first = match moves.next(alloc)? {
        Step::Found(set) => set.len() > 0 && set.get(0) == value,
        Step::Core(_) => false,
    };
    let core = exhaust(alloc, moves)?;
    Ok(first && core.is_empty())
}

/// Whether it is in this region.
fn is_first_in(alloc: Global, region: &[Lit], value: bool) -> Result<bool, Give>
    requires { IsTrue (is_region one_choice 1 region.now) }
{
    let mut moves = one_choice(alloc);
    let outer = Bits::new(alloc, 1)?;
    moves.begin(alloc, &outer, region, false)?;
    is_first(alloc, &mut moves, value)
}

#[test]
fn a_small_implementation_meets_the_trait(rt: HostRuntime) -> Result<(), Fail> {
    let alloc = rt.alloc();
    let with_atom = [Lit {
        atom: 0,
        positive: true,
    }];
    expect(is_first_in(alloc, &[], false)?, "all moves")?;
    expect(is_first_in(alloc, &with_atom, true)?, "moves with the atom")
}

/// Whether one is whose cube was kept before the question.
fn is_first_without(alloc: Global, cube: &[Lit], value: bool) -> Result<bool, Give>
    requires { IsTrue (list_all (λ l. holds (base one_choice 1) l.atom) cube.now) }
{
    let mut moves = one_choice(alloc);
    moves.keep(alloc, cube)?;
    let outer = Bits::new(alloc, 1)?;
    moves.begin(alloc, &outer, &[], false)?;
    is_first(alloc, &mut moves, value)
}

#[test]
fn a_kept_cube_stays_left_out(rt: HostRuntime) -> Result<(), Fail> {
    let without_atom = [Lit {
        atom: 0,
        positive: false,
    }];
    expect(
        is_first_without(rt.alloc(), &without_atom, true)?,
        "moves without a kept one",
    )
}

/// A gate that notes who passed last.
#[derive(Drop)]
struct Noting {
    member: Cell<u32>,
}

impl Gate for Noting {
    fn pass(&self, point: &Point) {
        self.member.set(point.member);
    }
}

/// Lets a member of the first level pass.
fn pass<G: Gate>(gate: &G, member: u32) {
    gate.pass(&Point { level: 1, member });
}

#[test]
fn members_pass_a_gate(rt: HostRuntime) {
    let gate = Noting {
        member: Cell::new(0),
    };
    pass(&NoGate, 1);
    pass(&gate, 2);
    assert_eq!(rt; gate.member.get(), 2);
}
