//! Members, by their numbers.
ghost use Rattle.std.specs.Prelude.{◌≡◌, ◌<◌, ◌∷◌, ◌++◌, [], true, false, length, get_or, set, IfOk, OnOk, OnErr};
ghost use Rattle.asp_core.specs.Members.{nobody};

use asp_defs::NoMemory;
use std::alloc::Global;
use std::marker::Model;

/// Whether a member lives, and how long a prefix of the history it has seen.
#[derive(Drop)]
pub(crate) struct Member {
    lives: bool,
    seen: u32,
}

impl Model for Member {
    ghost use Rattle.asp_defs.specs.Machine.{Member as MemberValue};

    ghost Value = { MemberValue };

    ghost view = { λ m. record { lives = m.lives; seen = m.seen } };
}

/// Member 0, which has seen nothing. `NoMemory`: memory was refused.
pub(crate) fn one_member(alloc: Global) -> Result<Vec<Member>, NoMemory>
    ensures { IfOk result (λ members. members.items ≡ record { lives = true; seen = 0 } ∷ []) }
{
    let mut members = Vec::new(alloc);
    members.push(Member {
        lives: true,
        seen: 0,
    })?;
    Ok(members)
}

/// How much a member has seen.
pub(crate) fn seen_by(members: &[Member], member: u32) -> u32
    requires { member < length members.now }
    ensures { result ≡ (get_or members.now member nobody).seen }
{
    let one = &members[member as usize];
    one.seen
}

/// A member sees so much.
pub(crate) fn see(members: &mut Vec<Member>, member: u32, seen: u32)
    requires { member < length members.old.items }
    ensures { members.new.items ≡ set members.old.items member (record { lives = (get_or members.old.items member nobody).lives; seen = seen }) }
{
    let lives = members[member as usize].lives;
    members[member as usize] = Member { lives, seen };
}

/// A member ends.
pub(crate) fn end(members: &mut Vec<Member>, member: u32)
    requires { member < length members.old.items }
    ensures { members.new.items ≡ set members.old.items member (record { lives = false; seen = (get_or members.old.items member nobody).seen }) }
{
    let seen = members[member as usize].seen;
    members[member as usize] = Member { lives: false, seen };
}

/// A member forks. `NoMemory`: memory was refused, and the members are as before.
pub(crate) fn fork(members: &mut Vec<Member>, member: u32) -> Result<(), NoMemory>
    requires { member < length members.old.items }
    ensures forked { OnOk result (members.new.items ≡ members.old.items ++ (record { lives = true; seen = (get_or members.old.items member nobody).seen }) ∷ []) }
    ensures unchanged { OnErr result (members.new.items ≡ members.old.items) }
{
    let seen = members[member as usize].seen;
    members.push(Member { lives: true, seen })?;
    Ok(())
}
