// The messages to an area process, from 'open?' on: Reserve, Release, Position, Sense and transput.

#![tactic(auto)]

ghost use Rattle.std.specs.Prelude.{◌≡◌, ◌≢◌, MatchOption};
ghost use Rattle.disc.specs.Names.{unit_in};
ghost use Rattle.plain.specs.Step.{is_known};
ghost use Rattle.lookup.specs.Unit.{Meant};
ghost use Rattle.transput.specs.Transput.{Seated};
ghost use Rattle.area_messages.specs.AreaMessages.{known_count, known_transput, reserve_word, UserSteps, CanOperate, Operates};
ghost use Rattle.area_messages.specs.AreaMessages.{AreaMessages};

use area_users::{AreaReply, UserEntry};
use catalog::Unit;
use state::Kind;
use types::{Block, Name, Operation, Refusal, State};

// Whether a Reserve has one of the counts 0, 2, 3 and 4.
fn known_count(count: u16) -> bool
    ensures { result ≡ known_count count }
{
    matches!(count, 0 | 2..=4)
}

// Whether a transput is one of 1, 3, 5, 7 and 19.
fn known_transput(operation: u16) -> bool
    ensures { result ≡ known_transput operation }
{
    matches!(operation, 1 | 3 | 5 | 7 | 19)
}

// Whether an operation is known.
fn is_known(operation: Operation) -> bool
    ensures { result ≡ is_known operation }
{
    match operation {
        Operation::Reserve(count) => known_count(count),
        Operation::Position(_) | Operation::Sense => true,
        Operation::Transput {
            operation: number,
            ..
        } => known_transput(number),
        Operation::Other(_) => false,
    }
}

// The count of a Reserve; none for Release and every other operation.
fn reserve_count(operation: Operation) -> Option<u16>
    ensures { MatchOption result (reserve_word operation ≡ 0) (λ count. (count ≡ reserve_word operation) × (count ≢ 0)) }
{
    match operation {
        Operation::Reserve(count) if count != 0 => Some(count),
        _ => None,
    }
}

// The operation, no Reserve 2 to 4, of the sender, a user of an area.
fn user_step(
    image: &mut [u16],
    unit: Unit,
    at: UserEntry,
    sender: u16,
    operation: Operation,
    lent: &mut [u16],
) -> AreaReply
    requires { Seated image.old at.state unit at.area sender at.user }
    ensures { UserSteps image.old at.state unit at.area sender at.user operation lent.old result
        lent.new image.new }
{
    match operation {
        Operation::Reserve(_) => at.release(),
        Operation::Position(block) => at.position(block),
        Operation::Sense => area_users::answered(at.state, Ok(()), 0, Block(0)),
        Operation::Transput {
            operation: number,
            bytes,
            block,
        } => transput::transput(image, unit, at, sender, number, bytes, block, lent),
        Operation::Other(_) => area_users::refused(at.state, Refusal::AreaIllegal),
    }
}

// The operation of a sender who is not 0 on area descriptor j, which no other user has exclusively.
fn operate(
    image: &mut [u16],
    unit: Unit,
    state: State,
    j: usize,
    sender: u16,
    operation: Operation,
    lent: &mut [u16],
) -> AreaReply
    requires { CanOperate image.old state unit j sender }
    ensures { Operates image.old state unit j sender operation lent.old result
        lent.new image.new }
{
    if let Some(count) = reserve_count(operation) {
        return area_users::reserve(state, j, sender, count);
    }
    let Some(user) = state::find_user(state::area_at(state, j), sender) else {
        return area_users::refused(state, Refusal::NotUserOrPastEnd);
    };
    let at = UserEntry {
        state,
        area: j,
        user,
    };
    user_step(image, unit, at, sender, operation, lent)
}

// A message that means this unit to the area process of a name.
pub fn area_message(
    image: &mut [u16],
    unit: Unit,
    state: State,
    name: Name,
    sender: u16,
    operation: Operation,
    lent: &mut [u16],
) -> AreaReply
    requires { Meant image.old state unit (unit_in name) }
    ensures { AreaMessages image.old state unit name sender operation lent.old result
        lent.new image.new }
{
    let Some(j) = state::find_area(state, names::stored(name)) else {
        return area_users::refused(state, Refusal::NoArea);
    };
    if state::any_other(state::area_at(state, j), sender, Kind::Exclusive) {
        return area_users::refused(state, Refusal::AreaReserved);
    }
    if sender == 0 {
        return area_users::refused(state, Refusal::NotUserOrPastEnd);
    }
    if !is_known(operation) {
        return area_users::refused(state, Refusal::AreaIllegal);
    }
    operate(image, unit, state, j, sender, operation, lent)
}
