// The state by value: initialized or not; area descriptors found, opened and closed; users found, reserved, released and moved.

#![tactic(auto)]

ghost use Rattle.std.specs.Prelude.{◌≡◌, ◌<◌};
ghost use Rattle.types.specs.State.{area_at, user_at, is_open, NoneOpen};
ghost use Rattle.disc.specs.Names.{packed};
ghost use Rattle.disc.specs.Decide.{Decides};
ghost use Rattle.state.specs.Areas.{set_area, set_user, is_named, AreaFound, VacantFound, with_initialized};
ghost use Rattle.state.specs.Areas.{area_opened, area_closed, with_live};
ghost use Rattle.state.specs.Areas.{UserFound, user_count, is_kind, is_other, any_other, RoleRaised, inserted, opened_again};
ghost use Rattle.state.specs.Areas.{reserve_of, placed, shut_out, reserved, released_user, released, moved};

use types::{Area, Block, Name, Refusal, Role, Sector, State, User};

// The kinds of user that a question asks about.
// An enum and not a closure: the definitions and theorems that speak of other users (specs/Areas `any_other`) take it.
#[derive(Clone, Copy)]
pub enum Kind {
    AnyUser,
    Writer,
    Exclusive,
}

// Area descriptor j.
pub fn area_at(state: State, j: usize) -> Area
    requires { j < 8 }
    ensures { result ≡ area_at state j }
{
    state.areas[j]
}

// The state with another descriptor j.
pub fn with_area(mut state: State, j: usize, area: Area) -> State
    ensures { result ≡ set_area state j area }
{
    if j < 8 {
        state.areas[j] = area;
    }
    state
}

// User entry u; a vacant one past the end.
pub fn user_at(area: Area, u: usize) -> User
    ensures { result ≡ user_at area u }
{
    if u < 3 {
        area.users[u]
    } else {
        types::vacant_user()
    }
}

// The area with another user entry u.
pub fn with_user(mut area: Area, u: usize, user: User) -> Area
    ensures { result ≡ set_user area u user }
{
    if u < 3 {
        area.users[u] = user;
    }
    area
}

// Is an area process open in the descriptor?
pub fn is_open(area: Area) -> bool
    ensures { result ≡ is_open area }
{
    area.live
}

// Is the descriptor open under the name?
fn is_named(area: Area, name: Name) -> bool
    ensures { result ≡ is_named (packed name) area }
{
    is_open(area) && names::same_name(area.name, name)
}

// The first open descriptor of the name.
pub fn find_area(state: State, name: Name) -> Option<usize>
    ensures { AreaFound (packed name) state result }
{
    state.areas.iter().position(|area| is_named(*area, name))
}

// The lowest vacant descriptor.
pub fn vacant_area_of(state: State) -> Option<usize>
    ensures { VacantFound state result }
{
    state.areas.iter().position(|area| !is_open(*area))
}

// Is no area process open?
pub fn none_open(state: State) -> bool
    ensures { Decides result (NoneOpen state) }
{
    state.areas.iter().all(|area| !is_open(*area))
}

// The state of a unit that is initialized, or that is not.
pub fn with_initialized(state: State, initialized: bool) -> State
    ensures { result ≡ with_initialized state initialized }
{
    State {
        initialized,
        ..state
    }
}

// Descriptor j opened, with no user.
pub fn open_area(state: State, j: usize, name: Name, index: Sector, length: u16) -> State
    ensures { result ≡ area_opened state j name index length }
{
    let area = Area {
        live: true,
        name,
        index,
        length,
        users: [types::vacant_user(); 3],
    };
    with_area(state, j, area)
}

// Descriptor j vacant again.
pub fn close_area(state: State, j: usize) -> State
    ensures { result ≡ area_closed state j }
{
    with_area(state, j, types::vacant_area())
}

// The area with another index sector and live length.
pub fn with_live(area: Area, index: Sector, length: u16) -> Area
    ensures { result ≡ with_live area index length }
{
    Area {
        index,
        length,
        ..area
    }
}

// The first user entry with the identification; that of 0 is the lowest vacant entry.
pub fn find_user(area: Area, sender: u16) -> Option<usize>
    ensures { UserFound sender area result }
{
    area.users.iter().position(|user| user.id == sender)
}

// The number of users.
pub fn user_count(area: Area) -> usize
    ensures { result ≡ user_count area }
{
    area.users.iter().filter(|user| user.id != 0).count()
}

// Is the role of the kind?
fn is_kind(kind: Kind, role: Role) -> bool
    ensures { result ≡ is_kind kind role }
{
    match kind {
        Kind::AnyUser => true,
        Kind::Writer => role == Role::ExclusiveWriter,
        Kind::Exclusive => role == Role::ExclusiveUser,
    }
}

// Is the entry that of another user of the kind?
fn is_other(user: User, sender: u16, kind: Kind) -> bool
    ensures { result ≡ is_other kind sender user }
{
    user.id != 0 && user.id != sender && is_kind(kind, user.role)
}

// Is there another user of the kind?
pub fn any_other(area: Area, sender: u16, kind: Kind) -> bool
    ensures { result ≡ any_other kind sender area }
{
    area.users.iter().any(|user| is_other(*user, sender, kind))
}

// The role after Reserve with a count: it only rises.
pub fn raised_role(role: Role, count: u16) -> Role
    ensures { RoleRaised count role result }
{
    let asked = match count {
        2 => Role::ExclusiveWriter,
        4 => Role::ExclusiveUser,
        _ => Role::Sharing,
    };
    role.max(asked)
}

// The entry of a new user.
fn inserted_user(sender: u16, count: u16) -> User
    ensures { result ≡ inserted sender count }
{
    User {
        id: sender,
        role: raised_role(Role::Sharing, count),
        opens: 1,
        position: Block(0),
    }
}

// The entry of a user that reserves once more.
fn opened_again(user: User, count: u16) -> User
    requires { user.opens < 65535 }
    ensures { result ≡ opened_again count user }
{
    User {
        role: raised_role(user.role, count),
        opens: user.opens + 1,
        ..user
    }
}

// The sender inserted, or its open count raised; refused where no entry is vacant or the count is full.
fn place(area: Area, sender: u16, count: u16) -> Result<Area, Refusal>
    ensures { reserve_of area result ≡ placed area sender count }
{
    if let Some(u) = find_user(area, sender) {
        let user = user_at(area, u);
        if user.opens == u16::MAX {
            return Err(Refusal::UsersOrIndexFull);
        }
        return Ok(with_user(area, u, opened_again(user, count)));
    }
    let Some(v) = find_user(area, 0) else {
        return Err(Refusal::UsersOrIndexFull);
    };
    Ok(with_user(area, v, inserted_user(sender, count)))
}

// Does another user shut out the role that the count asks for?
fn shut_out(area: Area, sender: u16, count: u16) -> bool
    ensures { result ≡ shut_out area sender count }
{
    match count {
        2 => any_other(area, sender, Kind::Writer),
        4 => any_other(area, sender, Kind::AnyUser),
        _ => false,
    }
}

// Reserve 2, 3 or 4 by a sender that is not 0: the area after it.
pub fn reserve(area: Area, sender: u16, count: u16) -> Result<Area, Refusal>
    ensures { reserve_of area result ≡ reserved area sender count }
{
    if shut_out(area, sender, count) {
        return Err(Refusal::AreaIllegal);
    }
    place(area, sender, count)
}

// The entry after one release: vacant at zero opens.
fn released_user(user: User) -> User
    ensures { result ≡ released_user user }
{
    if user.opens <= 1 {
        return types::vacant_user();
    }
    User {
        opens: user.opens - 1,
        ..user
    }
}

// The area after one release of user entry u.
pub fn release(area: Area, u: usize) -> Area
    ensures { result ≡ released area u }
{
    with_user(area, u, released_user(user_at(area, u)))
}

// The area with another position of user entry u.
pub fn with_position(area: Area, u: usize, position: Block) -> Area
    ensures { result ≡ moved area u position }
{
    let user = User {
        position,
        ..user_at(area, u)
    };
    with_user(area, u, user)
}
