// The rules of a sound unit that speak of the state alone: the names of open descriptors, and the users of each.

#![tactic(auto)]

ghost use Rattle.std.specs.Prelude.{◌≡◌};
ghost use Rattle.disc.specs.Decide.{Decides};
ghost use Rattle.disc.specs.Names.{packed};
ghost use Rattle.sound.specs.State.{Shaped, LegalUsers};
ghost use Rattle.sound.specs.Parts.{SoundUsers};
ghost use Rattle.state.specs.Areas.{area_named};
ghost use Rattle.sound_users.specs.Rules.{roles_agree, LegalUser, LegalPair, LegalArea};

use types::{Area, Block, Name, Role, State, User};

// May two users of one area have these roles?
fn roles_agree(a: Role, b: Role) -> bool
    ensures { result ≡ roles_agree a b }
{
    matches!(
        (a, b),
        (Role::Sharing, Role::Sharing | Role::ExclusiveWriter)
            | (Role::ExclusiveWriter, Role::Sharing)
    )
}

// Is the entry vacant, or its open count not 0 and its position within the live length?
fn user_legal(user: User, length: u16) -> bool
    ensures { Decides result (LegalUser length user) }
{
    user.id == 0 || 1 <= user.opens && user.position <= Block(length)
}

// May the two entries stand in one area?
fn pair_legal(a: User, b: User) -> bool
    ensures { Decides result (LegalPair a b) }
{
    a.id == 0 || b.id == 0 || a.id != b.id && roles_agree(a.role, b.role)
}

// Are the area's users legal, each and beside the others?
fn users_legal(area: Area) -> bool
    ensures { Decides result (LegalUsers area) }
{
    let [a, b, c] = area.users;
    user_legal(a, area.length)
        && user_legal(b, area.length)
        && user_legal(c, area.length)
        && pair_legal(a, b)
        && pair_legal(a, c)
        && pair_legal(b, c)
}

// Is descriptor j the first open one of the name?
fn is_first(state: State, name: Name, j: usize) -> bool
    ensures { Decides result (area_named (packed name) state ≡ Some j) }
{
    matches!(state::find_area(state, name), Some(k) if k == j)
}

// Is no earlier descriptor open under the name of open descriptor j, and are its users legal?
fn area_legal(state: State, area: Area, j: usize) -> bool
    ensures { Decides result (LegalArea state area j) }
{
    is_first(state, area.name, j) && users_legal(area)
}

// Are the open descriptors' names distinct, and the users of each legal?
pub fn users_sound(state: State) -> bool
    ensures { Decides result (SoundUsers state) × Shaped state }
{
    for (j, area) in state.areas.iter().enumerate() {
        if state::is_open(*area) && !area_legal(state, *area, j) {
            return false;
        }
    }
    true
}
