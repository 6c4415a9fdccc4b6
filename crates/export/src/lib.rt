// The calls for C and Rust programs: over a mirror of the state in which every field is a word, and a message of twelve words.

#![tactic(auto)]

ghost use Rattle.std.specs.Prelude.{◌≡◌, ◌<◌};
ghost use Rattle.disc.specs.Decide.{Decides};
ghost use Rattle.sound.specs.Sound.{SoundUnit};
ghost use Rattle.export.specs.Mirror.{role_of, user_of, area_of, state_of};
ghost use Rattle.export.specs.Mirror.{set_word, role_number, remirrored_user, remirrored_area, remirrored};
ghost use Rattle.export.specs.Calls.{name_of, operation_of, asked_of, answer_of, unit_performed, UnitPerforms, unit_formatted, UnitFormats};

use std::array;
use types::{Answer, Area, Block, Message, Name, Operation, Role, Sector, State, User};

// A user's entry; its role is a number.
#[repr(C)]
#[derive(Clone, Copy)]
pub struct UserState {
    pub id: u16,
    pub role: u16,
    pub opens: u16,
    pub position: u16,
}

// An area descriptor; open if `live` is not 0.
#[repr(C)]
#[derive(Clone, Copy)]
pub struct AreaState {
    pub live: u16,
    pub name: [u16; 3],
    pub index: u16,
    pub length: u16,
    pub users: [UserState; 3],
}

// The state; initialized if that word is not 0.
#[repr(C)]
#[derive(Clone, Copy)]
pub struct UnitState {
    pub unit: u16,
    pub initialized: u16,
    pub areas: [AreaState; 8],
}

// A call by its number, with the words of every call; each call reads its own.
#[repr(C)]
#[derive(Clone, Copy)]
pub struct UnitMessage {
    pub call: u16,
    pub name: [u16; 3],
    pub unit: u16,
    pub size: u16,
    pub attributes: u16,
    pub sender: u16,
    pub operation: u16,
    pub number: u16,
    pub bytes: u16,
    pub block: u16,
}

#[repr(C)]
#[derive(Clone, Copy)]
pub struct UnitAnswer {
    pub result: u16,
    pub bytes: u16,
    pub block: u16,
    pub entries: u32,
}

// The answer to a number that no call has.
const NO_SUCH_CALL: UnitAnswer = UnitAnswer {
    result: 0xFFFF,
    bytes: 0,
    block: 0,
    entries: 0,
};

// The role of a number: 0 sharing, 1 exclusive writer, any other exclusive user.
// A function: a `From<u16>` for a type of crate types can stand only there.
fn role_of(number: u16) -> Role
    ensures { result ≡ role_of number }
{
    match number {
        0 => Role::Sharing,
        1 => Role::ExclusiveWriter,
        _ => Role::ExclusiveUser,
    }
}

// The name of three words. A function, as `role_of` is.
fn name_of(words: [u16; 3]) -> Name
    ensures { result ≡ name_of words }
{
    Name(words[0], words[1], words[2])
}

// The user that a mirror of it stands for.
impl From<UserState> for User {
    ghost from_gives = { λ user r. r ≡ user_of user };

    fn from(user: UserState) -> User {
        User {
            id: user.id,
            role: role_of(user.role),
            opens: user.opens,
            position: Block(user.position),
        }
    }
}

// The area descriptor that a mirror of it stands for.
impl From<AreaState> for Area {
    ghost from_gives = { λ area r. r ≡ area_of area };

    fn from(area: AreaState) -> Area {
        Area {
            live: area.live != 0,
            name: name_of(area.name),
            index: Sector(area.index),
            length: area.length,
            users: area.users.map(User::from),
        }
    }
}

// The state that a mirror stands for.
impl From<UnitState> for State {
    ghost from_gives = { λ state r. r ≡ state_of state };

    fn from(state: UnitState) -> State {
        State {
            unit: state.unit,
            initialized: state.initialized != 0,
            areas: state.areas.map(Area::from),
        }
    }
}

// An answer as words.
impl From<Answer> for UnitAnswer {
    ghost from_gives = { λ answer r. answer_of r ≡ answer };

    fn from(answer: Answer) -> UnitAnswer {
        UnitAnswer {
            result: answer.result,
            bytes: answer.bytes,
            block: answer.block.0,
            entries: answer.entries,
        }
    }
}

// The word of a yes or no: one that stands for it already is kept.
fn set_word(word: u16, set: bool) -> u16
    ensures { result ≡ set_word word set }
{
    if set { word.max(1) } else { 0 }
}

// The number of a role: one that stands for it already is kept.
fn role_number(number: u16, role: Role) -> u16
    ensures { result ≡ role_number number role }
{
    match role {
        Role::Sharing => 0,
        Role::ExclusiveWriter => 1,
        Role::ExclusiveUser => number.max(2),
    }
}

// The mirror of a user, where `before` was its mirror.
fn remirror_user(before: UserState, user: User) -> UserState
    ensures { result ≡ remirrored_user before user }
{
    UserState {
        id: user.id,
        role: role_number(before.role, user.role),
        opens: user.opens,
        position: user.position.0,
    }
}

// The mirror of an area descriptor, where `before` was its mirror.
fn remirror_area(before: AreaState, area: Area) -> AreaState
    ensures { result ≡ remirrored_area before area }
{
    AreaState {
        live: set_word(before.live, area.live),
        name: [area.name.0, area.name.1, area.name.2],
        index: area.index.0,
        length: area.length,
        users: array::from_fn(
            |u: usize| -> UserState
                requires { u < 3 }
            { remirror_user(before.users[u], area.users[u]) },
        ),
    }
}

// The mirror of a state: each word of the mirror before it that stands for the same value is kept.
fn remirror(before: UnitState, state: State) -> UnitState
    ensures { result ≡ remirrored before state }
{
    UnitState {
        unit: state.unit,
        initialized: set_word(before.initialized, state.initialized),
        areas: array::from_fn(
            |j: usize| -> AreaState
                requires { j < 8 }
            { remirror_area(before.areas[j], state.areas[j]) },
        ),
    }
}

// What a message to an area process asks for: 0 Reserve, 1 Position, 2 Sense, 3 transput, any other an operation that it refuses.
fn operation_of(operation: u16, number: u16, bytes: u16, block: u16) -> Operation
    ensures { result ≡ operation_of operation number bytes block }
{
    match operation {
        0 => Operation::Reserve(number),
        1 => Operation::Position(block),
        2 => Operation::Sense,
        3 => Operation::Transput {
            operation: number,
            bytes,
            block,
        },
        _ => Operation::Other(number),
    }
}

// What a message asks for, by the number of its call: 0 to 10.
fn asked_of(message: UnitMessage) -> Option<Message>
    ensures { result ≡ asked_of message }
{
    let name = name_of(message.name);
    Some(match message.call {
        0 => Message::Init { unit: message.unit },
        1 => Message::Set { name },
        2 => Message::Create {
            name,
            size: message.size,
            attributes: message.attributes,
        },
        3 => Message::LookUp { name },
        4 => Message::Change { name },
        5 => Message::Remove { name },
        6 => Message::CreateArea { name },
        7 => Message::RemoveArea { name },
        8 => Message::AreaMessage {
            name,
            sender: message.sender,
            operation: operation_of(
                message.operation,
                message.number,
                message.bytes,
                message.block,
            ),
        },
        9 => Message::UnitDescription {
            unit: message.unit,
            bytes: message.bytes,
        },
        10 => Message::Listing { unit: message.unit },
        _ => return None,
    })
}

// Whether image and state are a sound unit.
#[unsafe(no_mangle)]
pub extern "C" fn ruzkemp_sound(image: &[u16], state: UnitState) -> bool
    ensures { Decides result (SoundUnit image.now (state_of state)) }
{
    soundness::sound(image, State::from(state))
}

// One call with the mirror by value: the answer, and the mirror that is left.
fn step(
    state: UnitState,
    image: &mut [u16],
    lent: &mut [u16],
    message: UnitMessage,
) -> (UnitAnswer, UnitState)
    ensures { UnitPerforms image.old state message lent.old
        (unit_performed image.new result.1 result.0 lent.new) }
{
    let Some(asked) = asked_of(message) else {
        return (NO_SUCH_CALL, state);
    };
    let o = perform::perform(image, State::from(state), asked, lent);
    (UnitAnswer::from(o.answer), remirror(state, o.state))
}

// One call: the mirror behind the reference is left that of the state after it, each word that stands for the same value kept. A number
// that no call has changes nothing.
#[unsafe(no_mangle)]
pub extern "C" fn ruzkemp_perform(
    state: &mut UnitState,
    image: &mut [u16],
    lent: &mut [u16],
    message: UnitMessage,
) -> UnitAnswer
    ensures { UnitPerforms image.old state.old message lent.old
        (unit_performed image.new state.new result lent.new) }
{
    let (answer, next) = step(*state, image, lent, message);
    *state = next;
    answer
}

// Format with the mirror by value: the result word, and the mirror that is left.
fn format_step(state: UnitState, image: &mut [u16], lent: &[u16], bytes: u16) -> (u16, UnitState)
    ensures { UnitFormats image.old state bytes lent.now
        (unit_formatted image.new result.1 result.0) }
{
    match format::format(image, State::from(state), bytes, lent) {
        Ok(left) => (0, remirror(state, left)),
        Err(refusal) => (refusal.word(), state),
    }
}

// Format, by the record lent.
#[unsafe(no_mangle)]
pub extern "C" fn ruzkemp_format(
    state: &mut UnitState,
    image: &mut [u16],
    lent: &[u16],
    bytes: u16,
) -> u16
    ensures { UnitFormats image.old state.old bytes lent.now
        (unit_formatted image.new state.new result) }
{
    let (result, next) = format_step(*state, image, lent, bytes);
    *state = next;
    result
}
