// The types that the code, the state and the reference model share.

#![tactic(auto)]

ghost use Rattle.std.specs.Prelude.{◌≡◌};
ghost use Rattle.types.specs.State.{vacant_user, vacant_area, fresh_state};
ghost use Rattle.types.specs.Words.{refusal_word, result_word};

// Numbers that name different things: a sector of the disc, a slice of the unit, a block of a file.
#[derive(Clone, Copy, Debug, PartialEq, Eq, PartialOrd, Ord)]
pub struct Sector(pub u16);

#[derive(Clone, Copy, Debug, PartialEq, Eq, PartialOrd, Ord)]
pub struct Slice(pub u16);

#[derive(Clone, Copy, Debug, PartialEq, Eq, PartialOrd, Ord)]
pub struct Block(pub u16);

// Three words: five characters, high half first, and the sixth character.
#[derive(Clone, Copy, Debug, PartialEq, Eq)]
pub struct Name(pub u16, pub u16, pub u16);

// What a user may do on an area; a role only rises, in this order.
#[derive(Clone, Copy, Debug, PartialEq, Eq, PartialOrd, Ord)]
pub enum Role {
    Sharing,
    ExclusiveWriter,
    ExclusiveUser,
}

// A user's entry in an area descriptor; vacant if the identification is 0. No `Option`: the mirror of C programs has these words, and a vacant
// entry keeps its other ones (`export/Mirror` `MirrorClaims`).
#[derive(Clone, Copy, Debug, PartialEq, Eq)]
pub struct User {
    pub id: u16,
    pub role: Role,
    pub opens: u16,
    pub position: Block,
}

// An area descriptor: the index sector and the live length are the process's own. It is open if `live`, and no `Option`, as a user's entry.
#[derive(Clone, Copy, Debug, PartialEq, Eq)]
pub struct Area {
    pub live: bool,
    pub name: Name,
    pub index: Sector,
    pub length: u16,
    pub users: [User; 3],
}

// The unit's state: its number, whether it is initialized, and its eight area descriptors.
#[derive(Clone, Copy, Debug, PartialEq, Eq)]
pub struct State {
    pub unit: u16,
    pub initialized: bool,
    pub areas: [Area; 8],
}

// What a message to an area process asks for (source document, chapter 5). Counts and operations are the caller's numbers: any may come from C.
#[derive(Clone, Copy, Debug, PartialEq, Eq)]
pub enum Operation {
    Reserve(u16),
    Position(u16),
    Sense,
    Transput {
        operation: u16,
        bytes: u16,
        block: u16,
    },
    Other(u16),
}

// A call, with its numbers; the words lent to it come beside it.
#[derive(Clone, Copy, Debug, PartialEq, Eq)]
pub enum Message {
    Init {
        unit: u16,
    },
    Set {
        name: Name,
    },
    Create {
        name: Name,
        size: u16,
        attributes: u16,
    },
    LookUp {
        name: Name,
    },
    Change {
        name: Name,
    },
    Remove {
        name: Name,
    },
    CreateArea {
        name: Name,
    },
    RemoveArea {
        name: Name,
    },
    AreaMessage {
        name: Name,
        sender: u16,
        operation: Operation,
    },
    UnitDescription {
        unit: u16,
        bytes: u16,
    },
    Listing {
        unit: u16,
    },
}

// The answer to a call: the result word, and what the call hands back beside it. A word and no `Result`: it is what C programs are given.
#[derive(Clone, Copy, Debug, PartialEq, Eq)]
pub struct Answer {
    pub result: u16,
    pub bytes: u16,
    pub block: Block,
    pub entries: u32,
}

// A refused call: one case for each result word but 0, with that word.
#[derive(Clone, Copy, Debug, PartialEq, Eq)]
pub enum Refusal {
    CatalogParameter = 0x1200,
    CatalogUnsound = 0x9000,
    NoEntry = 0x5000,
    EntryExists = 0x1010,
    DiscFull = 0x1100,
    IndexFull = 0x1008,
    FormatRecord = 0x1080,
    AreaIllegal = 0x0A00,
    AreaUnsound = 0x8800,
    NoArea = 0x4800,
    AreaFull = 0x0900,
    AreaReserved = 0x0200,
    NotUserOrPastEnd = 0x0810,
    UsersOrIndexFull = 0x0808,
    BlockSize = 0x0880,
    WriteProtected = 0x0C00,
}

impl Refusal {
    // The result word.
    pub fn word(self) -> u16
        ensures { result ≡ refusal_word self }
    {
        self as u16
    }
}

// The result word of a call: 0, or that of its refusal.
pub fn result_word(done: Result<(), Refusal>) -> u16
    ensures { result ≡ result_word done }
{
    match done {
        Ok(()) => 0,
        Err(refusal) => refusal.word(),
    }
}

// A vacant user entry.
pub fn vacant_user() -> User
    ensures { result ≡ vacant_user }
{
    User {
        id: 0,
        role: Role::Sharing,
        opens: 0,
        position: Block(0),
    }
}

// A vacant area descriptor.
pub fn vacant_area() -> Area
    ensures { result ≡ vacant_area }
{
    Area {
        live: false,
        name: Name(0, 0, 0),
        index: Sector(0),
        length: 0,
        users: [vacant_user(); 3],
    }
}

// The state of a unit that is not initialized and has no area process.
pub fn fresh_state(unit: u16) -> State
    ensures { result ≡ fresh_state unit }
{
    State {
        unit,
        initialized: false,
        areas: [vacant_area(); 8],
    }
}
