// Each message's class and the unit that it names; the first question of every call, and the refusals of the first two.

#![tactic(auto)]

ghost use Rattle.std.specs.Prelude.{◌≡◌};
ghost use Rattle.types.specs.State.{UnitKnown};
ghost use Rattle.types.specs.Words.{refusal_word};
ghost use Rattle.disc.specs.Decide.{Decides};
ghost use Rattle.first_question.specs.Known.{by_unit, by_name, classified};
ghost use Rattle.first_question.specs.Known.{unknown_to, unsound_to, unknown_word, unsound_word, Ready, Known};

use types::{Message, Name, Refusal, State};

// The classes of messages: what the first two questions are, and their words, is one thing for each.
#[derive(Clone, Copy, Debug, PartialEq, Eq)]
pub enum Class {
    Init,
    Catalog,
    Area,
    Report,
}

// A message's class, and the number of the unit that it names.
#[derive(Clone, Copy, Debug, PartialEq, Eq)]
pub struct Classified {
    pub class: Class,
    pub unit: u16,
}

impl Class {
    // A message of the class that names its unit itself.
    fn by_unit(self, unit: u16) -> Classified
        ensures { result ≡ by_unit self unit }
    {
        Classified { class: self, unit }
    }

    // A message of the class that names its unit in a name.
    fn by_name(self, name: Name) -> Classified
        ensures { result ≡ by_name self name }
    {
        self.by_unit(names::unit_of(name))
    }

    // The refusals of the first two questions.
    fn unknown(self) -> Refusal
        ensures { refusal_word result ≡ unknown_to self }
    {
        match self {
            Class::Init | Class::Catalog | Class::Report => Refusal::CatalogParameter,
            Class::Area => Refusal::AreaIllegal,
        }
    }

    fn unsound(self) -> Refusal
        ensures { refusal_word result ≡ unsound_to self }
    {
        match self {
            Class::Init | Class::Catalog | Class::Report => Refusal::CatalogUnsound,
            Class::Area => Refusal::AreaUnsound,
        }
    }

    // Whether the unit is ready for a message of the class: Init asks for no area process, all others for an initialized unit.
    fn ready(self, state: State) -> bool
        ensures { Decides result (Ready state self) }
    {
        match self {
            Class::Init => state::none_open(state),
            Class::Catalog | Class::Area | Class::Report => state.initialized,
        }
    }
}

// What a message is.
pub fn classify(message: Message) -> Classified
    ensures { result ≡ classified message }
{
    match message {
        Message::Init { unit } => Class::Init.by_unit(unit),
        Message::Set { name }
        | Message::Create { name, .. }
        | Message::LookUp { name }
        | Message::Change { name }
        | Message::Remove { name } => Class::Catalog.by_name(name),
        Message::CreateArea { name }
        | Message::RemoveArea { name }
        | Message::AreaMessage { name, .. } => Class::Area.by_name(name),
        Message::UnitDescription { unit, .. } | Message::Listing { unit } => Class::Report.by_unit(
            unit,
        ),
    }
}

// The refusal of a call whose unit is not known, not initialized, or (Init) has an area process.
pub fn unknown(message: Message) -> Refusal
    ensures { refusal_word result ≡ unknown_word message }
{
    classify(message).class.unknown()
}

// The refusal of a call whose unit is not sound.
pub fn unsound(message: Message) -> Refusal
    ensures { refusal_word result ≡ unsound_word message }
{
    classify(message).class.unsound()
}

// Whether a number is that of the state's unit, one of 0 to 3.
fn unit_known(state: State, unit: u16) -> bool
    ensures { Decides result (UnitKnown state unit) }
{
    unit == state.unit && unit <= 3
}

// Whether the unit that a message names is known and ready.
pub fn known(state: State, message: Message) -> bool
    ensures { Decides result (Known state message) }
{
    let asked = classify(message);
    unit_known(state, asked.unit) && asked.class.ready(state)
}
