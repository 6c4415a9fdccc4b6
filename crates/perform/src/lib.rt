// The one call: the first two questions of every message, then the message's own step.

#![tactic(auto)]

ghost use Rattle.std.specs.Prelude.{◌≡◌};
ghost use Rattle.types.specs.Words.{result_word};
ghost use Rattle.plain.specs.Questions.{answer};
ghost use Rattle.areas.specs.Areas.{area_done};
ghost use Rattle.reports.specs.Description.{description_answer};
ghost use Rattle.reports.specs.Listing.{listing_answer};
ghost use Rattle.perform.specs.Perform.{performed, CanObey, Obeys, Performs};

use area_users::AreaReply;
use catalog::Unit;
use types::{Answer, Block, Message, Refusal, State};

// What comes of a call beside image and lent words: the answer and the state.
pub type Outcome = AreaReply;

// The outcome of a message that answers a result word alone.
fn word_alone(done: Result<(), Refusal>, state: State) -> Outcome
    ensures { (result.answer ≡ answer (result_word done) 0 0 0) × (result.state ≡ state) }
{
    let answer = Answer {
        result: types::result_word(done),
        bytes: 0,
        block: Block(0),
        entries: 0,
    };
    Outcome { answer, state }
}

// The outcome of area create and area remove: the state stays as it was where they are refused.
fn area_done(done: Result<State, Refusal>, state: State) -> Outcome
    ensures { (result.answer ≡ answer (area_done state done).result 0 0 0)
        × (result.state ≡ (area_done state done).state) }
{
    match done {
        Ok(next) => word_alone(Ok(()), next),
        Err(refusal) => word_alone(Err(refusal), state),
    }
}

// The outcome of Get Unit Description: 32 bytes are handed back, none where it is refused.
fn described(done: Result<(), Refusal>, state: State) -> Outcome
    ensures { (result.answer ≡ description_answer done) × (result.state ≡ state) }
{
    let mut outcome = word_alone(done, state);
    if done.is_ok() {
        outcome.answer.bytes = 32;
    }
    outcome
}

// The outcome of the listing: the number of entries is handed back, 0 where it is refused.
fn listed(done: Result<u32, Refusal>, state: State) -> Outcome
    ensures { (result.answer ≡ listing_answer done) × (result.state ≡ state) }
{
    let mut outcome = word_alone(done.map(|_| ()), state);
    outcome.answer.entries = done.unwrap_or(0);
    outcome
}

// A message to a unit that is known and sound.
fn obey(image: &mut [u16], unit: Unit, state: State, message: Message, lent: &mut [u16]) -> Outcome
    requires { CanObey image.old state unit message }
    ensures { Obeys image.old state unit message lent.old
        (performed image.new result.state result.answer lent.new) }
{
    match message {
        Message::Init { .. } => word_alone(Ok(()), state::with_initialized(state, true)),
        Message::Set { name } => word_alone(create::set(image, unit, name, lent), state),
        Message::Create {
            name,
            size,
            attributes,
        } => word_alone(create::create(image, unit, name, size, attributes), state),
        Message::LookUp { name } => word_alone(lookup::look_up(image, unit, name, lent), state),
        Message::Change { name } => word_alone(
            change::change(image, unit, state, name, lent),
            state,
        ),
        Message::Remove { name } => word_alone(remove::remove(image, unit, state, name), state),
        Message::CreateArea { name } => area_done(
            areas::create_area(image, unit, state, name),
            state,
        ),
        Message::RemoveArea { name } => area_done(
            areas::remove_area(image, unit, state, name),
            state,
        ),
        Message::AreaMessage {
            name,
            sender,
            operation,
        } => area_messages::area_message(image, unit, state, name, sender, operation, lent),
        Message::UnitDescription {
            unit: number,
            bytes,
        } => described(reports::describe(image, unit, number, bytes, lent), state),
        Message::Listing { .. } => listed(reports::list(image, unit, lent), state),
    }
}

// One call, whatever image, state, message and lent words are.
pub fn perform(image: &mut [u16], state: State, message: Message, lent: &mut [u16]) -> Outcome
    ensures { Performs image.old state message lent.old
        (performed image.new result.state result.answer lent.new) }
{
    if !first_question::known(state, message) {
        return word_alone(Err(first_question::unknown(message)), state);
    }
    let Some(unit) = soundness::judge(image, state) else {
        return word_alone(Err(first_question::unsound(message)), state);
    };
    obey(image, unit, state, message, lent)
}
