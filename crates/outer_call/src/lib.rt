// The one call over a state that is lent: image, state and lent words are the caller's, and the call leaves its changes in them.

#![tactic(auto)]

ghost use Rattle.perform.specs.Perform.{performed, Performs};

use perform::Outcome;
use types::{Answer, Message, State};

// The one call with the state by value, its parameters in the order of `call`.
fn step(state: State, image: &mut [u16], lent: &mut [u16], message: Message) -> Outcome
    ensures { Performs image.old state message lent.old
        (performed image.new result.state result.answer lent.new) }
{
    perform::perform(image, state, message, lent)
}

// One call, whatever state, image, lent words and message are.
pub fn call(state: &mut State, image: &mut [u16], lent: &mut [u16], message: Message) -> Answer
    ensures { Performs image.old state.old message lent.old
        (performed image.new state.new result lent.new) }
{
    let outcome = step(*state, image, lent, message);
    *state = outcome.state;
    outcome.answer
}
