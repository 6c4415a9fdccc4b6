// What comes of a case.

use crate::setup::Setup;
use crate::unit::Disc;
use std::io::{self, Write};
use types::{Area, Message, State};

// What Init answers with the image's first words, and whether they are a sound unit; the state that it leaves.
// Where the image has not so many words, Init is not called.
fn answer<W: Write>(image: &mut Disc, setup: &Setup, out: &mut W) -> io::Result<State> {
    let Some(words) = image.get_mut(..setup.count as usize) else {
        return Ok(setup.state);
    };
    // Init has no use for lent words; it is lent one.
    let init = Message::Init { unit: setup.unit };
    let outcome = perform::perform(words, setup.state, init, &mut [0]);
    write!(out, ": {:04x}", outcome.answer.result)?;
    let sound = soundness::sound(words, setup.state);
    out.write_all(if sound { b", sound" } else { b", not sound" })?;
    Ok(outcome.state)
}

// Whether two descriptors are the same; names are compared in `names` alone (docs/DECISIONS.md, 110).
fn same_area(a: &Area, b: &Area) -> bool {
    names::same_name(a.name, b.name)
        && a.live == b.live
        && a.index == b.index
        && a.length == b.length
        && a.users == b.users
}

// Whether the unit number and all descriptors are the same.
fn same_rest(a: &State, b: &State) -> bool {
    a.unit == b.unit && a.areas.iter().zip(&b.areas).all(|(a, b)| same_area(a, b))
}

// The case's line after its name.
pub fn show<W: Write>(image: &mut Disc, setup: &Setup, out: &mut W) -> io::Result<()> {
    let before = *image;
    let after = answer(image, setup, out)?;
    out.write_all(if *image == before {
        b", image kept"
    } else {
        b", IMAGE CHANGED"
    })?;
    out.write_all(if same_rest(&setup.state, &after) {
        b", areas kept"
    } else {
        b", AREAS CHANGED"
    })?;
    out.write_all(if after.initialized {
        b", initialized\n"
    } else {
        b", not initialized\n"
    })
}
