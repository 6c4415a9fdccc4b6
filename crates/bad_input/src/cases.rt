// The cases, read line by line.

ghost use Rattle.std.specs.Prelude.{◌<◌};

use crate::report::show;
use crate::setup::Setup;
use crate::unit::{Disc, build};
use std::io::{self, Write};

// A text before and after the first such byte.
fn split_at_byte(text: &[u8], byte: u8) -> Option<(&[u8], &[u8])> {
    let at = text.iter().position(|b| *b == byte)?;
    Some((&text[..at], &text[at + 1..]))
}

// A digit of base 16; 0 for another byte.
fn digit(byte: u8) -> u16
    ensures { result < 16 }
{
    match byte {
        b'0'..=b'9' => (byte - b'0') as u16,
        b'A'..=b'F' => (byte - b'A') as u16 + 10,
        _ => 0,
    }
}

// The number that digits of a base say, carry out of 16 bits dropped.
fn digits(text: &[u8], base: u16) -> u16 {
    text.iter().fold(0u16, |value, byte| {
        value.wrapping_mul(base).wrapping_add(digit(*byte))
    })
}

// The number that a text says.
// By hand: std's `from_str_radix` refuses what these lines may have, an empty text, other bytes, and a number above FFFFh.
fn number(text: &[u8]) -> u16 {
    match text {
        [hex @ .., b'h'] => digits(hex, 16),
        _ => digits(text, 10),
    }
}

// One PLACE.WORD=VALUE; another text sets nothing.
fn edit(image: &mut Disc, setup: &mut Setup, text: &[u8]) {
    let Some((place, others)) = split_at_byte(text, b'.') else {
        return;
    };
    let Some((word, value)) = split_at_byte(others, b'=') else {
        return;
    };
    setup.set_word(image, number(place), number(word), number(value));
}

// One case: its name, and behind ':' what it sets.
fn case<W: Write>(image: &mut Disc, text: &[u8], out: &mut W) -> io::Result<()> {
    let (name, edits) = split_at_byte(text, b':').unwrap_or((text, b""));
    let mut setup = Setup::usual();
    build(image);
    for text in edits.split(|byte| *byte == b' ') {
        edit(image, &mut setup, text);
    }
    out.write_all(name)?;
    show(image, &setup, out)
}

// All cases; behind the last line's end there is none.
pub fn run<W: Write>(image: &mut Disc, text: &[u8], out: &mut W) -> io::Result<()> {
    if text.is_empty() {
        return Ok(());
    }
    let lines = text.strip_suffix(b"\n").unwrap_or(text);
    for line in lines.split(|byte| *byte == b'\n') {
        case(image, line, out)?;
    }
    Ok(())
}
