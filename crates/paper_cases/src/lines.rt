// The lines, read one by one.

ghost use Rattle.std.specs.Prelude.{◌≤◌, ◌<◌};

use crate::step::Session;
use std::io::{self, Write};

// A line: its text with the ':', its letter, and its numbers, of which there are `count`, and 0 behind them.
#[derive(Clone, Copy)]
pub struct Line<'a> {
    pub label: &'a [u8],
    pub letter: u8,
    pub numbers: [u16; 16],
    count: usize,
    ghost within: { count ≤ 16 },
}

// A digit of base 16; 0 for another byte.
fn digit(byte: u8) -> u16
    ensures { result < 16 }
{
    match byte {
        b'0'..=b'9' => (byte - b'0') as u16,
        b'a'..=b'f' => (byte - b'a') as u16 + 10,
        _ => 0,
    }
}

// The numbers of a text, each behind a blank, and 0 behind them, carry out of 16 bits dropped; what follows the 16th blank is one number, in
// which a blank is no digit. How many they are.
// By hand: std's `from_str_radix` refuses what these lines may have, an empty text, other bytes, and a number above FFFFh; and a pass for each of
// `split`, `filter` and `count` takes up to 1.5 times the time.
fn numbers_of(text: &[u8]) -> ([u16; 16], usize)
    ensures { result.1 ≤ 16 }
{
    let mut numbers = [0u16; 16];
    let mut count: usize = 0;
    for byte in text {
        if *byte == b' ' {
            count = (count + 1).min(16);
        } else if count > 0 {
            let word = &mut numbers[count - 1];
            *word = word.wrapping_mul(16).wrapping_add(digit(*byte));
        }
    }
    (numbers, count)
}

impl<'a> Line<'a> {
    // The line that a text says; none where it is too short or begins with '#'.
    fn of(text: &'a [u8]) -> Option<Line<'a>> {
        if text.starts_with(b"#") {
            return None;
        }
        let colon = text.iter().position(|byte| *byte == b':')?;
        let (label, [_, letter, digits @ ..]) = text.split_at(colon + 1) else {
            return None;
        };
        let (numbers, count) = numbers_of(digits);
        Some(Line {
            label,
            letter: *letter,
            numbers,
            count,
        })
    }

    // The numbers that the line has.
    pub fn given(&self) -> &[u16] {
        &self.numbers[..self.count]
    }
}

// All lines.
pub fn run<W: Write>(session: &mut Session, text: &[u8], out: &mut W) -> io::Result<()> {
    for text in text.split(|byte| *byte == b'\n') {
        if let Some(line) = Line::of(text) {
            session.step(&line, out)?;
        }
    }
    Ok(())
}
