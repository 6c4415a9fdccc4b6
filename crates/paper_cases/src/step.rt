// What a line does.

ghost use Rattle.std.specs.Prelude.{◌≤◌, length};

use crate::lines::Line;
use catalog::Place;
use std::io::{self, Write};
use types::{Answer, Message, Name, Operation, Sector, State};

// What the lines work on. The image has room for 30 sectors; a unit has its first 256 times N words.
#[derive(Clone, Copy)]
pub struct Session {
    pub image: [u16; 7680],
    pub lent: [u16; 256],
    pub state: State,
}

// SYS's third place.
const SYS_THIRD: Place = Place {
    sector: Sector(10),
    slot: 2,
};

// Writes a number of a line.
fn number<W: Write>(value: u16, out: &mut W) -> io::Result<()> {
    write!(out, " {value:04x}")
}

// A message to an area process.
fn to_area(name: Name, sender: u16, operation: Operation) -> Message {
    Message::AreaMessage {
        name,
        sender,
        operation,
    }
}

// The message of a line.
fn message_of(line: &Line<'_>) -> Message {
    let [first_name, second_name, third_name, first, second, ..] = line.numbers;
    let name = Name(first_name, second_name, third_name);
    match line.letter {
        b'i' => Message::Init { unit: 0 },
        b's' => Message::Set { name },
        b'c' => Message::Create {
            name,
            size: first,
            attributes: second,
        },
        b'l' => Message::LookUp { name },
        b'm' => Message::Change { name },
        b'r' => Message::Remove { name },
        b'a' => Message::CreateArea { name },
        b'd' => Message::RemoveArea { name },
        b'u' => to_area(name, first, Operation::Reserve(second)),
        b'p' => to_area(name, 1, Operation::Position(first)),
        b't' => to_area(
            name,
            1,
            Operation::Transput {
                operation: first,
                bytes: 512,
                block: second,
            },
        ),
        _ => Message::Listing { unit: 0 },
    }
}

// Prepares the words that a call is lent.
fn lend<'a>(lent: &'a mut [u16; 256], line: &Line<'_>) -> &'a mut [u16]
    ensures { length result.now ≤ 256 }
{
    match line.letter {
        b's' | b'm' => &mut lent[..16],
        b'n' => {
            lent.fill(9);
            &mut lent[..(line.numbers[0] % 256) as usize]
        }
        _ => {
            lent.fill(0);
            lent[0] = line.numbers[5];
            lent
        }
    }
}

// The words of the unit: 256 times the N that its kit has, and no word where that is above 30.
fn unit_words(image: &mut [u16; 7680]) -> &mut [u16]
    ensures { length result.now ≤ 7680 }
{
    match image[8 * 256 + 2] {
        sectors @ 0..=30 => &mut image[..256 * sectors as usize],
        _ => &mut [],
    }
}

// The rest of a call's line.
fn answered<W: Write>(
    letter: u8,
    answer: Answer,
    lent: &[u16; 256],
    out: &mut W,
) -> io::Result<()> {
    number(answer.result, out)?;
    match letter {
        b's' | b'm' => {}
        b'n' => write!(out, " {:04x}", answer.entries)?,
        _ => {
            for word in [answer.bytes, answer.block.0, lent[0], lent[7], lent[9]] {
                number(word, out)?;
            }
        }
    }
    out.write_all(b"\n")
}

// A fresh unit with this H and N; none is made where N is not 10 to 30.
fn fresh(image: &mut [u16; 7680], keys: u16, sectors: u16) {
    if let 10..=30 = sectors {
        let record = [0, keys, 2, sectors, sectors - 10, 10, sectors, 0, 0];
        let unit = &mut image[..256 * sectors as usize];
        let _ = format::format(unit, types::fresh_state(0), 18, &record);
    }
}

// A line of words, by their indices; 0 where the index is past the last word.
fn show<W: Write>(words: &[u16], line: &Line<'_>, out: &mut W) -> io::Result<()> {
    out.write_all(line.label)?;
    for index in line.given() {
        number(words.get(*index as usize).copied().unwrap_or(0), out)?;
    }
    out.write_all(b"\n")
}

impl Session {
    // A call. Init's is of a unit that is not initialized.
    fn call<W: Write>(&mut self, line: &Line<'_>, out: &mut W) -> io::Result<()> {
        if line.letter == b'i' {
            self.state = types::fresh_state(0);
        }
        let lent = lend(&mut self.lent, line);
        let image = unit_words(&mut self.image);
        let outcome = perform::perform(image, self.state, message_of(line), lent);
        self.state = outcome.state;
        out.write_all(line.label)?;
        answered(line.letter, outcome.answer, &self.lent, out)
    }

    // Does what a line says.
    pub fn step<W: Write>(&mut self, line: &Line<'_>, out: &mut W) -> io::Result<()> {
        match line.letter {
            b'e' => self.lent[..16].copy_from_slice(&line.numbers),
            b'f' => fresh(&mut self.image, line.numbers[0], line.numbers[1]),
            b'g' => show(&self.lent, line, out)?,
            b'k' => catalog::write_entry(&mut self.image, SYS_THIRD, &line.numbers),
            b'w' => show(&self.image, line, out)?,
            _ => self.call(line, out)?,
        }
        Ok(())
    }
}
