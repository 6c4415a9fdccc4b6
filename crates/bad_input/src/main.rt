// Bad inputs. Each line of the standard input is a case: a name, and after ':' the numbers in which image, state and call differ
// from those of a sound unit. The case's line of output has Init's result word, whether image and state are sound, and what
// became of the image, of the state's unit number and areas, and of 'initialized'. The expected lines are derived from
// documents 01 and 02 and not taken from a run.
//
// PLACE.WORD=VALUE sets one number, in base 10 or, with an h behind it, in base 16.
//   PLACE 0 to 20 is a sector of the image.
//   PLACE 100 to 107 is an area descriptor. WORD 0: open or not; 1 to 3: name; 4: index sector; 5: length; 6 to 9, 10 to 13 and
//   14 to 17: its users, each with identification, role (0 sharing, 1 exclusive writer, 2 exclusive user), open count, position.
//   PLACE 200 is all else. WORD 0: the state's unit; 1: initialized; 2: the unit that Init is called with; 3: how many words of
//   the image are lent; 4: the unit is formatted anew with this H and has no files; 5: every word of the image; 6: all
//   descriptors are as the first; 7: the unit is formatted anew with this F, H = 1, and has no files.

#![tactic(auto)]

ghost use Rattle.std.specs.Prelude.{◌≤◌, length, IfOk};

mod cases;
mod report;
mod setup;
mod unit;

use std::io::{self, Read, Write};

// Reads until the buffer is full or the input ends, and answers how many bytes it has read. By hand: `io::copy` would try an interrupted
// read again, where the program ends with that error.
fn read_full<R: Read>(input: &mut R, buf: &mut [u8]) -> io::Result<usize>
    ensures { IfOk result (λ n. n ≤ length buf.new) }
{
    let mut done = 0;
    while done < buf.len() {
        let n = input.read(&mut buf[done..])?;
        if n == 0 {
            break;
        }
        done += n;
    }
    Ok(done)
}

fn main(rt: HostRuntime) -> io::Result<()> {
    let mut image: unit::Disc = [0; 5376];
    let mut text = [0u8; 65536];
    let n = read_full(&mut rt.reader(), &mut text)?;
    let mut out = io::writer(&rt);
    cases::run(&mut image, &text[..n], &mut out)?;
    out.flush()
}
