// The cases of document 01's section 'Worked on paper', and those of document 02, run through the one call: s = 2, F = 10. Each
// line of the standard input is a step: a text, and after ':' a letter and numbers in base 16; a line that begins with '#' is a comment.
// The text is written with its ':', and then what the letter says. The expected lines are derived from documents 01 and 02 and not taken
// from a run.
//
// Calls, NAME being three words. Their line has the result word, the byte count and the block handed back, and words 0, 7 and 9 of the 256
// words lent, of which the first was FIRST, or else 0, and all others 0.
//   i                               Init, of a unit that is not initialized
//   c NAME SIZE ATTRIBUTES          Create
//   l NAME 0 0 FIRST                Look-up
//   r NAME                          Remove
//   a NAME, d NAME                  area create, area remove
//   u NAME SENDER NUMBER            Reserve, with number 0 Release
//   p NAME BLOCK 0 FIRST            Position, sender 1
//   t NAME OPERATION BLOCK FIRST    transput of 512 bytes, sender 1
// Calls to which the 16 words of the last e are lent; their line has the result word.
//   s NAME, m NAME                  Set, Change
// The listing into COUNT words, each 9; its line has the result word and the number of entries.
//   n COUNT                         Listing
// Lines of words by their indices.
//   w INDEX .., g INDEX ..          words of the image, words lent
// What writes nothing.
//   f H N                           the unit is formatted anew, with N sectors, at most 30
//   e WORD ..                       an entry is lent
//   k WORD ..                       an entry is written into SYS's third place

#![tactic(auto)]

ghost use Rattle.std.specs.Prelude.{◌≤◌, length, IfOk};

mod lines;
mod step;

use std::io::{self, Read, Write};

// Reads until the buffer is full or the input ends, and answers how many bytes it has read. By hand: `io::copy` would try an interrupted
// read again, where the program ends with that error.
fn read_full<R: Read>(input: &mut R, buf: &mut [u8]) -> io::Result<usize>
    ensures { IfOk result (λ n. n ≤ length buf.new) }
{
    let mut done = 0;
    while done < buf.len() {
        let n = input.read(&mut buf[done..])?;
        if n == 0 {
            break;
        }
        done += n;
    }
    Ok(done)
}

fn main(rt: HostRuntime) -> io::Result<()> {
    let mut session = step::Session {
        image: [0; 7680],
        lent: [0; 256],
        state: types::fresh_state(0),
    };
    let mut text = [0u8; 65536];
    let n = read_full(&mut rt.reader(), &mut text)?;
    let mut out = io::writer(&rt);
    lines::run(&mut session, &text[..n], &mut out)?;
    out.flush()
}
