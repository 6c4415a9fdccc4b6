// Output at a position: its questions come first and, at the live length, the slice that one block more needs; then the one block is
// replaced. The booked entry stays.

#![tactic(auto)]

ghost use Rattle.std.specs.Prelude.{◌≡◌, ◌+◌, ◌≤◌, ◌<◌, ltb, length, IfOk};
ghost use Rattle.types.specs.Words.{result_word};
ghost use Rattle.disc.specs.Numbers.{need};
ghost use Rattle.index.specs.Block.{slice_total};
ghost use Rattle.plain.specs.Transput.{one_if};
ghost use Rattle.slices.specs.Take.{CanTake};
ghost use Rattle.output.specs.Output.{RoomFor, CanExtend, ExtendedBy, SomePlaced, reply_of, Prepares, Outputs};

use area_users::{AreaReply, UserEntry};
use catalog::Unit;
use index::IndexBlock;
use types::{Block, Refusal, Sector};

// The slices, one or none, that one block more needs beside those that the file's index block describes.
fn more_slices(unit: Unit, block: IndexBlock, length: u16) -> u16
    requires { (2 ≤ unit.slice) × (slice_total unit.slice block.words 0 < 65536) × (length < 65535) }
    ensures { result ≡ one_if (ltb (slice_total unit.slice block.words 0) (need unit.slice (length + 1))) }
{
    u16::from(index::slice_total(block, unit.slice) < numbers::need(unit.slice, length + 1))
}

// Whether the file whose index block is given can take `more` slices, one or none.
fn room_word(image: &[u16], unit: Unit, block: IndexBlock, more: u16) -> Result<(), Refusal>
    requires { CanTake image.now block.words unit.first.0 unit.slice unit.slices 0 }
    ensures { RoomFor image.now unit block.words more (result_word result) }
{
    if more != 0 {
        slices::next_slice(image, &block.words, unit)?;
    }
    Ok(())
}

// Takes `more` slices for the file whose index block is given. The file's index sector then.
fn extend(image: &mut [u16], unit: Unit, block: IndexBlock, more: u16) -> Sector
    requires { CanExtend image.old unit block.words more }
    ensures { ExtendedBy image.old unit block.words more image.new result.0 }
{
    let longer = slices::take_more(image, block, unit, more);
    slices::count_free(image, unit.slice);
    index::block_sector(longer, 0, Block(0))
}

// All of Output at position k but the words of its block: the questions, and at the live length the slice taken. Where none is
// refused, Output's reply, in whose state block k is the file's.
fn prepare(image: &mut [u16], unit: Unit, at: UserEntry, k: Block) -> Result<AreaReply, Refusal>
    requires { SomePlaced image.old at.state unit at.area at.user k.0 }
    ensures prepared { Prepares image.old at.state unit at.area at.user k.0
        (reply_of at.state at.area at.user k.0 result) image.new }
    ensures done { IfOk result (λ reply. reply.answer.result ≡ 0) }
{
    let area = at.area();
    if k.0 < area.length {
        return Ok(at.transferred(k));
    }
    if !numbers::bit(15, blocks::attributes_of(image, unit, area.name)) {
        return Err(Refusal::AreaIllegal);
    }
    let block = lookup::file_block(image, area.index);
    let more = more_slices(unit, block, area.length);
    room_word(image, unit, block, more)?;
    let index = extend(image, unit, block, more);
    let moved = state::with_position(area, at.user, Block(k.0 + 1));
    let next = state::with_live(moved, index, area.length + 1);
    Ok(area_users::reply(state::with_area(at.state, at.area, next), 0, 512, k))
}

// Output at position k by a user of an area.
pub fn output(image: &mut [u16], unit: Unit, at: UserEntry, k: Block, lent: &[u16]) -> AreaReply
    requires { SomePlaced image.old at.state unit at.area at.user k.0 × (256 ≤ length lent.now) }
    ensures { Outputs image.old at.state unit at.area at.user k.0 lent.now result image.new }
{
    match prepare(image, unit, at, k) {
        Ok(reply) => {
            let area = state::area_at(reply.state, at.area);
            blocks::replace(image, area.index, k, lent);
            reply
        }
        Err(refusal) => at.refused(refusal, k),
    }
}
