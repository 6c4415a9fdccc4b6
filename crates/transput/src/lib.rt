// Transput by a user of an open area: its questions, Position first for 5 and 7, then input or output.

#![tactic(auto)]

ghost use Rattle.std.specs.Prelude.{◌≡◌, ◌≤◌, length};
ghost use Rattle.types.specs.Words.{refusal_word, result_word};
ghost use Rattle.plain.specs.Transput.{is_output, is_random, end_word};
ghost use Rattle.lookup.specs.Unit.{Searchable};
ghost use Rattle.output.specs.Output.{SomePlaced};
ghost use Rattle.transput.specs.Transput.{RefusalFor, Inputs, TransputsAt, Seated, Transputs};

use area_users::{AreaReply, UserEntry};
use catalog::Unit;
use state::Kind;
use types::{Area, Block, Refusal};

// Whether an operation is output.
pub fn is_output(operation: u16) -> bool
    ensures { result ≡ is_output operation }
{
    matches!(operation, 3 | 7 | 19)
}

// Whether it does Position first.
pub fn is_random(operation: u16) -> bool
    ensures { result ≡ is_random operation }
{
    matches!(operation, 5 | 7)
}

// The questions before the position is moved, for so many words lent.
fn refusal(
    image: &[u16],
    unit: Unit,
    area: Area,
    sender: u16,
    operation: u16,
    bytes: u16,
    count: usize,
) -> Result<(), Refusal>
    requires { Searchable image.now unit }
    ensures { RefusalFor image.now unit area sender operation bytes count (result_word result) }
{
    if bytes != 512 || count < 256 {
        return Err(Refusal::BlockSize);
    }
    if !is_output(operation) {
        return Ok(());
    }
    if state::any_other(area, sender, Kind::Writer) {
        return Err(Refusal::AreaIllegal);
    }
    if numbers::bit(12, blocks::attributes_of(image, unit, area.name)) {
        return Err(Refusal::WriteProtected);
    }
    Ok(())
}

// The refusal of an input at the length of a file with these attributes: an extendable file may yet grow, a fixed one has ended.
fn end_word(attributes: u16) -> Refusal
    ensures { refusal_word result ≡ end_word attributes }
{
    if numbers::bit(15, attributes) {
        return Refusal::NotUserOrPastEnd;
    }
    Refusal::AreaIllegal
}

// Input at position k by a user of an area. Only at the length are the file's attributes looked up.
fn input(image: &[u16], unit: Unit, at: UserEntry, k: Block, lent: &mut [u16]) -> AreaReply
    requires { SomePlaced image.now at.state unit at.area at.user k.0 × (256 ≤ length lent.old) }
    ensures { Inputs image.now at.state unit at.area at.user k.0 lent.old result lent.new }
{
    let area = at.area();
    if area.length <= k.0 {
        let end = end_word(blocks::attributes_of(image, unit, area.name));
        return at.refused(end, k);
    }
    blocks::read(image, area.index, k, lent);
    at.transferred(k)
}

// Input or output at position k.
fn transput_at(
    image: &mut [u16],
    unit: Unit,
    at: UserEntry,
    operation: u16,
    k: Block,
    lent: &mut [u16],
) -> AreaReply
    requires { SomePlaced image.old at.state unit at.area at.user k.0 × (256 ≤ length lent.old) }
    ensures { TransputsAt image.old at.state unit at.area at.user operation k.0 lent.old result
        lent.new image.new }
{
    if is_output(operation) {
        output::output(image, unit, at, k, lent)
    } else {
        input(image, unit, at, k, lent)
    }
}

// Transput by the sender, a user of an area. 5 and 7 move the position whatever follows.
pub fn transput(
    image: &mut [u16],
    unit: Unit,
    at: UserEntry,
    sender: u16,
    operation: u16,
    bytes: u16,
    block: u16,
    lent: &mut [u16],
) -> AreaReply
    requires { Seated image.old at.state unit at.area sender at.user }
    ensures { Transputs image.old at.state unit at.area sender at.user operation bytes block lent.old result
        lent.new image.new }
{
    let area = at.area();
    let own = state::user_at(area, at.user).position;
    if let Err(no) = refusal(image, unit, area, sender, operation, bytes, lent.len()) {
        return at.refused(no, own);
    }
    if !is_random(operation) {
        return transput_at(image, unit, at, operation, own, lent);
    }
    let reached = area_users::position_reached(area.length, block);
    if let Err(no) = area_users::position_word(area.length, block) {
        return at.refused(no, Block(reached));
    }
    transput_at(image, unit, at, operation, Block(block), lent)
}
