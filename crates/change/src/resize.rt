// The slices and blocks of an ordinary file become another number of them: Change with another length.

ghost use Rattle.change.specs.Resize.{CanReslice, Resliced, CanResize, Resized};

use catalog::Unit;
use index::IndexBlock;

// The sectors and the slices of a file.
#[derive(Clone, Copy)]
pub struct Extent {
    pub size: u16,
    pub slices: u16,
}

// Gives back slices from the end, or takes some; the index block is stored where that changes it.
fn reslice(image: &mut [u16], unit: Unit, block: IndexBlock, had: u16, has: u16) -> IndexBlock
    requires { CanReslice image.old unit block.words had has }
    ensures { Resliced image.old unit block.words had has image.new result.words }
{
    if has <= had {
        slices::give_back(image, block, unit, has, had)
    } else {
        slices::take_more(image, block, unit, has - had)
    }
}

// The file whose index block is given, with the sectors and slices that it had and is to have; the sectors that join are zeroed.
pub fn resize(
    image: &mut [u16],
    unit: Unit,
    block: IndexBlock,
    had: Extent,
    has: Extent,
) -> IndexBlock
    requires { CanResize image.old unit block.words had has }
    ensures { Resized image.old unit block.words had has image.new result.words }
{
    let after = reslice(image, unit, block, had.slices, has.slices);
    if had.size < has.size {
        slices::zero_sectors(image, after, had.size + 1, has.size - had.size);
    }
    after
}
