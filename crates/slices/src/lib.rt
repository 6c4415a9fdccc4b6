// The slices of files: which one is taken next, slices taken, for a new file in one stretch where there is one, and given back, with the
// index block stored whole; whether there is room for all that are wanted; sectors zeroed, and the free slices counted.

#![tactic(auto)]

ghost use Rattle.std.specs.Prelude.{◌≡◌, ◌+◌, ◌*◌, ◌≤◌, ◌<◌, length, is_ok, Err};
ghost use Rattle.types.specs.Words.{refusal_word};
ghost use Rattle.disc.specs.Map.{ones_in_map};
ghost use Rattle.refine.specs.Writes.{counted_free};
ghost use Rattle.slices.specs.Take.{next_word, Chosen, CanTake, Taken, FileTaken, CanLengthen, LengthenedAt, CanLengthenFile, Lengthened};
ghost use Rattle.slices.specs.Fit.{CanFit, Fits};
ghost use Rattle.slices.specs.Give.{CanFree, Freed, CanCut, Cut};
ghost use Rattle.slices.specs.Zero.{CanZero, Zeroed};

use catalog::Unit;
use index::{IndexBlock, Reached};
use types::{Block, Refusal, Sector, Slice};

// Why a file cannot take one slice more: no slice is free, or its index block has no room for one more stretch.
#[derive(Clone, Copy, Debug, PartialEq, Eq)]
pub enum Lack {
    NoneFree,
    Crowded,
}

// The words of an appending output: "one free? 0900h; .. at most 127 stretches with it? 0808h".
impl From<Lack> for Refusal {
    ghost from_gives = { λ lack refusal. refusal_word refusal ≡ next_word (Err lack) };

    fn from(lack: Lack) -> Refusal {
        match lack {
            Lack::NoneFree => Refusal::AreaFull,
            Lack::Crowded => Refusal::UsersOrIndexFull,
        }
    }
}

// The index block of a file, and how many slices it is to take.
#[derive(Clone, Copy)]
pub struct Growth {
    pub block: IndexBlock,
    pub more: u16,
}

// The slice that the file with this index block takes, if it takes one: the next after its last if that is free, else the lowest free.
pub fn next_slice(image: &[u16], words: &[u16], unit: Unit) -> Result<Slice, Lack>
    requires { CanTake image.now words.now unit.first.0 unit.slice unit.slices 0 }
    ensures { Chosen image.now words.now unit.first.0 unit.slice unit.slices result }
{
    let last = index::last_slice_at(words, Sector(0), unit.first, unit.slice);
    let Some(k) = map::choose_slice(image, last, unit.slices) else {
        return Err(Lack::NoneFree);
    };
    if 127 < index::stretches_with_at(words, Sector(0), unit.first, unit.slice, k) {
        return Err(Lack::Crowded);
    }
    Ok(k)
}

// Takes the next slice: marks it used and puts it at the end of the block.
fn take_one(image: &mut [u16], words: &mut [u16], unit: Unit) -> Result<(), Lack>
    requires { CanTake image.old words.old unit.first.0 unit.slice unit.slices 1 }
    ensures { Taken image.old words.old unit.first.0 unit.slice unit.slices 1 image.new words.new (is_ok result) }
{
    let k = next_slice(image, words, unit)?;
    map::mark_used(image, k);
    index::append_slice(words, unit.first, unit.slice, k);
    Ok(())
}

// Takes n slices, one after the other: the one loop for slices on the image and for those that are only tried. It stops where the block
// has no room.
fn take_slices(image: &mut [u16], words: &mut [u16], unit: Unit, n: u16) -> Result<(), Lack>
    requires { CanTake image.old words.old unit.first.0 unit.slice unit.slices n }
    ensures { Taken image.old words.old unit.first.0 unit.slice unit.slices n image.new words.new (is_ok result) }
{
    for _ in 0..n {
        take_one(image, words, unit)?;
    }
    Ok(())
}

// Takes n slices for a file. One that has none takes the lowest stretch of n neighbouring free slices, if there is one: its first slice is
// that of the stretch, and the others are the next ones. All else is taken one after the other.
fn take_for_file(image: &mut [u16], words: &mut [u16], unit: Unit, n: u16) -> Result<(), Lack>
    requires { CanTake image.old words.old unit.first.0 unit.slice unit.slices n }
    ensures { FileTaken image.old words.old unit.first.0 unit.slice unit.slices n image.new words.new (is_ok result) }
{
    if 0 < n
        && index::pair_count(words, Sector(0)) == 0
        && let Some(k) = map::lowest_stretch(image, n)
    {
        map::mark_used(image, k);
        index::append_slice(words, unit.first, unit.slice, k);
        return take_slices(image, words, unit, n - 1);
    }
    take_slices(image, words, unit, n)
}

// Whether a catalog and then a file have room for the slices that they are to take: both take them on a copy of the map, sector 9.
pub fn fits(image: &[u16], catalog: Growth, file: Growth, unit: Unit) -> bool
    requires { CanFit image.now unit.first.0 unit.slice unit.slices catalog file }
    ensures { Fits image.now unit.first.0 unit.slice unit.slices catalog file result }
{
    let mut scratch = [0u16; 2560];
    words::copy_words(image, 2304, &mut scratch, 2304, 256);
    let mut words = catalog.block.words;
    let mut others = file.block.words;
    take_slices(&mut scratch, &mut words, unit, catalog.more).is_ok()
        && take_for_file(&mut scratch, &mut others, unit, file.more).is_ok()
}

// Takes n slices, for which there is room, one after the other: for the catalog whose index block, given and changed, stands in sector q;
// with n = 0 nothing is written.
pub fn take_at(
    image: &mut [u16],
    q: Sector,
    mut block: IndexBlock,
    unit: Unit,
    n: u16,
) -> IndexBlock
    requires { (q.0 * 256 + 256 ≤ length image.old) × CanLengthen image.old block.words unit.first.0 unit.slice unit.slices n }
    ensures { LengthenedAt image.old block.words q.0 unit.first.0 unit.slice unit.slices n image.new result.words }
{
    if n == 0 {
        return block;
    }
    let _ = take_slices(image, &mut block.words, unit, n);
    index::store_block(image, q, block);
    block
}

// The same for an ordinary file, by the choice for files; its index block goes to the first sector of its first slice: a new one, if it had
// none. Apart from `take_at`, since another choice is made and the block goes elsewhere.
pub fn take_more(image: &mut [u16], mut block: IndexBlock, unit: Unit, n: u16) -> IndexBlock
    requires { CanLengthenFile image.old block.words unit.first.0 unit.slice unit.slices n }
    ensures { Lengthened image.old block.words unit.first.0 unit.slice unit.slices n image.new result.words }
{
    if n == 0 {
        return block;
    }
    let _ = take_for_file(image, &mut block.words, unit, n);
    let q = index::block_sector(block, 0, Block(0));
    index::store_block(image, q, block);
    block
}

// Marks the slices from number `keep` on (counted from 0) free, of a file with `total` of them; its index block is given.
pub fn free_slices(
    image: &mut [u16],
    block: IndexBlock,
    first: Sector,
    s: u16,
    keep: u16,
    total: u16,
)
    requires { CanFree image.old block.words first.0 s total }
    ensures { Freed image.old block.words first.0 s keep total image.new }
{
    let mut at = Reached {
        sector: Sector(0),
        pair: 0,
        before: 0,
    };
    for j in keep..total {
        at = index::sector_along(&block.words, at.pair, at.before, s as u32 * j as u32);
        map::mark_free(image, numbers::slice_from(first, s, at.sector));
    }
}

// Gives them back: the index block of an ordinary file is stored too, if some are kept.
pub fn give_back(
    image: &mut [u16],
    block: IndexBlock,
    unit: Unit,
    keep: u16,
    total: u16,
) -> IndexBlock
    requires { CanCut image.old block.words unit.first.0 unit.slice total }
    ensures { Cut image.old block.words unit.first.0 unit.slice keep total image.new result.words }
{
    if total <= keep {
        return block;
    }
    free_slices(image, block, unit.first, unit.slice, keep, total);
    let cut = index::cut_block(block, unit.slice, keep);
    if 0 < keep {
        let q = index::block_sector(block, 0, Block(0));
        index::store_block(image, q, cut);
    }
    cut
}

// Zeroes n sectors of the file whose index block is given, from joined sector `from` on.
pub fn zero_sectors(image: &mut [u16], block: IndexBlock, from: u16, n: u16)
    requires { CanZero image.old block.words from n }
    ensures { Zeroed image.old block.words from n image.new }
{
    let mut at = Reached {
        sector: Sector(0),
        pair: 0,
        before: 0,
    };
    for j in 0..n {
        at = index::sector_along(&block.words, at.pair, at.before, from as u32 + j as u32);
        words::clear_sector(image, at.sector);
    }
}

// Stores the kit's free sectors: the sectors of a slice times the ones in the map.
pub fn count_free(image: &mut [u16], slice: u16)
    requires { (2560 ≤ length image.old) × (slice * ones_in_map image.old < 65536) }
    ensures { image.new ≡ counted_free image.old slice }
{
    let free = map::count_free(image);
    words::set_word(image, Sector(8), 3, slice * free);
}
