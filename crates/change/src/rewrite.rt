// The writes of Change: a file's slices and blocks, and its entry in its own place or, under another name, in one of the new key.

ghost use Rattle.std.specs.Prelude.{◌≡◌, cond, ◌+◌, ◌≤◌, length, take};
ghost use Rattle.catalog.specs.Catalog.{place_start, entry_at};
ghost use Rattle.change.specs.Move.{CanMove, Moved};
ghost use Rattle.change.specs.Rewrite.{CanRewrite, Rewritten};

use crate::resize::{Extent, resize};
use catalog::{Place, Unit};
use index::IndexBlock;
use types::{Block, Name};

// A file as it stands: the place of its entry, its attributes, length and number of slices, its index block.
#[derive(Clone, Copy)]
pub struct Standing {
    pub place: Place,
    pub attributes: u16,
    pub size: u16,
    pub slices: u16,
    pub block: IndexBlock,
}

// The file as it is to be: its name, whether that is another one, its attributes, length and number of slices.
#[derive(Clone, Copy)]
pub struct Wanted {
    pub name: Name,
    pub moves: bool,
    pub attributes: u16,
    pub size: u16,
    pub slices: u16,
}

// The words from which optional and tail are taken: the entry in the place, or the first 16 lent.
fn source_words(image: &[u16], place: Place, stays: bool, lent: &[u16]) -> [u16; 16]
    requires { (16 ≤ length lent.now) × (place_start place + 16 ≤ length image.now) }
    ensures { result ≡ cond stays (entry_at image.now place) (take 16 lent.now) }
{
    let mut own = [0u16; 16];
    if stays {
        catalog::read_entry(image, place, &mut own);
    } else {
        own.copy_from_slice(&lent[..16]);
    }
    own
}

// Empties a place, and stores the entry in the first place of the key that is unused then. There is one.
fn move_entry(image: &mut [u16], unit: Unit, place: Place, key: u16, entry: [u16; 16])
    requires { CanMove image.old unit place key entry }
    ensures { Moved image.old unit place key entry image.new }
{
    catalog::clear_place(image, place);
    let Some(free) = lookup::find_unused(image, unit, key) else {
        return;
    };
    catalog::write_entry(image, free, &entry);
}

// The file as it stands becomes the file as it is to be. For a permanent file optional and tail stay.
pub fn rewrite(image: &mut [u16], unit: Unit, f: Standing, w: Wanted, lent: &[u16])
    requires { CanRewrite image.old unit f w lent.now }
    ensures { Rewritten image.old unit f w lent.now image.new }
{
    let source = source_words(image, f.place, numbers::bit(11, f.attributes), lent);
    let had = Extent {
        size: f.size,
        slices: f.slices,
    };
    let has = Extent {
        size: w.size,
        slices: w.slices,
    };
    let block = resize(image, unit, f.block, had, has);
    let index = index::block_sector(block, 0, Block(0));
    let reserved = unit.slice * w.slices;
    let entry = catalog::entry_words(w.name, w.attributes, w.size, index, reserved, &source);
    if w.moves {
        let key = numbers::key(w.name, unit.catalog.keys);
        move_entry(image, unit, f.place, key, entry);
    } else {
        catalog::write_entry(image, f.place, &entry);
    }
    slices::count_free(image, unit.slice);
}
