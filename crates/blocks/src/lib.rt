// A file's attributes, and its data blocks: `read` gives the words of a block and `replace` stores others. Transput reads and writes
// blocks through these two alone.

#![tactic(auto)]

ghost use Rattle.std.specs.Prelude.{◌≤◌, length};
ghost use Rattle.disc.specs.Names.{packed};
ghost use Rattle.lookup.specs.Unit.{Searchable};
ghost use Rattle.blocks.specs.Blocks.{AttributesOf, SomeBlock, BlockSectorOf, BlockRead, BlockReplaced};

use catalog::Unit;
use types::{Block, Name, Sector};

// The attributes of a name as it is stored; 0 if it is not entered.
// 0 and not `None`: the clause (specs/Blocks `entry_attributes`) has 0 there.
pub fn attributes_of(image: &[u16], unit: Unit, name: Name) -> u16
    requires { Searchable image.now unit }
    ensures { AttributesOf image.now unit (packed name) result }
{
    let Some(place) = lookup::find_name(image, unit, name) else {
        return 0;
    };
    catalog::entry_word(image, place, 6)
}

// The sector of block k of the ordinary file with the index sector given.
fn sector_of(image: &[u16], index: Sector, k: Block) -> Sector
    requires { SomeBlock image.now index.0 k.0 }
    ensures { BlockSectorOf image.now index.0 k.0 result.0 }
{
    let block = lookup::file_block(image, index);
    index::block_sector(block, 1, k)
}

// Gives block k of the ordinary file with the index sector given as the first 256 lent words.
pub fn read(image: &[u16], index: Sector, k: Block, lent: &mut [u16])
    requires { SomeBlock image.now index.0 k.0 × (256 ≤ length lent.old) }
    ensures { BlockRead image.now index.0 k.0 lent.old lent.new }
{
    let q = sector_of(image, index, k);
    words::copy_sector(image, q, lent);
}

// Replaces that block by the first 256 lent words.
pub fn replace(image: &mut [u16], index: Sector, k: Block, lent: &[u16])
    requires { SomeBlock image.old index.0 k.0 × (256 ≤ length lent.now) }
    ensures { BlockReplaced image.old index.0 k.0 lent.now image.new }
{
    let q = sector_of(image, index, k);
    words::store_sector(image, q, lent);
}
