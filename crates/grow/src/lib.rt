// Questions 7 and 8, asked for a catalog and a file together before anything is written; and SYS's growth by a layer.

#![tactic(auto)]

ghost use Rattle.std.specs.Prelude.{◌≡◌, ◌+◌, ◌-◌, ◌*◌, ◌≤◌, ◌<◌, length};
ghost use Rattle.types.specs.Words.{result_word};
ghost use Rattle.disc.specs.Names.{SYS};
ghost use Rattle.disc.specs.Entries.{system_entry};
ghost use Rattle.disc.specs.Catalog.{slices_for};
ghost use Rattle.words.specs.Store.{store};
ghost use Rattle.index.specs.Block.{slice_total};
ghost use Rattle.catalog.specs.Catalog.{place_start};
ghost use Rattle.grow.specs.Room.{CanAsk, RoomFor};
ghost use Rattle.grow.specs.Grow.{CanAddLayer, CanGrow, LayerAdded, with_layers, Grows};

use catalog::{Catalog, Place, Unit};
use index::IndexBlock;
use slices::Growth;
use types::{Refusal, Sector};

// The slices of a catalog with so many layers: its H times L blocks, and the sectors before them, / s rounded up.
fn slices_for(c: Catalog, s: u16, layers: u16) -> u32
    requires { 1 ≤ s }
    ensures { result ≡ slices_for c.from s (c.keys * layers) }
{
    numbers::ceil_div(c.keys as u32 * layers as u32 + c.from as u32, s as u32)
}

// The slices that a catalog, whose index block is given, takes for so many layers.
fn slices_more(c: Catalog, s: u16, layers: u16, block: IndexBlock) -> u32
    requires { (1 ≤ s) × (slice_total s block.words 0 < 65536) }
    ensures { result ≡ slices_for c.from s (c.keys * layers) - slice_total s block.words 0 }
{
    slices_for(c, s, layers).saturating_sub(index::slice_total(block, s) as u32)
}

// Questions 7 and 8 for the catalog with so many layers and a file, whose index block is given, that is to take `more` slices.
pub fn room(
    image: &[u16],
    unit: Unit,
    layers: u16,
    file: IndexBlock,
    more: u16,
) -> Result<(), Refusal>
    requires { CanAsk image.now unit file.words }
    ensures { RoomFor image.now unit layers file.words more (result_word result) }
{
    let block = index::read_block(image, unit.catalog.index);
    let for_catalog = slices_more(unit.catalog, unit.slice, layers, block);
    let free = map::count_free(image) as u32;
    if free < for_catalog + more as u32 {
        return Err(Refusal::DiscFull);
    }
    let catalog = Growth {
        block,
        more: for_catalog as u16,
    };
    let file = Growth { block: file, more };
    if !slices::fits(image, catalog, file, unit) {
        return Err(Refusal::IndexFull);
    }
    Ok(())
}

// Takes the catalog's slices for one layer more, and zeroes the sectors of the layer.
fn add_layer(image: &mut [u16], unit: Unit)
    requires { CanAddLayer image.old unit }
    ensures { LayerAdded image.old unit image.new }
{
    let block = index::read_block(image, unit.catalog.index);
    let more = slices_more(unit.catalog, unit.slice, unit.catalog.layers + 1, block) as u16;
    let longer = slices::take_at(image, unit.catalog.index, block, unit, more);
    slices::zero_sectors(
        image,
        longer,
        unit.catalog.keys * unit.catalog.layers + unit.catalog.from,
        unit.catalog.keys,
    );
}

// Stores SYS's entry in its place.
fn enter_sys(image: &mut [u16], place: Place, index: Sector, size: u16, reserved: u16)
    requires { place_start place + 16 ≤ length image.old }
    ensures { image.new ≡ store image.old (place_start place) (system_entry SYS size index.0 reserved) }
{
    let entry = catalog::system_entry(names::sys_name(), size, index, reserved);
    catalog::write_entry(image, place, &entry);
}

// The unit's numbers with so many layers of its catalog.
fn with_layers(unit: Unit, layers: u16) -> Unit
    ensures { result ≡ with_layers unit layers }
{
    Unit {
        catalog: Catalog {
            layers,
            ..unit.catalog
        },
        ..unit
    }
}

// SYS grows by a layer: the unit's numbers then. SYS is entered in every unit, so that its place is found.
pub fn grow(image: &mut [u16], unit: Unit) -> Unit
    requires { CanGrow image.old unit }
    ensures { Grows image.old unit image.new result }
{
    let Some(place) = lookup::find_name(image, unit, names::sys_name()) else {
        return unit;
    };
    let layers = unit.catalog.layers + 1;
    add_layer(image, unit);
    let reserved = unit.slice * slices_for(unit.catalog, unit.slice, layers) as u16;
    enter_sys(
        image,
        place,
        unit.catalog.index,
        unit.catalog.keys * layers,
        reserved,
    );
    slices::count_free(image, unit.slice);
    with_layers(unit, layers)
}
