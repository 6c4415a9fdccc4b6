// Create and Set, from question 4 on: a new file, for which SYS grows first where its key has no unused place.

#![tactic(auto)]

ghost use Rattle.std.specs.Prelude.{◌≡◌, ◌+◌, ◌≤◌, length};
ghost use Rattle.types.specs.Words.{result_word};
ghost use Rattle.disc.specs.Names.{packed, unit_in};
ghost use Rattle.disc.specs.Entries.{entry_from};
ghost use Rattle.words.specs.Store.{store};
ghost use Rattle.catalog.specs.Catalog.{place_start};
ghost use Rattle.create.specs.Create.{legal_new, CanWrite, FileWritten, CanPlace, Placed, CanGrowFor, PlacedGrown};
ghost use Rattle.create.specs.Create.{NewFileMade, Creates, Sets};
ghost use Rattle.lookup.specs.Unit.{UnitOn, MeantOn};

use catalog::{Place, Unit};
use types::{Block, Name, Refusal, Sector};

// A file that is to be made, under a name as it is stored. The words of its entry, for optional and tail, stand beside it: of a slice in a
// struct the proofs do not know that its numbers are words (tried).
#[derive(Clone, Copy)]
struct NewFile {
    name: Name,
    size: u16,
    attributes: u16,
}

// Whether name, size and attributes are legal for a new file.
fn is_legal(file: NewFile) -> bool
    ensures { result ≡ legal_new (packed file.name) file.size file.attributes }
{
    names::legal(file.name)
        && !numbers::negative(file.size)
        && attributes::legal(file.attributes)
        && !attributes::gives_entry_only(file.attributes)
}

// Stores a file's entry in a place.
fn enter(
    image: &mut [u16],
    place: Place,
    file: NewFile,
    words: &[u16],
    index: Sector,
    reserved: u16,
)
    requires { (16 ≤ length words.now) × (place_start place + 16 ≤ length image.old) }
    ensures { image.new ≡ store image.old (place_start place)
        (entry_from (packed file.name) file.attributes file.size index.0 reserved words.now) }
{
    let entry = catalog::entry_words(
        file.name,
        file.attributes,
        file.size,
        index,
        reserved,
        words,
    );
    catalog::write_entry(image, place, &entry);
}

// Takes a new file's slices, zeroes its blocks, which begin after the index sector, and enters it in the place.
fn write_file(image: &mut [u16], unit: Unit, place: Place, file: NewFile, words: &[u16])
    requires { CanWrite image.old unit place (packed file.name) file.size file.attributes words.now }
    ensures { FileWritten image.old unit place (packed file.name) file.size file.attributes words.now image.new }
{
    let count = numbers::need(unit.slice, file.size);
    let block = slices::take_more(image, index::empty_block(), unit, count);
    slices::zero_sectors(image, block, 1, file.size);
    let sector = index::block_sector(block, 0, Block(0));
    enter(image, place, file, words, sector, unit.slice * count);
    slices::count_free(image, unit.slice);
}

// The file in an unused place, if questions 7 and 8 are answered yes.
fn create_in(
    image: &mut [u16],
    unit: Unit,
    place: Place,
    file: NewFile,
    words: &[u16],
) -> Result<(), Refusal>
    requires { CanPlace image.old unit place (packed file.name) file.size file.attributes words.now }
    ensures { Placed image.old unit place (packed file.name) file.size file.attributes words.now image.new (result_word result) }
{
    let count = numbers::need(unit.slice, file.size);
    let none = index::empty_block();
    grow::room(image, unit, unit.catalog.layers, none, count)?;
    write_file(image, unit, place, file, words);
    Ok(())
}

// The same where the key has no unused place: SYS grows first, and the new layer has unused places of every key. Apart from `create_in`, since
// SYS grows between the questions and the writing.
fn create_grown(image: &mut [u16], unit: Unit, file: NewFile, words: &[u16]) -> Result<(), Refusal>
    requires { CanGrowFor image.old unit (packed file.name) file.size file.attributes words.now }
    ensures { PlacedGrown image.old unit (packed file.name) file.size file.attributes words.now image.new (result_word result) }
{
    let count = numbers::need(unit.slice, file.size);
    let none = index::empty_block();
    grow::room(image, unit, unit.catalog.layers + 1, none, count)?;
    let grown = grow::grow(image, unit);
    let key = numbers::key(file.name, unit.catalog.keys);
    if let Some(place) = lookup::find_unused(image, grown, key) {
        write_file(image, grown, place, file, words);
    }
    Ok(())
}

// A new file, from its questions on.
fn new_file(image: &mut [u16], unit: Unit, file: NewFile, words: &[u16]) -> Result<(), Refusal>
    requires { UnitOn image.old unit × (16 ≤ length words.now) }
    ensures { NewFileMade image.old unit (packed file.name) file.size file.attributes words.now image.new (result_word result) }
{
    if !is_legal(file) {
        return Err(Refusal::CatalogParameter);
    }
    let None = lookup::find_name(image, unit, file.name) else {
        return Err(Refusal::EntryExists);
    };
    let key = numbers::key(file.name, unit.catalog.keys);
    match lookup::find_unused(image, unit, key) {
        Some(place) => create_in(image, unit, place, file, words),
        None => create_grown(image, unit, file, words),
    }
}

// Create from question 4 on, under the name in a message that means this unit. Optional and tail are zero.
pub fn create(
    image: &mut [u16],
    unit: Unit,
    name: Name,
    size: u16,
    attributes: u16,
) -> Result<(), Refusal>
    requires { MeantOn image.old unit (unit_in name) }
    ensures { Creates image.old unit name size attributes image.new (result_word result) }
{
    let file = NewFile {
        name: names::stored(name),
        size,
        attributes,
    };
    new_file(image, unit, file, &[0; 16])
}

// Set from question 4 on, under the name in a message that means this unit. Size, attributes, optional and tail are those of the lent
// entry.
pub fn set(image: &mut [u16], unit: Unit, name: Name, lent: &[u16]) -> Result<(), Refusal>
    requires { MeantOn image.old unit (unit_in name) }
    ensures { Sets image.old unit name lent.now image.new (result_word result) }
{
    if lent.len() < 16 {
        return Err(Refusal::CatalogParameter);
    }
    let file = NewFile {
        name: names::stored(name),
        size: lent[9],
        attributes: lent[6],
    };
    new_file(image, unit, file, lent)
}
