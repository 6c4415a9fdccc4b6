// What every catalog message begins with: a name's place in SYS, an unused place, a file's index block, whether a name is open; and
// Look-up.

#![tactic(auto)]

ghost use Rattle.std.specs.Prelude.{◌≡◌, ◌<◌};
ghost use Rattle.types.specs.Words.{result_word};
ghost use Rattle.disc.specs.Names.{packed, unit_in};
ghost use Rattle.catalog.specs.Catalog.{place_unused};
ghost use Rattle.lookup.specs.Unit.{MeantOn, Searchable};
ghost use Rattle.lookup.specs.Find.{FindsName, FindsUnused};
ghost use Rattle.lookup.specs.Files.{own_block, BlockOf, name_open};
ghost use Rattle.lookup.specs.LookUp.{LooksUp};

use catalog::{Place, Unit};
use index::IndexBlock;
use types::{Name, Refusal, Sector, State};

// The place of a name as it is stored. Unused places have the name 0, and no entry has it.
pub fn find_name(image: &[u16], unit: Unit, name: Name) -> Option<Place>
    requires { Searchable image.now unit }
    ensures { FindsName image.now unit (packed name) result }
{
    if names::packed(name) == 0 {
        return None;
    }
    catalog::find(image, unit.catalog, name)
}

// The first unused place of a key.
pub fn find_unused(image: &[u16], unit: Unit, key: u16) -> Option<Place>
    requires { Searchable image.now unit × (key < unit.catalog.keys) }
    ensures first { result ≡ place_unused image.now unit.catalog key }
    ensures found { FindsUnused image.now unit key result }
{
    catalog::first_unused(image, unit.catalog, key)
}

// The index block of the ordinary file with the index sector given; that of a file with no slice, whose index sector is 0.
pub fn file_block(image: &[u16], index: Sector) -> IndexBlock
    ensures words { result.words ≡ own_block image.now index.0 }
    ensures file { BlockOf image.now index.0 result.words }
{
    if index.0 == 0 {
        return index::empty_block();
    }
    index::read_block(image, index)
}

// Whether a name, as it is stored, has an area process.
pub fn is_open(state: State, name: Name) -> bool
    ensures { result ≡ name_open (packed name) state }
{
    matches!(state::find_area(state, name), Some(_))
}

// Look-up from question 3 on, of the name in a message that means this unit: the entry in the first 16 lent words.
pub fn look_up(image: &[u16], unit: Unit, name: Name, lent: &mut [u16]) -> Result<(), Refusal>
    requires { MeantOn image.now unit (unit_in name) }
    ensures { LooksUp image.now unit name lent.old (result_word result) lent.new }
{
    let Some(place) = find_name(image, unit, names::stored(name)) else {
        return Err(Refusal::NoEntry);
    };
    if lent.len() < 16 {
        return Err(Refusal::CatalogParameter);
    }
    catalog::read_entry(image, place, lent);
    Ok(())
}
