// Remove, from question 3 on: a name and its file are dropped.

#![tactic(auto)]

ghost use Rattle.types.specs.Words.{result_word};
ghost use Rattle.disc.specs.Names.{unit_in};
ghost use Rattle.lookup.specs.Unit.{Meant};
ghost use Rattle.lookup.specs.Files.{SomeClosedFile};
ghost use Rattle.remove.specs.Remove.{Dropped, Removes};

use catalog::{Place, Unit};
use types::{Name, Refusal, Sector, State};

// Empties the place of a file and gives back its slices. The index block is read before anything is written.
fn drop_file(image: &mut [u16], unit: Unit, place: Place)
    requires { SomeClosedFile image.old unit place }
    ensures { Dropped image.old unit place image.new }
{
    let block = lookup::file_block(image, Sector(catalog::entry_word(image, place, 8)));
    let total = index::slice_total(block, unit.slice);
    catalog::clear_place(image, place);
    slices::free_slices(image, block, unit.first, unit.slice, 0, total);
    slices::count_free(image, unit.slice);
}

// Remove of the name in a message that means this unit.
pub fn remove(image: &mut [u16], unit: Unit, state: State, name: Name) -> Result<(), Refusal>
    requires { Meant image.old state unit (unit_in name) }
    ensures { Removes image.old unit state name image.new (result_word result) }
{
    let n = names::stored(name);
    let Some(place) = lookup::find_name(image, unit, n) else {
        return Err(Refusal::NoEntry);
    };
    if names::is_system(n)
        || lookup::is_open(state, n)
        || numbers::bit(11, catalog::entry_word(image, place, 6))
    {
        return Err(Refusal::CatalogParameter);
    }
    drop_file(image, unit, place);
    Ok(())
}
