// Area create and remove, from the question whether the name is entered, or none of SYS and MAP, on.

#![tactic(auto)]

ghost use Rattle.disc.specs.Names.{unit_in};
ghost use Rattle.lookup.specs.Unit.{Meant};
ghost use Rattle.areas.specs.Areas.{area_done, CanBook, Booked, CreatesArea, RemovesArea};

use catalog::{Place, Unit};
use types::{Name, Refusal, Sector, State};

// Create area of the name in a message that means this unit: the state after it. The image is only read.
pub fn create_area(image: &[u16], unit: Unit, state: State, name: Name) -> Result<State, Refusal>
    requires { Meant image.now state unit (unit_in name) }
    ensures { CreatesArea image.now unit state name (area_done state result) }
{
    let n = names::stored(name);
    let Some(place) = lookup::find_name(image, unit, n) else {
        return Err(Refusal::NoArea);
    };
    if names::is_system(n) {
        return Err(Refusal::AreaIllegal);
    }
    if lookup::is_open(state, n) {
        return Ok(state);
    }
    let Some(j) = state::vacant_area_of(state) else {
        return Err(Refusal::AreaFull);
    };
    let length = catalog::entry_word(image, place, 7);
    let index = Sector(catalog::entry_word(image, place, 8));
    Ok(state::open_area(state, j, n, index, length))
}

// Books a live length and the slices of an index block in the entry of their file.
fn book(image: &mut [u16], unit: Unit, place: Place, index: Sector, length: u16)
    requires { CanBook image.old unit place index.0 length }
    ensures { Booked image.old unit place index.0 length image.new }
{
    let total = index::slice_total(lookup::file_block(image, index), unit.slice);
    let mut entry = [0u16; 16];
    catalog::read_entry(image, place, &mut entry);
    entry[7] = length;
    entry[8] = index.0;
    entry[9] = unit.slice * total;
    catalog::write_entry(image, place, &entry);
}

// Remove area of the name in a message that means this unit: the state after it.
pub fn remove_area(
    image: &mut [u16],
    unit: Unit,
    state: State,
    name: Name,
) -> Result<State, Refusal>
    requires { Meant image.old state unit (unit_in name) }
    ensures { RemovesArea image.old unit state name image.new (area_done state result) }
{
    let n = names::stored(name);
    if names::is_system(n) {
        return Err(Refusal::AreaIllegal);
    }
    let Some(j) = state::find_area(state, n) else {
        return Ok(state);
    };
    let area = state::area_at(state, j);
    if state::user_count(area) != 0 {
        return Ok(state);
    }
    // An open area's name is entered.
    let Some(place) = lookup::find_name(image, unit, n) else {
        return Ok(state);
    };
    book(image, unit, place, area.index, area.length);
    Ok(state::close_area(state, j))
}
