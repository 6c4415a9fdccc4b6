// Change, from question 3 on: the name, attributes, length, optional and tail of a file.

#![tactic(auto)]

mod resize;
mod rewrite;

ghost use Rattle.std.specs.Prelude.{◌≡◌, cond, ◌≤◌, length, eqb};
ghost use Rattle.types.specs.Words.{result_word};
ghost use Rattle.disc.specs.Numbers.{need};
ghost use Rattle.disc.specs.Names.{packed, unit_in};
ghost use Rattle.names.specs.NameIs.{NameIs};
ghost use Rattle.plain.specs.Catalog.{kept_or, new_name};
ghost use Rattle.lookup.specs.Unit.{UnitOn, Meant};
ghost use Rattle.lookup.specs.Files.{SomeClosedFile};
ghost use Rattle.change.specs.Asked.{Stands, WantedOf, allowed_by, LayersFor, TakenBy, CanJudge, Judges};
ghost use Rattle.change.specs.Change.{CanChange, FileChanges, Changes};

use catalog::{Place, Unit};
use rewrite::{Standing, Wanted};
use types::{Name, Refusal, Sector, State};

// The file whose entry stands in the place. Closed, it has the slices that its index block describes.
fn standing(image: &[u16], unit: Unit, place: Place) -> Standing
    requires { SomeClosedFile image.now unit place }
    ensures { Stands image.now unit place result }
{
    let block = lookup::file_block(image, Sector(catalog::entry_word(image, place, 8)));
    Standing {
        place,
        attributes: catalog::entry_word(image, place, 6),
        size: catalog::entry_word(image, place, 7),
        slices: index::slice_total(block, unit.slice),
        block,
    }
}

// A lent word, or the old one where it is negative.
fn kept_or(w: u16, old: u16) -> u16
    ensures { result ≡ kept_or w old }
{
    if numbers::negative(w) { old } else { w }
}

// The name that the lent entry gives to the file: its own where word 0 is 0.
fn new_name(n: Name, lent: &[u16]) -> Name
    requires { 16 ≤ length lent.now }
    ensures { NameIs result (new_name (packed n) lent.now) }
{
    if lent[0] == 0 {
        n
    } else {
        names::stored(Name(lent[0], lent[1], lent[2]))
    }
}

// The slices after the message: a length that is kept touches none.
fn slices_after(s: u16, size: u16, f: Standing) -> u16
    requires { 2 ≤ s }
    ensures { result ≡ cond (eqb size f.size) f.slices (need s size) }
{
    if size == f.size {
        f.slices
    } else {
        numbers::need(s, size)
    }
}

// The file as it is to be.
fn wanted(s: u16, n: Name, f: Standing, lent: &[u16]) -> Wanted
    requires { (2 ≤ s) × (16 ≤ length lent.now) }
    ensures { WantedOf s (packed n) f lent.now result }
{
    let name = new_name(n, lent);
    let size = kept_or(lent[9], f.size);
    Wanted {
        name,
        moves: !names::same_name(name, n),
        attributes: kept_or(lent[6], f.attributes),
        size,
        slices: slices_after(s, size, f),
    }
}

// Whether name and attributes are legal, bit 13 with the slices after the message, and a permanent file keeps name and length.
#[tactic(auto, unfolding(crate::specs::Asked::allowed_by))]
fn allowed(f: Standing, w: Wanted) -> bool
    ensures { result ≡ allowed_by f w }
{
    names::legal(w.name)
        && attributes::legal(w.attributes)
        && attributes::legal_with(w.attributes, w.slices)
        && (!numbers::bit(11, f.attributes) || (!w.moves && w.size == f.size))
}

// SYS's layers after the message. Under a name of its own key the file's own place is unused then.
fn layers_for(image: &[u16], unit: Unit, n: Name, w: Wanted) -> u16
    requires { UnitOn image.now unit }
    ensures { LayersFor image.now unit (packed n) w result }
{
    let key = numbers::key(w.name, unit.catalog.keys);
    if w.moves
        && numbers::key(n, unit.catalog.keys) != key
        && lookup::find_unused(image, unit, key).is_none()
    {
        unit.catalog.layers + 1
    } else {
        unit.catalog.layers
    }
}

// Whether the new name is another one, and entered.
fn is_taken(image: &[u16], unit: Unit, w: Wanted) -> bool
    requires { UnitOn image.now unit }
    ensures { TakenBy image.now unit w result }
{
    w.moves && lookup::find_name(image, unit, w.name).is_some()
}

// Questions 4 to 8 for a closed file: the first no.
fn judged(image: &[u16], unit: Unit, f: Standing, w: Wanted, layers: u16) -> Result<(), Refusal>
    requires { CanJudge image.now unit f w layers }
    ensures { Judges image.now unit f w layers (result_word result) }
{
    if !allowed(f, w) {
        return Err(Refusal::CatalogParameter);
    }
    if is_taken(image, unit, w) {
        return Err(Refusal::EntryExists);
    }
    grow::room(
        image,
        unit,
        layers,
        f.block,
        w.slices.saturating_sub(f.slices),
    )
}

// Change of a closed file whose entry stands in the place, with an entry lent. SYS grows first where the new name needs it.
fn change_file(
    image: &mut [u16],
    unit: Unit,
    n: Name,
    place: Place,
    lent: &[u16],
) -> Result<(), Refusal>
    requires { CanChange image.old unit (packed n) place lent.now }
    ensures { FileChanges image.old unit (packed n) place lent.now image.new (result_word result) }
{
    let f = standing(image, unit, place);
    let w = wanted(unit.slice, n, f, lent);
    let layers = layers_for(image, unit, n, w);
    judged(image, unit, f, w, layers)?;
    let grown = if layers <= unit.catalog.layers {
        unit
    } else {
        grow::grow(image, unit)
    };
    rewrite::rewrite(image, grown, f, w, lent);
    Ok(())
}

// Change of the name in a message that means this unit.
pub fn change(
    image: &mut [u16],
    unit: Unit,
    state: State,
    name: Name,
    lent: &[u16],
) -> Result<(), Refusal>
    requires { Meant image.old state unit (unit_in name) }
    ensures { Changes image.old unit state name lent.now image.new (result_word result) }
{
    let n = names::stored(name);
    let Some(place) = lookup::find_name(image, unit, n) else {
        return Err(Refusal::NoEntry);
    };
    if lent.len() < 16
        || attributes::gives_entry_only(lent[6])
        || names::is_system(n)
        || lookup::is_open(state, n)
    {
        return Err(Refusal::CatalogParameter);
    }
    change_file(image, unit, n, place, lent)
}
