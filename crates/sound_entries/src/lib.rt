// The names in SYS, as a sound unit has them: every used place has a legal name, in a sector of its key, and SYS and MAP are entered.

#![tactic(auto)]

ghost use Rattle.std.specs.Prelude.{◌≡◌, ◌+◌, ◌*◌, ◌/◌, ◌%◌, ◌<◌, ◌≤◌, min, length, take, drop};
ghost use Rattle.disc.specs.Decide.{Decides};
ghost use Rattle.disc.specs.Names.{key_of, packed};
ghost use Rattle.disc.specs.Kit.{sys_index_sector};
ghost use Rattle.disc.specs.Entries.{system_entry};
ghost use Rattle.names.specs.Classes.{ClassesOf};
ghost use Rattle.sound.specs.Places.{Unused};
ghost use Rattle.sound_entries.specs.Legal.{place_of, NameIn, HoldsEntry, own_entry};
ghost use Rattle.sound_entries.specs.Legal.{SystemLegal, PlaceLegal, PlacesLegal, Judging};
ghost use Rattle.sound_entries.specs.Names.{NamesLegal, LayersOf};
ghost use Rattle.sound_entries.specs.Sys.{sys_slices, places_in, SysOf};

use catalog::Catalog;
use kit::Geometry;
use types::{Name, Sector};

// An inverse is so many times one.
const SCALE: u32 = 0x8000_0000;

// What is expected of the places of SYS: the catalog that they are of, the inverse of its number of keys, and the length and the reserved
// sectors that SYS's entry must say.
#[derive(Clone, Copy)]
pub struct Expected {
    pub catalog: Catalog,
    pub inverse: u32,
    pub size: u16,
    pub reserved: u16,
}

// The sectors of all of SYS's slices, which the index block in sector q describes.
pub fn sys_sectors(image: &[u16], g: Geometry, q: Sector) -> u16
    requires { SysOf image.now g × (q.0 ≡ sys_index_sector) }
    ensures { result ≡ g.slice * length (sys_slices image.now g) }
{
    index::sector_total_at(image, q) as u16
}

// The sixteen words of place i of sector q.
pub fn place_at(image: &[u16], q: Sector, i: usize) -> &[u16; 16]
    requires { (q.0 * 256 + 256 ≤ length image.now) × (i < 16) }
    ensures { result.now ≡ take 16 (drop (q.0 * 256 + i * 16) image.now) }
{
    // Sixteen words are an array of sixteen: `unwrap` is proved, and asks nothing at run time.
    let at = q.0 as usize * 256 + i * 16;
    image[at..at + 16].as_array().unwrap()
}

// Whether the sixteen words of a place are 0; the bits of all are gathered, with no exit on the way.
fn is_unused(place: &[u16; 16]) -> bool
    ensures { Decides result (Unused (place_of place.now) 0) }
{
    let mut bits = 0;
    for word in place {
        bits |= *word;
    }
    bits == 0
}

// The name in a place.
pub fn place_name(place: &[u16; 16]) -> Name
    ensures { NameIn (place_of place.now) 0 result }
{
    Name(place[0], place[1], place[2])
}

// Whether a place holds the entry of SYS or MAP that is given by its numbers.
fn is_entry(place: &[u16; 16], name: Name, size: u16, index: Sector, reserved: u16) -> bool
    ensures { Decides result (HoldsEntry (place_of place.now) 0
        (system_entry (packed name) size index.0 reserved)) }
{
    *place == catalog::system_entry(name, size, index, reserved)
}

// Whether a place, if its name is SYS or MAP, holds that entry.
fn named_legal(place: &[u16; 16], name: Name, expected: Expected) -> bool
    requires { NameIn (place_of place.now) 0 name }
    ensures { Decides result (SystemLegal (place_of place.now) (own_entry expected) 0) }
{
    if names::same_name(name, names::sys_name()) {
        is_entry(
            place,
            name,
            expected.size,
            expected.catalog.index,
            expected.reserved,
        )
    } else {
        !names::same_name(name, names::map_name()) || is_entry(place, name, 1, Sector(7), 1)
    }
}

// The same: by the first word, as few other names begin with that of SYS or MAP.
fn system_legal(place: &[u16; 16], name: Name, expected: Expected) -> bool
    requires { NameIn (place_of place.now) 0 name }
    ensures { Decides result (SystemLegal (place_of place.now) (own_entry expected) 0) }
{
    !names::begins_as_system(name) || named_legal(place, name, expected)
}

// Whether a place, in a sector of the key, is unused or has a legal name of that key; SYS and MAP have their entries.
pub fn place_legal(place: &[u16; 16], key: u16, expected: Expected, classes: &[u8; 256]) -> bool
    requires { (key < expected.catalog.keys) × ClassesOf classes.now }
    ensures { Decides result (PlaceLegal (place_of place.now) expected.catalog.keys key (own_entry expected) 0) }
{
    let name = place_name(place);
    if name.0 == 0 {
        is_unused(place)
    } else {
        names::legal_by(name, classes)
            && has_key(name, key, expected)
            && system_legal(place, name, expected)
    }
}

// The inverse of a number of keys. Nothing rests on its value but the time that `has_key` takes.
pub fn inverse(keys: u16) -> u32
    requires { 1 ≤ keys }
    ensures { result ≡ 2147483648 / keys + 1 }
{
    SCALE / keys as u32 + 1
}

// Whether a name is of the key. A product with the inverse guesses the quotient; the sum is divided only if the guess does not
// show the key.
fn has_key(name: Name, key: u16, expected: Expected) -> bool
    requires { key < expected.catalog.keys }
    ensures { Decides result (key ≡ key_of expected.catalog.keys (packed name)) }
{
    let keys = expected.catalog.keys;
    let sum = name.0.wrapping_add(name.1).wrapping_add(name.2);
    let quotient = sum as u64 * expected.inverse as u64 / SCALE as u64;
    quotient * keys as u64 + key as u64 == sum as u64 || numbers::key(name, keys) == key
}

// The key after a key, 0 after the last: no remainder, which would be a division for each sector.
pub fn next_key(key: u16, keys: u16) -> u16
    requires { key < keys }
    ensures { result ≡ (key + 1) % keys }
{
    if key + 1 == keys { 0 } else { key + 1 }
}

// Whether SYS and MAP are entered too, where every place of SYS is legal.
pub fn system_entered(image: &[u16], g: Geometry, expected: Expected) -> bool
    requires { Judging image.now g expected expected.size
        × PlacesLegal (places_in image.now g) g.keys (own_entry expected) (16 * expected.size) }
    ensures { Decides result (NamesLegal (places_in image.now g) g.keys (own_entry expected) (16 * expected.size)) }
{
    let sys = expected.catalog;
    matches!(catalog::find(image, sys, names::sys_name()), Some(_))
        && matches!(catalog::find(image, sys, names::map_name()), Some(_))
}

// The number of SYS's layers, by the first entry of SYS in the complete layers that fit its slices; none if it fits no number.
pub fn find_layers(image: &[u16], g: Geometry) -> Option<u16>
    requires { SysOf image.now g }
    ensures { LayersOf image.now g result }
{
    let keys = g.keys;
    let reserved = sys_sectors(image, g, Sector(6));
    let full = catalog::sys(keys, reserved / keys);
    let Some(place) = catalog::find(image, full, names::sys_name()) else {
        return None;
    };
    let size = catalog::entry_word(image, place, 7);
    let layers = size / keys;
    if layers * keys != size {
        return None;
    }
    if numbers::ceil_div(size as u32, g.slice as u32) * g.slice as u32 != reserved as u32 {
        return None;
    }
    Some(layers)
}
