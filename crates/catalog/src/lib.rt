// A catalog and a unit as values; the words of an entry; the places of a catalog: found by name, found unused, read, written and cleared.
// The catalog is a parameter; SYS is one.

#![tactic(auto)]

ghost use Rattle.std.specs.Prelude.{◌≡◌, Bool, ℕ, Option, ◌++◌, ◌+◌, ◌*◌, ◌≤◌, ◌<◌, length, take, drop};
ghost use Rattle.disc.specs.Names.{packed};
ghost use Rattle.disc.specs.Entries.{entry_from, system_entry};
ghost use Rattle.words.specs.Store.{store, zero_words};
ghost use Rattle.catalog.specs.Catalog.{sys_value, key_sector, place_start, entry_word, entry_at};
ghost use Rattle.catalog.specs.Catalog.{slot_named, slot_unused, first_slot, slot_answer, place_from, NamePlace, UnusedPlace};

use types::{Name, Sector};

// A catalog: the sector of its index block, the joined sector at which its blocks begin, its number of keys and of layers.
#[derive(Clone, Copy)]
pub struct Catalog {
    pub index: Sector,
    pub from: u16,
    pub keys: u16,
    pub layers: u16,
}

// The numbers of a unit that its messages work with: s, F and M of document 01, and its catalog with H and L.
#[derive(Clone, Copy)]
pub struct Unit {
    pub slice: u16,
    pub first: Sector,
    pub slices: u16,
    pub catalog: Catalog,
}

// A place: one of the 16 slots of a sector.
#[derive(Clone, Copy)]
pub struct Place {
    pub sector: Sector,
    pub slot: u16,
}

// SYS as a catalog.
pub fn sys(keys: u16, layers: u16) -> Catalog
    ensures { result ≡ sys_value keys layers }
{
    Catalog {
        index: Sector(6),
        from: 0,
        keys,
        layers,
    }
}

// The sector of a key's block of a layer.
fn key_sector(image: &[u16], c: Catalog, key: u16, layer: u16) -> Sector
    ensures { result.0 ≡ key_sector image.now c key layer }
{
    let joined = numbers::key_joined(c.from, c.keys, key, layer);
    index::sector_at(image, c.index, joined)
}

// Whether the name stands in a slot of sector q: by the first word, as few other names have it.
fn is_named_slot(image: &[u16], q: Sector, slot: u16, name: Name) -> bool
    ensures { result ≡ slot_named image.now (packed name) q.0 slot }
{
    let at = slot as usize * 16;
    let first = words::word(image, q, at);
    if first != name.0 {
        return false;
    }
    let second = words::word(image, q, at + 1);
    let third = words::word(image, q, at + 2);
    names::same_name(Name(first, second, third), name)
}

// The same in a sector that the image has whole, which asks for no bounds: apart for speed.
fn is_named_within(image: &[u16], q: Sector, slot: u16, name: Name) -> bool
    requires { (q.0 * 256 + 256 ≤ length image.now) × (slot < 16) }
    ensures { result ≡ slot_named image.now (packed name) q.0 slot }
{
    let at = q.0 as usize * 256 + slot as usize * 16;
    if image[at] != name.0 {
        return false;
    }
    names::same_name(Name(image[at], image[at + 1], image[at + 2]), name)
}

// The first of a sector's 16 slots that passes the test.
fn first_slot<F: Fn(u16) -> bool>(test: F) -> Option<u16>
    requires { (i : ℕ) → i < 16 → F.pre test i }
    ensures { (t : ℕ → Bool) → ((i : ℕ) (b : Bool) → i < 16 → F.post test i b → b ≡ t i) → result ≡ slot_answer (first_slot t) }
{
    for i in 0..16 {
        if test(i) {
            return Some(i);
        }
    }
    None
}

// The first slot of sector q with the name. In a sector that the image has whole no index is asked for its bounds: most of a search is
// this loop.
pub fn slot_named(image: &[u16], q: Sector, name: Name) -> Option<u16>
    ensures { result ≡ slot_answer (first_slot (slot_named image.now (packed name) q.0)) }
{
    if image.len() < q.0 as usize * 256 + 256 {
        return first_slot(|i| is_named_slot(image, q, i, name));
    }
    first_slot(|i| is_named_within(image, q, i, name))
}

// Whether a slot of sector q has 16 zero words.
pub fn is_unused_slot(image: &[u16], q: Sector, slot: u16) -> bool
    ensures { result ≡ slot_unused image.now q.0 slot }
{
    let at = slot as usize * 16;
    for w in 0..16 {
        if words::word(image, q, at + w) != 0 {
            return false;
        }
    }
    true
}

// The first unused slot of sector q.
pub fn unused_slot(image: &[u16], q: Sector) -> Option<u16>
    ensures { result ≡ slot_answer (first_slot (slot_unused image.now q.0)) }
{
    first_slot(|i| is_unused_slot(image, q, i))
}

// The first place of a key in whose sector the search finds a slot, layer by layer.
fn first_place<F: Fn(Sector) -> Option<u16>>(
    image: &[u16],
    c: Catalog,
    key: u16,
    slot_in: F,
) -> Option<Place>
    requires { F.IsAlwaysCallable slot_in }
    ensures { (t : ℕ → ℕ → Bool) → ((q : Sector) (r : Option ℕ) → F.post slot_in q r → r ≡ slot_answer (first_slot (t q.0)))
        → result ≡ place_from t (key_sector image.now c key) c.layers 0 }
{
    for layer in 0..c.layers {
        let sector = key_sector(image, c, key, layer);
        if let Some(slot) = slot_in(sector) {
            return Some(Place { sector, slot });
        }
    }
    None
}

// The place of a name.
pub fn find(image: &[u16], c: Catalog, name: Name) -> Option<Place>
    requires { 1 ≤ c.keys }
    ensures { NamePlace image.now c (packed name) result }
{
    let key = numbers::key(name, c.keys);
    first_place(image, c, key, |q| slot_named(image, q, name))
}

// The first unused place of a key.
pub fn first_unused(image: &[u16], c: Catalog, key: u16) -> Option<Place>
    ensures { UnusedPlace image.now c key result }
{
    first_place(image, c, key, |q| unused_slot(image, q))
}

// Word w of a place.
pub fn entry_word(image: &[u16], place: Place, w: u16) -> u16
    ensures { result ≡ entry_word image.now place w }
{
    words::word(image, place.sector, place.slot as usize * 16 + w as usize)
}

// The words of an entry, optional and tail from the words given.
pub fn entry_words(
    name: Name,
    attributes: u16,
    size: u16,
    index: Sector,
    reserved: u16,
    words: &[u16],
) -> [u16; 16]
    requires { 16 ≤ length words.now }
    ensures { result ≡ entry_from (packed name) attributes size index.0 reserved words.now }
{
    [
        name.0, name.1, name.2, words[3], words[4], words[5], attributes, size, index.0, reserved,
        words[10], words[11], words[12], words[13], words[14], words[15],
    ]
}

// The words of SYS's or MAP's entry.
pub fn system_entry(name: Name, size: u16, index: Sector, reserved: u16) -> [u16; 16]
    ensures { result ≡ system_entry (packed name) size index.0 reserved }
{
    let zero = [0u16; 16];
    entry_words(name, 0x8010, size, index, reserved, &zero)
}

// Hands out a place as the first 16 lent words.
pub fn read_entry(image: &[u16], place: Place, lent: &mut [u16])
    requires { (16 ≤ length lent.old) × (place_start place + 16 ≤ length image.now) }
    ensures { lent.new ≡ entry_at image.now place ++ drop 16 lent.old }
{
    words::read_words(image, place.sector, place.slot as usize * 16, lent, 16);
}

// Stores the first 16 words in a place.
pub fn write_entry(image: &mut [u16], place: Place, words: &[u16])
    requires { (16 ≤ length words.now) × (place_start place + 16 ≤ length image.old) }
    ensures { image.new ≡ store image.old (place_start place) (take 16 words.now) }
{
    words::store_words(image, place.sector, place.slot as usize * 16, words, 16);
}

// Stores zero in the words of a place.
pub fn clear_place(image: &mut [u16], place: Place)
    requires { place_start place + 16 ≤ length image.old }
    ensures { image.new ≡ store image.old (place_start place) (zero_words 16) }
{
    words::clear_words(image, place.sector, place.slot as usize * 16, 16);
}
