// Whether the names in SYS are those of a sound unit: legal, in sectors of their keys, and alone. SYS is walked once, by its stretches
// and sectors. A filter says of most names that they are new; only the others are searched for.

#![tactic(auto)]

ghost use Rattle.std.specs.Prelude.{◌≡◌, ℕ, ◌+◌, ◌*◌, ◌%◌, ◌<◌, ◌≤◌, length};
ghost use Rattle.disc.specs.Decide.{Decides};
ghost use Rattle.disc.specs.Names.{packed};
ghost use Rattle.disc.specs.Stretches.{sector_in};
ghost use Rattle.names.specs.Classes.{ClassesOf};
ghost use Rattle.sound_entries.specs.Sys.{sys_slices, places_in, SysNames, SysIn};
ghost use Rattle.sound_entries.specs.Legal.{own_entry, PlacesLegal, Judging};
ghost use Rattle.sound_entries.specs.Names.{NamesAlone};
ghost use Rattle.sound_names.specs.Scan.{Standing, NoneBefore, Passed, Scanned};
ghost use Rattle.sound_names.specs.Filter.{mixed, mask_by, Noted};

use catalog::Catalog;
use kit::Geometry;
use sound_entries::Expected;
use types::{Block, Name, Sector};

// A number mixed from a name's words, so that few names agree in the bits taken from it.
fn mix(name: Name) -> u64
    ensures { result ≡ mixed (packed name) }
{
    name.0 as u64 * 173961102589770 + name.1 as u64 * 9202655381969 + name.2 as u64 * 836226975143
}

// Three bits of a word, or fewer, by a mixed number.
fn mask(x: u64) -> u64
    ensures { result ≡ mask_by x }
{
    (1u64 << (x / 4294967296 % 64)) | (1u64 << (x / 16384 % 64)) | (1u64 << (x / 256 % 64))
}

// Sets the bits of a name in its word of the filter, and says whether all were set already.
fn note(filter: &mut [u64; 4096], name: Name) -> bool
    requires { length filter.old ≡ 4096 }
    ensures { Noted result filter.old filter.new (packed name) }
{
    let x = mix(name);
    let i = (x / 1048576 % 4096) as usize;
    let word = filter[i];
    let more = word | mask(x);
    filter[i] = more;
    more == word
}

// What SYS's places are scanned by: the image and its numbers, what is expected of the places, and the classes of characters.
#[derive(Clone, Copy)]
struct Scan<'a> {
    image: &'a [u16],
    g: Geometry,
    expected: Expected,
    classes: &'a [u8; 256],
    ghost judging: { Judging image.now g expected expected.size },
    ghost classed: { ClassesOf classes.now },
}

impl Scan<'_> {
    // Whether no place before place i of block b, which is sector q and has the name, has it too: it is the one that a search finds.
    fn is_first(&self, q: Sector, b: Block, i: usize, name: Name) -> bool
        requires { let s = self.now in Standing s.image.now s.g s.expected.catalog.layers (packed name) q.0 b.0 i }
        ensures { let s = self.now in
            Decides result (NoneBefore (places_in s.image.now s.g) s.g.keys (packed name) (16 * b.0 + i)) }
    {
        let Some(place) = catalog::find(self.image, self.expected.catalog, name) else {
            return false;
        };
        place.sector == q && place.slot as usize == i
    }

    // Whether place i of block b, which is sector q, is legal, and no place before it has its name; the name is put in the filter.
    fn place_sound(&self, q: Sector, b: Block, i: usize, key: u16, filter: &mut [u64; 4096]) -> bool
        requires { let s = self.now in (b.0 < s.expected.size)
            × (q.0 ≡ sector_in s.g.first.0 s.g.slice (sys_slices s.image.now s.g) b.0) × (key ≡ b.0 % s.g.keys) × (i < 16)
            × Passed (places_in s.image.now s.g) s.g.keys (own_entry s.expected) filter.old (16 * b.0 + i) }
        ensures { let s = self.now in
            Scanned result (places_in s.image.now s.g) s.g.keys (own_entry s.expected) filter.new (16 * b.0 + i + 1) }
    {
        let place = sound_entries::place_at(self.image, q, i);
        if !sound_entries::place_legal(place, key, self.expected, self.classes) {
            return false;
        }
        let name = sound_entries::place_name(place);
        name.0 == 0 || !note(filter, name) || self.is_first(q, b, i, name)
    }

    // Whether the places of block b, which is sector q, are legal, and the names in them alone, with those before it.
    fn sector_sound(&self, q: Sector, b: Block, key: u16, filter: &mut [u64; 4096]) -> bool
        requires { let s = self.now in (b.0 < s.expected.size)
            × (q.0 ≡ sector_in s.g.first.0 s.g.slice (sys_slices s.image.now s.g) b.0) × (key ≡ b.0 % s.g.keys)
            × Passed (places_in s.image.now s.g) s.g.keys (own_entry s.expected) filter.old (16 * b.0) }
        ensures { let s = self.now in
            Scanned result (places_in s.image.now s.g) s.g.keys (own_entry s.expected) filter.new (16 * (b.0 + 1)) }
    {
        for i in 0..16 {
            if !self.place_sound(q, b, i, key, filter) {
                return false;
            }
        }
        true
    }

    // The same of the n blocks from block b on, which are the sectors from sector q on.
    fn stretch_sound(&self, q: Sector, n: u16, b: Block, filter: &mut [u64; 4096]) -> bool
        requires { let s = self.now in (b.0 + n ≤ s.expected.size)
            × ((c : ℕ) → c < n → sector_in s.g.first.0 s.g.slice (sys_slices s.image.now s.g) (b.0 + c) ≡ q.0 + c) × (q.0 + n < 65536)
            × Passed (places_in s.image.now s.g) s.g.keys (own_entry s.expected) filter.old (16 * b.0) }
        ensures { let s = self.now in
            Scanned result (places_in s.image.now s.g) s.g.keys (own_entry s.expected) filter.new (16 * (b.0 + n)) }
    {
        let mut key = b.0 % self.g.keys;
        for c in 0..n {
            if !self.sector_sound(Sector(q.0 + c), Block(b.0 + c), key, filter) {
                return false;
            }
            key = sound_entries::next_key(key, self.g.keys);
        }
        true
    }

    // The same of all blocks of SYS, stretch by stretch. The loop ends by the blocks that are left, not by the number of stretches.
    fn stretches_sound(&self, filter: &mut [u64; 4096]) -> bool
        requires { length filter.old ≡ 4096 }
        ensures { let s = self.now in
            Scanned result (places_in s.image.now s.g) s.g.keys (own_entry s.expected) filter.new (16 * s.expected.size) }
    {
        let size = self.expected.size;
        let index = self.expected.catalog.index;
        let mut b = 0;
        let mut j = 0;
        while b < size {
            let n = index::pair_length(self.image, index, j).min(size - b);
            let start = index::pair_start(self.image, index, j);
            if !self.stretch_sound(start, n, Block(b), filter) {
                return false;
            }
            b += n;
            j += 1;
        }
        true
    }
}

// Whether all places of SYS are legal, and the names in them alone.
fn places_sound(image: &[u16], g: Geometry, expected: Expected) -> bool
    requires { Judging image.now g expected expected.size }
    ensures { Decides result (PlacesLegal (places_in image.now g) g.keys (own_entry expected) (16 * expected.size)
        × NamesAlone (places_in image.now g) (16 * expected.size)) }
{
    let classes = names::classes();
    let scan = Scan {
        image,
        g,
        expected,
        classes: &classes,
    };
    scan.stretches_sound(&mut [0; 4096])
}

// Whether the names in SYS's layers are those of a sound unit.
pub fn names_sound(image: &[u16], g: Geometry, sys: Catalog) -> bool
    requires { SysIn image.now g sys }
    ensures { Decides result (SysNames image.now g sys.layers) }
{
    let expected = Expected {
        catalog: sys,
        inverse: sound_entries::inverse(g.keys),
        size: g.keys * sys.layers,
        reserved: sound_entries::sys_sectors(image, g, sys.index),
    };
    places_sound(image, g, expected) && sound_entries::system_entered(image, g, expected)
}
