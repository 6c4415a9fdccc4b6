// Format: its questions, and the image of a fresh unit written sector after sector.

#![tactic(auto)]

ghost use Rattle.std.specs.Prelude.{◌≡◌, length};
ghost use Prim.Native.Nat.{◌+◌, ◌*◌, ◌≤◌, ◌<◌, compare};
ghost use Rattle.disc.specs.Decide.{Decides};
ghost use Rattle.disc.specs.Numbers.{ceil_div};
ghost use Rattle.disc.specs.Names.{packed};
ghost use Rattle.disc.specs.Kit.{map_sector};
ghost use Rattle.disc.specs.Slices.{in_unit, one_if_none, one_if_same, occurrences};
ghost use Rattle.disc.specs.Stretches.{span};
ghost use Rattle.disc.specs.Map.{map_word};
ghost use Rattle.disc.specs.Entries.{system_entry};
ghost use Rattle.words.specs.Store.{store};
ghost use Rattle.refine.specs.Format.{store_block, map_words};
ghost use Rattle.format.specs.Format.{Formattable, LentLimits, lent_sectors, system_by, catalog_by, after_format, FormatAnswer};

use types::{Message, Name, Refusal, Sector, Slice, State};

// Stores the words as the start of sector q, and zeros behind them.
fn store_block(image: &mut [u16], q: Sector, block: &[u16])
    requires { (length block.now ≤ 256) × (q.0 * 256 + 256 ≤ length image.old) }
    ensures { image.new ≡ store_block image.old q.0 block.now }
{
    let count = block.len();
    words::store_words(image, q, 0, block, count);
    words::clear_words(image, q, count, 256 - count);
}

// The bit of slice k: 1 if it is one of the unit's, and not one of the first `used` ones, which SYS has.
fn map_bit(used: u16, slices: u16, k: Slice) -> u16
    requires { 1 ≤ k.0 }
    ensures { result ≡ in_unit slices k.0 * one_if_none (occurrences k.0 (span 1 used)) }
{
    u16::from(used < k.0 && k.0 <= slices)
}

// Word w of the map of a unit whose first `used` slices are held: its bits one after the other, the highest first.
fn map_word(used: u16, slices: u16, w: usize) -> u16
    requires { w < 256 }
    ensures { result ≡ map_word slices (span 1 used) w }
{
    let mut word = 0;
    for b in 0..16 {
        word = word * 2 + map_bit(used, slices, map::slice_at(w, b));
    }
    word
}

// Writes the map, sector 9, of a unit whose first `used` slices are held.
fn write_map(image: &mut [u16], used: u16, slices: u16)
    requires { 2560 ≤ length image.old }
    ensures { image.new ≡ store_block image.old map_sector (map_words slices (span 1 used) 0 256) }
{
    for w in 0..256 {
        words::set_word(image, Sector(9), w, map_word(used, slices, w));
    }
}

// The slices that SYS takes for one layer.
fn sys_slices(keys: u16, slice: u16) -> u16
    requires { 1 ≤ slice }
    ensures { result ≡ ceil_div keys slice }
{
    keys.div_ceil(slice)
}

// Writes sectors 6 to 9: the index blocks of SYS and MAP, the kit, and the map. The free sectors are those of the slices
// that SYS does not take, whatever the record says.
fn write_system(image: &mut [u16], lent: &[u16])
    requires { (9 ≤ length lent.now) × LentLimits lent.now × (length image.old ≡ 256 * lent_sectors lent.now) }
    ensures { image.new ≡ system_by image.old lent.now }
{
    let keys = lent[1];
    let slice = lent[2];
    let sectors = lent[3];
    let first = Sector(lent[5]);
    let used = sys_slices(keys, slice);
    let slices = (sectors - first.0) / slice;
    let free = slice * (slices - used);
    let sys_index = [1, slice * used, first.0];
    let map_index = [1, 1, 9];
    let kit = [
        keys, slice, sectors, free, first.0, sectors, lent[7], lent[8],
    ];
    store_block(image, Sector(6), &sys_index);
    store_block(image, Sector(7), &map_index);
    store_block(image, Sector(8), &kit);
    write_map(image, used, slices);
}

// Stores the entry of SYS or MAP in a place of sector q.
fn enter(
    image: &mut [u16],
    q: Sector,
    place: usize,
    name: Name,
    size: u16,
    index: Sector,
    reserved: u16,
)
    requires { (place < 16) × (q.0 * 256 + 256 ≤ length image.old) }
    ensures { image.new ≡ store image.old (q.0 * 256 + 16 * place)
        (system_entry (packed name) size index.0 reserved) }
{
    let entry = catalog::system_entry(name, size, index, reserved);
    words::store_words(image, q, 16 * place, &entry, 16);
}

// MAP's place in the sector of its key: the second one where SYS, whose key is `taken`, has the first.
fn map_place(taken: u16, key: u16) -> usize
    ensures { result ≡ one_if_same (compare key taken) }
{
    usize::from(key == taken)
}

// Zeroes SYS's sectors and enters SYS, then MAP.
fn write_catalog(image: &mut [u16], lent: &[u16])
    requires { (9 ≤ length lent.now) × LentLimits lent.now × (length image.old ≡ 256 * lent_sectors lent.now) }
    ensures { image.new ≡ catalog_by image.old lent.now }
{
    let keys = lent[1];
    let slice = lent[2];
    let first = Sector(lent[5]);
    let sys = names::sys_name();
    let map = names::map_name();
    let sys_key = numbers::key(sys, keys);
    let map_key = numbers::key(map, keys);
    let reserved = slice * sys_slices(keys, slice);
    words::clear_words(image, first, 0, 256 * keys as usize);
    enter(
        image,
        numbers::sector_after(first, sys_key),
        0,
        sys,
        keys,
        Sector(6),
        reserved,
    );
    enter(
        image,
        numbers::sector_after(first, map_key),
        map_place(sys_key, map_key),
        map,
        1,
        Sector(7),
        1,
    );
}

// Whether the unit is known and has no area process, and the record describes a unit of the image's size.
fn accepts(image: &[u16], state: State, lent: &[u16]) -> bool
    requires { 9 ≤ length lent.now }
    ensures { Decides result (Formattable image.now state lent.now) }
{
    let sectors = lent[3];
    let first = Sector(lent[5]);
    first_question::known(state, Message::Init { unit: lent[0] })
        && kit::within_limits(lent[1], lent[2], first, sectors)
        && lent[4] == sectors - first.0
        && lent[6] == sectors
        && image.len() == sectors as usize * 256
}

// Format: makes the image that of a fresh unit, as the record of nine words describes it. Hands back the state after it; a refusal
// leaves it as it was.
pub fn format(image: &mut [u16], state: State, bytes: u16, lent: &[u16]) -> Result<State, Refusal>
    ensures { FormatAnswer image.old state bytes lent.now image.new (after_format state result) }
{
    if bytes != 18 || lent.len() < 9 {
        return Err(Refusal::FormatRecord);
    }
    if !accepts(image, state, lent) {
        return Err(Refusal::CatalogParameter);
    }
    write_system(image, lent);
    write_catalog(image, lent);
    Ok(state::with_initialized(state, false))
}
