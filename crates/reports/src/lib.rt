// Get Unit Description and the listing, after the questions that they have in common with the catalog messages.

#![tactic(auto)]

ghost use Rattle.std.specs.Prelude.{◌≡◌, ◌+◌, ◌*◌, ◌≤◌, ◌<◌, length};
ghost use Rattle.words.specs.Store.{store};
ghost use Rattle.lookup.specs.Unit.{MeantOn};
ghost use Rattle.reports.specs.Description.{described, description_answer, Describes};
ghost use Rattle.reports.specs.Listing.{slot_record, slot_records, block_records, Readable, CountOf, Noted, CanList, listing_answer, Lists};

use catalog::{Catalog, Unit};
use types::{Refusal, Sector};

// Stores the description's record of 16 words at the start of the lent ones.
fn store_description(image: &[u16], unit: Unit, number: u16, lent: &mut [u16])
    requires { (number ≤ 3) × (16 ≤ length lent.old) }
    ensures { lent.new ≡ store lent.old 0 (described image.now unit number) }
{
    let sectors = words::word(image, Sector(8), 2);
    let free = words::word(image, Sector(8), 3);
    let description = [
        0,
        number,
        0,
        20,
        0x554E,
        0x4954,
        number * 256,
        0,
        0,
        0,
        0,
        0,
        unit.catalog.keys,
        unit.slice,
        sectors,
        free,
    ];
    words::copy_words(&description, 0, lent, 0, 16);
}

// Get Unit Description of a message that means this unit. N and the free sectors are read in the kit, the other numbers are the
// unit's.
pub fn describe(
    image: &[u16],
    unit: Unit,
    number: u16,
    bytes: u16,
    lent: &mut [u16],
) -> Result<(), Refusal>
    requires { MeantOn image.now unit number }
    ensures { Describes image.now unit number bytes lent.old (description_answer result) lent.new }
{
    if bytes < 32 || lent.len() < 16 {
        return Err(Refusal::CatalogParameter);
    }
    store_description(image, unit, number, lent);
    Ok(())
}

// The number of used slots of sector q.
fn count_slots(image: &[u16], q: Sector) -> u32
    requires { q.0 * 256 + 256 ≤ length image.now }
    ensures { CountOf (slot_records image.now q.0 16) result }
{
    let mut count = 0;
    for i in 0..16 {
        if image[q.0 as usize * 256 + i * 16] != 0 {
            count += 1;
        }
    }
    count
}

// The number of used places in the first n blocks of a catalog.
fn count_entries(image: &[u16], c: Catalog, n: u32) -> u32
    requires { Readable image.now c n }
    ensures { CountOf (block_records image.now c n) result }
{
    let mut count = 0;
    for b in 0..n {
        let q = index::sector_at(image, c.index, b + c.from as u32);
        count += count_slots(image, q);
    }
    count
}

// Stores the record of the entry in a slot of sector q, if the slot is used, from lent word `at` on. Hands back the number of the word
// after it.
fn note_slot(image: &[u16], q: Sector, slot: u16, lent: &mut [u16], at: usize) -> usize
    requires { (q.0 * 256 + 256 ≤ length image.now) × (slot < 16)
        × (at + length (slot_record image.now q.0 slot) ≤ length lent.old) }
    ensures { Noted lent.old at (slot_record image.now q.0 slot) lent.new result }
{
    let first = q.0 as usize * 256 + slot as usize * 16;
    if image[first] == 0 {
        return at;
    }
    let group = q.0 as u32 * 16 + slot as u32;
    let entry = [
        image[first],
        image[first + 1],
        image[first + 2] / 256 * 256 + (group / 65536) as u16,
        (group % 65536) as u16,
    ];
    words::copy_words(&entry, 0, lent, at, 4);
    at + 4
}

// Stores the records of the entries in the slots of sector q, one after the other, from lent word `start` on.
fn note_slots(image: &[u16], q: Sector, lent: &mut [u16], start: usize) -> usize
    requires { (q.0 * 256 + 256 ≤ length image.now) × (start + length (slot_records image.now q.0 16) ≤ length lent.old) }
    ensures { Noted lent.old start (slot_records image.now q.0 16) lent.new result }
{
    let mut at = start;
    for slot in 0..16 {
        at = note_slot(image, q, slot, lent, at);
    }
    at
}

// Stores the records of the entries in the first n blocks of a catalog from lent word `start` on.
fn note_entries(image: &[u16], c: Catalog, n: u32, lent: &mut [u16], start: usize)
    requires { Readable image.now c n × (start + length (block_records image.now c n) ≤ length lent.old) }
    ensures { lent.new ≡ store lent.old start (block_records image.now c n) }
{
    let mut at = start;
    for b in 0..n {
        let q = index::sector_at(image, c.index, b + c.from as u32);
        at = note_slots(image, q, lent, at);
    }
}

// The listing: the entries of SYS, counted first, noted in the order of their places, and stored in the order of their names. Their records
// stand behind as many words as they take, which is where they are ordered from. Hands back the number of entries.
pub fn list(image: &[u16], unit: Unit, lent: &mut [u16]) -> Result<u32, Refusal>
    requires { CanList image.now unit }
    ensures { Lists image.now unit lent.old (listing_answer result) lent.new }
{
    let blocks = unit.catalog.keys as u32 * unit.catalog.layers as u32;
    let count = count_entries(image, unit.catalog, blocks);
    if lent.len() < 16 * count as usize {
        return Err(Refusal::CatalogParameter);
    }
    note_entries(image, unit.catalog, blocks, lent, 4 * count as usize);
    order::by_name(image, lent, count as usize);
    Ok(count)
}
