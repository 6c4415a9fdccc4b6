// The ordinary files, as a sound unit has them: their attributes, lengths and slices, closed or open. SYS is walked by its
// stretches, and the slices that the files have are marked.

#![tactic(auto)]

ghost use Rattle.std.specs.Prelude.{◌≡◌, false, [], ◌+◌, ◌*◌, ◌/◌, ◌≤◌, ◌<◌, length, take, IsFalse};
ghost use Rattle.disc.specs.Decide.{Decides};
ghost use Rattle.disc.specs.Entries.{place_count, name_by};
ghost use Rattle.sound.specs.Places.{Booked};
ghost use Rattle.sound.specs.Parts.{Marking, MarksOf};
ghost use Rattle.sound_files.specs.Cells.{open_name, open_file, FlatOf, OpenUpto, name_cell, CellsOf};
ghost use Rattle.sound_files.specs.Live.{index_by, length_by, live_in, lives, OpenOf, Unopened};
ghost use Rattle.kit.specs.Geometry.{UnitOf};
ghost use Rattle.marks.specs.Marked.{SomeMarked};
ghost use Rattle.sound_entries.specs.Sys.{sys_slices, places_in};
ghost use Rattle.sound_files.specs.Walk.{places_from, PlaceMarking, PlacesMarking, SysMarked, NamesKnown, SysFiles, sys_held};
ghost use Rattle.sound_files.specs.Walk.{OrdinaryPlace, OrdinaryPlaces, PlainMarking, PlainPlaces};
ghost use Rattle.sound_files.specs.Rules.{words_at, entry_at, FileNumbers, DataSector, OwnMarking};
ghost use Rattle.sound_files.specs.Rules.{FileMarking, PlainNumbers, ClosedMarking};

mod files;

use catalog::Catalog;
pub use files::{Live, OpenFile, OpenFiles};
use kit::Geometry;
use types::{Area, Name, Sector, State};

// The greatest length of a file: "length at most 32,767".
const LONGEST: u16 = 32767;

// The words of an entry that say what its file is.
#[derive(Clone, Copy, Debug, PartialEq, Eq)]
pub struct Entry {
    pub attributes: u16,
    pub size: u16,
    pub index: Sector,
    pub reserved: u16,
}

// The name of an open descriptor as one number, else 0.
fn open_name(area: Area) -> u64
    ensures { result ≡ open_name area }
{
    if state::is_open(area) {
        return names::packed(area.name);
    }
    0
}

// What a descriptor says.
fn open_file(area: Area) -> OpenFile
    ensures { result ≡ open_file area }
{
    OpenFile {
        name: open_name(area),
        live: Live {
            index: area.index,
            length: area.length,
        },
    }
}

// What the descriptors say.
pub fn flatten(state: State) -> [OpenFile; 8]
    ensures { FlatOf state result }
{
    let shut = OpenFile {
        name: 0,
        live: Live {
            index: Sector(0),
            length: 0,
        },
    };
    let mut list = [shut; 8];
    for (j, area) in state.areas.iter().enumerate() {
        list[j] = open_file(*area);
    }
    list
}

// How many descriptors have to be compared: none from there on is open.
fn open_upto(list: &[OpenFile; 8]) -> usize
    ensures { OpenUpto list.now result }
{
    list.iter()
        .rposition(|file| file.name != 0)
        .map_or(0, |last| last + 1)
}

// The cell of a name in the table of open names.
fn name_cell(name: u64) -> usize
    ensures { (result ≡ name_cell name) × (result < 256) }
{
    ((name / 4294967296 + name / 65536 % 65536 + name % 65536) % 251) as usize
}

// A table in which the cells of these names are filled.
fn cells_of(list: &[OpenFile]) -> [u8; 256]
    ensures { CellsOf list.now result }
{
    let mut cells = [0; 256];
    for file in list {
        cells[name_cell(file.name)] = 1;
    }
    cells
}

// What descriptors say of a name.
pub fn live_of(list: &[OpenFile], name: u64) -> Option<Live>
    ensures { result ≡ live_in list.now name }
{
    for file in list {
        if names::same_number(file.name, name) {
            return Some(file.live);
        }
    }
    None
}

impl OpenFiles {
    // The open area processes of a state.
    pub fn of(state: State) -> OpenFiles
        ensures { OpenOf state result }
    {
        let list = flatten(state);
        let upto = open_upto(&list);
        let cells = cells_of(&list[..upto]);
        OpenFiles { list, upto, cells }
    }

    // What is known of the area process of a name.
    pub fn live_of(&self, name: u64) -> Option<Live>
        ensures { result ≡ lives self.now name }
    {
        live_of(&self.list[..self.upto], name)
    }

    // Whether the name may be that of an open area process.
    fn may_have(&self, name: u64) -> bool
        ensures { IsFalse result → Unopened self.now name }
    {
        self.cells[name_cell(name)] != 0
    }
}

// The index sector that counts.
fn live_index(live: Option<Live>, booked: Sector) -> Sector
    ensures { result.0 ≡ index_by live booked.0 }
{
    live.map_or(booked, |process| process.index)
}

// The length that counts.
fn live_length(live: Option<Live>, booked: u16) -> u16
    ensures { result ≡ length_by live booked }
{
    live.map_or(booked, |process| process.length)
}

// The words of the entry that stands at a word of the image.
fn entry_at(image: &[u16], at: usize) -> Entry
    requires { at + 16 ≤ length image.now }
    ensures { result ≡ entry_at image.now at }
{
    Entry {
        attributes: image[at + 6],
        size: image[at + 7],
        index: Sector(image[at + 8]),
        reserved: image[at + 9],
    }
}

// Whether an entry may stand beside the open area process of a file with so many slices.
fn booked_legal(entry: Entry, live: Live, slices: u16, s: u16) -> bool
    requires { 1 ≤ s }
    ensures { Decides result (Booked s entry.size entry.index.0 entry.reserved live.length live.index.0 slices) }
{
    let own = entry.reserved / s;
    if own * s != entry.reserved
        || slices < own
        || live.length < entry.size
        || !numbers::covered(s, entry.size, own)
    {
        return false;
    }
    let index = if own == 0 { Sector(0) } else { live.index };
    entry.index == index
}

// Whether the numbers of a file with so many slices are legal.
fn numbers_legal(entry: Entry, live: Option<Live>, slices: u16, s: u16) -> bool
    requires { 1 ≤ s }
    ensures { Decides result (FileNumbers s entry live slices) }
{
    let size = live_length(live, entry.size);
    if !attributes::legal(entry.attributes)
        || !attributes::legal_with(entry.attributes, slices)
        || LONGEST < size
        || !numbers::covered(s, size, slices)
    {
        return false;
    }
    match live {
        Some(process) => booked_legal(entry, process, slices, s),
        None => entry.reserved as u32 == s as u32 * slices as u32,
    }
}

// Whether sector q is a data sector of the unit.
fn is_data_sector(q: Sector, g: Geometry) -> bool
    ensures { Decides result (DataSector g q.0) }
{
    g.first <= q && q.0 < g.sectors
}

// Judges the index block in sector q, which must be the first sector of the first slice, marks the slices and answers their number;
// for q = 0 there are none. No block is read in another sector than a data sector.
fn own_index(image: &[u16], q: Sector, g: Geometry, marks: &mut [u8; 4096]) -> Option<u16>
    requires { UnitOf image.now g × SomeMarked g.slices marks.old }
    ensures { OwnMarking image.now g q.0 marks.old marks.new result }
{
    if q.0 == 0 {
        return Some(0);
    }
    if !is_data_sector(q, g) {
        return None;
    }
    let found = marks::mark_index(image, q, g, marks)?;
    (found.start == q).then_some(found.slices)
}

// Judges the file whose entry stands at a word of the image, and marks its slices.
fn file_sound(
    image: &[u16],
    at: usize,
    live: Option<Live>,
    g: Geometry,
    marks: &mut [u8; 4096],
) -> bool
    requires { UnitOf image.now g × SomeMarked g.slices marks.old × (at + 16 ≤ length image.now) }
    ensures { FileMarking image.now g (entry_at image.now at) live
        marks.old marks.new result }
{
    let entry = entry_at(image, at);
    let Some(slices) = own_index(image, live_index(live, entry.index), g, marks) else {
        return false;
    };
    numbers_legal(entry, live, slices, g.slice)
}

// Whether the numbers of an entry are those of a closed file with some slices, where so many sectors are reserved.
fn plain_numbers(entry: Entry) -> bool
    ensures { Decides result (PlainNumbers entry) }
{
    entry.size < entry.reserved
        && !attributes::entry_only(entry.attributes)
        && attributes::legal(entry.attributes)
}

// The same of a closed file whose slices are all in one stretch. Of any other file it says false and marks nothing.
fn plain_file(
    image: &[u16],
    at: usize,
    g: Geometry,
    reciprocal: u32,
    marks: &mut [u8; 4096],
) -> bool
    requires { UnitOf image.now g × SomeMarked g.slices marks.old × (at + 16 ≤ length image.now)
        × (reciprocal ≡ 65536 / g.slice + 1) }
    ensures { ClosedMarking image.now g (entry_at image.now at) marks.old marks.new result }
{
    let entry = entry_at(image, at);
    plain_numbers(entry)
        && marks::mark_single(image, entry.index, entry.reserved, g, reciprocal, marks)
}

// The name that stands at a word of the image, as one number.
fn name_at(image: &[u16], at: usize) -> u64
    requires { at + 16 ≤ length image.now }
    ensures { result ≡ name_by (words_at image.now at) }
{
    names::packed(Name(image[at], image[at + 1], image[at + 2]))
}

// Judges the place that stands at a word of the image, and marks the slices that it holds.
fn place_sound(
    image: &[u16],
    at: usize,
    files: &OpenFiles,
    g: Geometry,
    marks: &mut [u8; 4096],
) -> bool
    requires { UnitOf image.now g × SomeMarked g.slices marks.old × (at + 16 ≤ length image.now) }
    ensures { PlaceMarking image.now g (lives files.now)
        (words_at image.now at) marks.old marks.new result }
{
    let name = name_at(image, at);
    if name == 0 || names::is_system_number(name) {
        return true;
    }
    file_sound(image, at, files.live_of(name), g, marks)
}

// Judges the place that stands at a word of the image, if it is unused or that of a closed file whose slices are all in one
// stretch, and marks the slices. Of any other place it says false and marks nothing.
fn plain_place(
    image: &[u16],
    at: usize,
    g: Geometry,
    reciprocal: u32,
    marks: &mut [u8; 4096],
) -> bool
    requires { UnitOf image.now g × SomeMarked g.slices marks.old × (at + 16 ≤ length image.now)
        × (reciprocal ≡ 65536 / g.slice + 1) × OrdinaryPlace (words_at image.now at) }
    ensures { PlainMarking image.now g (words_at image.now at) marks.old marks.new result }
{
    if image[at + 8] < g.first.0 {
        return name_at(image, at) == 0;
    }
    plain_file(image, at, g, reciprocal, marks)
}

// Judges places from a word of the image on up to the first that `plain_place` leaves, or whose name may be open, and says how many.
// Where no area process is open there is no look at the names: the loop is short then, so that the index blocks of many files are read
// at once.
fn quick_run<const GUARDED: bool>(
    image: &[u16],
    at: usize,
    count: usize,
    files: &OpenFiles,
    g: Geometry,
    marks: &mut [u8; 4096],
) -> usize
    requires { UnitOf image.now g × SomeMarked g.slices marks.old × (at + 16 * count ≤ length image.now)
        × OrdinaryPlaces (places_from image.now at) count × (IsFalse GUARDED → files.now.upto ≡ 0) }
    ensures { PlainPlaces image.now g (places_from image.now at) count files.now marks.old marks.new result }
{
    let reciprocal = numbers::reciprocal(g.slice);
    for i in 0..count {
        if GUARDED && files.may_have(name_at(image, at + 16 * i)) {
            return i;
        }
        if !plain_place(image, at + 16 * i, g, reciprocal, marks) {
            return i;
        }
    }
    count
}

// The same, guarded where an area process is open.
fn plain_run(
    image: &[u16],
    at: usize,
    count: usize,
    files: &OpenFiles,
    g: Geometry,
    marks: &mut [u8; 4096],
) -> usize
    requires { UnitOf image.now g × SomeMarked g.slices marks.old × (at + 16 * count ≤ length image.now)
        × OrdinaryPlaces (places_from image.now at) count }
    ensures { PlainPlaces image.now g (places_from image.now at) count files.now marks.old marks.new result }
{
    if files.upto == 0 {
        return quick_run::<false>(image, at, count, files, g, marks);
    }
    quick_run::<true>(image, at, count, files, g, marks)
}

// Judges so many places, which stand one after the other from a word of the image on: the quick way as far as that goes, then one by
// all the rules, and so on. A turn takes more than one place, so that there is no range to go through.
fn run_sound(
    image: &[u16],
    at: usize,
    count: usize,
    files: &OpenFiles,
    g: Geometry,
    marks: &mut [u8; 4096],
) -> bool
    requires { UnitOf image.now g × SomeMarked g.slices marks.old × (at + 16 * count ≤ length image.now)
        × OrdinaryPlaces (places_from image.now at) count }
    ensures { PlacesMarking image.now g (lives files.now) (places_from image.now at) count marks.old marks.new result }
{
    let mut i: usize = 0;
    loop {
        i += plain_run(image, at + 16 * i, count - i, files, g, marks);
        if i == count {
            return true;
        }
        if !place_sound(image, at + 16 * i, files, g, marks) {
            return false;
        }
        i += 1;
    }
}

// Judges the places of all blocks of SYS, stretch by stretch. A turn takes the blocks of a stretch, so that there is no range to go
// through.
fn stretches_sound(
    image: &[u16],
    sys: Catalog,
    files: &OpenFiles,
    g: Geometry,
    marks: &mut [u8; 4096],
) -> bool
    requires { SysMarked image.now g marks.old sys × OrdinaryPlaces (places_in image.now g) (place_count g.keys sys.layers) }
    ensures { PlacesMarking image.now g (lives files.now)
        (places_in image.now g) (place_count g.keys sys.layers) marks.old marks.new result }
{
    let size = g.keys * sys.layers;
    let mut b: u16 = 0;
    let mut j: usize = 0;
    while b < size {
        let n = index::pair_length(image, sys.index, j).min(size - b);
        let at = index::pair_start(image, sys.index, j).0 as usize * 256;
        if !run_sound(image, at, 16 * n as usize, files, g, marks) {
            return false;
        }
        b += n;
        j += 1;
    }
    true
}

// Judges all ordinary files, whose entries stand in the layers of SYS, and marks their slices beside SYS's. Where one is refused, no
// slice is left marked.
pub fn files_sound(
    image: &[u16],
    state: State,
    g: Geometry,
    sys: Catalog,
    marks: &mut [u8; 4096],
) -> bool
    requires { SysMarked image.now g marks.old sys × NamesKnown image.now g (place_count g.keys sys.layers) }
    ensures refused { result ≡ false → MarksOf marks.new [] }
    ensures marking { Marking result (SysFiles image.now state g sys.layers) g.slices marks.new
        (sys_slices image.now g) (sys_held image.now state g sys.layers) }
{
    let files = OpenFiles::of(state);
    if !stretches_sound(image, sys, &files, g, marks) {
        marks::unmark_all(marks);
        return false;
    }
    true
}
