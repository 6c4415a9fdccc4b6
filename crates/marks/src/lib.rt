// The marks of the slices that files have, one for each slice of a unit: set from index blocks, and compared with the map.

#![tactic(auto)]

ghost use Rattle.std.specs.Prelude.{◌≡◌, List, [], ℕ, ◌+◌, ◌-◌, ◌*◌, ◌/◌, ◌≤◌, ◌<◌, length, get_or};
ghost use Rattle.disc.specs.Decide.{Decides};
ghost use Rattle.disc.specs.Numbers.{slice_count};
ghost use Rattle.disc.specs.Kit.{Limits};
ghost use Rattle.disc.specs.Slices.{InRangeOnce};
ghost use Rattle.sound.specs.Sound.{SoundMap};
ghost use Rattle.sound.specs.Parts.{MarksOf};
ghost use Rattle.kit.specs.Geometry.{UnitOf};
ghost use Rattle.marks.specs.Indexed.{PairMarking, IndexSector, PairsMarking, IndexMarking, OnePair, SingleMarking};
ghost use Rattle.marks.specs.Marked.{SomeMarked, Free, run_marks, RunMarking};
ghost use Rattle.marks.specs.Packed.{packed, Filled, Cleared};

use kit::Geometry;
use types::{Sector, Slice};

// The image's index of the map's first word, and the words of the map.
const MAP: usize = 9 * 256;

const MAP_WORDS: usize = 256;

// Sixteen marks from mark `at` on as one number, the first of them highest.
fn packed(marks: &[u8; 4096], at: usize) -> u32
    requires { at + 16 ≤ 4096 }
    ensures { (result ≡ packed (λ i. get_or marks.now i 0) at 16) × (result ≤ 255 * 0xFFFF) }
{
    let mut word: u32 = 0;
    for mark in &marks[at..at + 16] {
        word = 2 * word + *mark as u32;
    }
    word
}

// Whether each of the first n map words and the marks of its slices add up to FFFFh: every slice is free or marked, not both.
fn filled(image: &[u16], marks: &[u8; 4096], n: usize) -> bool
    requires { (n ≤ 256) × (2560 ≤ length image.now) }
    ensures { Decides result (Filled image.now marks.now n) }
{
    for w in 0..n {
        if image[MAP + w] as u32 + packed(marks, 16 * w) != 0xFFFF {
            return false;
        }
    }
    true
}

// Whether the map words from word n on are 0. Their sum is taken, with no way out of the loop, so that it is quick.
fn cleared(image: &[u16], n: usize) -> bool
    requires { (n ≤ 256) × (2560 ≤ length image.now) }
    ensures { Decides result (Cleared image.now n) }
{
    let mut sum: u32 = 0;
    for word in &image[MAP + n..MAP + MAP_WORDS] {
        sum += *word as u32;
    }
    sum == 0
}

// Whether the map is that of the marked slices: full words, the word in which the unit's slices end, and words past it.
pub fn map_agrees(image: &[u16], marks: &[u8; 4096], g: Geometry) -> bool
    requires { UnitOf image.now g × SomeMarked g.slices marks.now }
    ensures { (all : List ℕ) → MarksOf marks.now all → InRangeOnce g.slices all
        → Decides result (SoundMap image.now g.slices all) }
{
    let full = g.slices as usize / 16;
    if full == MAP_WORDS {
        return filled(image, marks, full);
    }
    let past = 2 * numbers::bit_word(g.slices as usize % 16) as u32;
    filled(image, marks, full)
        && image[MAP + full] as u32 + packed(marks, 16 * full) + past == 65536
        && cleared(image, full + 1)
}

// Whether none of the slices from + 1 to from + count is marked. The marks are summed, with no way out of the loop, so that it is
// quick.
fn is_free(marks: &[u8; 4096], from: usize, count: usize) -> bool
    requires { from + count ≤ 4096 }
    ensures { Decides result (Free marks.now from count) }
{
    let mut taken: u32 = 0;
    for mark in &marks[from..from + count] {
        taken += *mark as u32;
    }
    taken == 0
}

// Marks the slices from + 1 to from + count; false, and nothing is marked, where one of them is marked already.
fn mark_many(marks: &mut [u8; 4096], from: usize, count: usize) -> bool
    requires { from + count ≤ 4096 }
    ensures { RunMarking result from count marks.old marks.new }
{
    if !is_free(marks, from, count) {
        return false;
    }
    // With `fill`, the check of 100 files of 30 slices took 6 % longer.
    for n in 0..count {
        marks[from + n] = 1;
    }
    true
}

// The same of slice from + 1.
fn mark_one(marks: &mut [u8; 4096], from: usize) -> bool
    requires { from < 4096 }
    ensures { RunMarking result from 1 marks.old marks.new }
{
    if marks[from] != 0 {
        return false;
    }
    marks[from] = 1;
    true
}

// The same of two to four slices. Fewer than four are tried and marked twice, which needs no branch on their number.
fn mark_four(marks: &mut [u8; 4096], from: usize, count: usize) -> bool
    requires { (2 ≤ count) × (count ≤ 4) × (from + count ≤ 4096) }
    ensures { RunMarking result from count marks.old marks.new }
{
    let last = from + (count - 1);
    let third = last.min(from + 2);
    if marks[from] != 0 || marks[from + 1] != 0 || marks[third] != 0 || marks[last] != 0 {
        return false;
    }
    marks[from] = 1;
    marks[from + 1] = 1;
    marks[third] = 1;
    marks[last] = 1;
    true
}

// Marks the slices k to k + count - 1, the usual small numbers of slices without a loop; false, and nothing is marked, where one of
// them is marked already.
fn mark_slices(marks: &mut [u8; 4096], k: Slice, count: usize) -> bool
    requires { (1 ≤ k.0) × (1 ≤ count) × (k.0 - 1 + count ≤ 4096) }
    ensures { RunMarking result (k.0 - 1) count marks.old marks.new }
{
    let from = (k.0 - 1) as usize;
    match count {
        1 => mark_one(marks, from),
        2..=4 => mark_four(marks, from, count),
        _ => mark_many(marks, from, count),
    }
}

// Marks the slices of a pair of an index block, and answers their number: none where they are no whole slices of the unit, or one of
// them is marked already. A quotient multiplied back tells whether there is a remainder, with one division instead of two.
fn mark_pair(sectors: u16, start: Sector, g: Geometry, marks: &mut [u8; 4096]) -> Option<u16>
    requires { Limits g.keys g.slice g.first.0 g.sectors × (g.slices ≡ slice_count g.slice g.first.0 g.sectors) }
    ensures { PairMarking g sectors start.0 marks.old marks.new result }
{
    if start < g.first {
        return None;
    }
    let k = numbers::slice_of(g.first, g.slice, start);
    if !numbers::starts_at(g.first, g.slice, k, start) {
        return None;
    }
    let slice = g.slice as u32;
    let count = sectors as u32 / slice;
    if count * slice != sectors as u32
        || (g.slices as u32) < (k.0 - 1) as u32 + count
        || count == 0
    {
        return None;
    }
    mark_slices(marks, k, count as usize).then_some(count as u16)
}

// What is known of a legal index block of a file: the number of its slices and the first sector of the first one.
#[derive(Clone, Copy, Debug, PartialEq, Eq)]
pub struct Indexed {
    pub slices: u16,
    pub start: Sector,
}

// Leaves no slice marked.
pub fn unmark_all(marks: &mut [u8; 4096])
    ensures { MarksOf marks.new [] }
{
    *marks = [0; 4096];
}

// Judges the pairs of the index block in sector q and marks their slices; those before a refused pair are left marked. No pair starts
// at sector 0, where the pair before the first one ends.
fn mark_pairs(image: &[u16], q: Sector, g: Geometry, marks: &mut [u8; 4096]) -> Option<Indexed>
    requires { UnitOf image.now g × SomeMarked g.slices marks.old × IndexSector g q.0 }
    ensures { PairsMarking image.now g q.0 marks.old marks.new result }
{
    let at = q.0 as usize * 256;
    let pairs = image[at] as usize;
    if pairs == 0 || 127 < pairs {
        return None;
    }
    let mut slices: u16 = 0;
    let mut end = Sector(0);
    for j in 0..pairs {
        let sectors = image[at + (2 * j + 1)];
        let start = Sector(image[at + (2 * j + 2)]);
        if start == end {
            return None;
        }
        slices += mark_pair(sectors, start, g, marks)?;
        end = Sector(start.0 + sectors);
    }
    Some(Indexed {
        slices,
        start: Sector(image[at + 2]),
    })
}

// Judges the index block in sector q and marks its slices. Where it is refused no slice is left marked, so that nothing rests on those
// marked before the refusal.
// "Sectors 0 to 5 are never read": no contract can say what is read, so that the sector is a premise, which a caller has to show.
pub fn mark_index(image: &[u16], q: Sector, g: Geometry, marks: &mut [u8; 4096]) -> Option<Indexed>
    requires { UnitOf image.now g × SomeMarked g.slices marks.old × IndexSector g q.0 }
    ensures { IndexMarking image.now g q.0 marks.old marks.new result }
{
    let found = mark_pairs(image, q, g, marks);
    if found.is_none() {
        unmark_all(marks);
    }
    found
}

// Whether the index block in sector q has one pair, of so many sectors from sector q on.
fn one_pair(image: &[u16], q: Sector, sectors: u16) -> bool
    requires { q.0 * 256 + 256 ≤ length image.now }
    ensures { Decides result (OnePair image.now q.0 sectors) }
{
    let at = q.0 as usize * 256;
    image[at] == 1 && image[at + 1] == sectors && image[at + 2] == q.0
}

// Marks the slices of a file whose index block, in its first sector q, has one pair of so many sectors, if none of them is marked.
// For any other file it says false, and nothing is marked. All but the block is known from the file's entry, so that nothing has
// to wait for the block's words but the comparison with them.
pub fn mark_single(
    image: &[u16],
    q: Sector,
    sectors: u16,
    g: Geometry,
    reciprocal: u32,
    marks: &mut [u8; 4096],
) -> bool
    requires { UnitOf image.now g × (reciprocal ≡ 65536 / g.slice + 1) }
    ensures { SingleMarking image.now g q.0 sectors marks.old marks.new result }
{
    if q < g.first {
        return false;
    }
    let k = numbers::slice_by(g.first, q, reciprocal);
    if !numbers::starts_at(g.first, g.slice, k, q) {
        return false;
    }
    let count = numbers::slices_by(sectors, reciprocal) as u32;
    if count < 1 {
        return false;
    }
    if count * g.slice as u32 != sectors as u32
        || (g.slices as u32) < (k.0 - 1) as u32 + count
        || !one_pair(image, q, sectors)
    {
        return false;
    }
    mark_slices(marks, k, count as usize)
}
