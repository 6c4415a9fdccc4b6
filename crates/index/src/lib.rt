// Index blocks: read in place or as a value, lengthened in their words, cut as a value, and stored whole.

#![tactic(auto)]

ghost use Rattle.std.specs.Prelude.{◌≡◌, ◌+◌, ◌-◌, ◌*◌, ◌≤◌, ◌<◌, length};
ghost use Rattle.disc.specs.Pairs.{pair_length, pair_start};
ghost use Rattle.words.specs.Store.{store, zero_words};
ghost use Rattle.index.specs.Block.{pair_count, block_at, sector_total, slice_total, last_slice, joint_sector};
ghost use Rattle.index.specs.Block.{joins, stretches_with, with_pair, appended, Appendable, cut_to, LastPair};
ghost use Rattle.index.specs.Along.{Along, Reaches};

use types::{Block, Sector, Slice};

// The 256 words of an index block, held while a message changes it.
#[derive(Clone, Copy)]
pub struct IndexBlock {
    pub words: [u16; 256],
}

// The block of no slices.
pub fn empty_block() -> IndexBlock
    ensures { result.words ≡ zero_words 256 }
{
    IndexBlock { words: [0; 256] }
}

// The count of descriptions of the block in sector q, at most 127.
pub fn pair_count(image: &[u16], q: Sector) -> u16
    ensures { result ≡ pair_count image.now q.0 }
{
    words::word(image, q, 0).min(127)
}

// The length in sectors of pair j of the block in sector q.
pub fn pair_length(image: &[u16], q: Sector, j: usize) -> u16
    requires { j ≤ 127 }
    ensures { result ≡ pair_length image.now q.0 j }
{
    words::word(image, q, 2 * j + 1)
}

// The first sector of pair j of the block in sector q.
pub fn pair_start(image: &[u16], q: Sector, j: usize) -> Sector
    requires { j ≤ 127 }
    ensures { result.0 ≡ pair_start image.now q.0 j }
{
    Sector(words::word(image, q, 2 * j + 2))
}

// The first sector and the length of the last pair of the block in sector q, if it has a pair.
fn last_pair(image: &[u16], q: Sector) -> Option<(Sector, u16)>
    ensures { LastPair image.now q.0 result }
{
    let j = pair_count(image, q).checked_sub(1)? as usize;
    Some((pair_start(image, q, j), pair_length(image, q, j)))
}

// Stores another pair j in the words of a block.
fn set_pair(words: &mut [u16], j: usize, size: u16, start: Sector)
    requires { (j < 127) × (256 ≤ length words.old) }
    ensures { words.new ≡ with_pair words.old j size start.0 }
{
    words[2 * j + 1] = size;
    words[2 * j + 2] = start.0;
}

// The block in sector q as a value.
pub fn read_block(image: &[u16], q: Sector) -> IndexBlock
    ensures { result.words ≡ block_at image.now q.0 }
{
    let n = pair_count(image, q);
    let mut block = empty_block();
    block.words[0] = n;
    for j in 0..n as usize {
        set_pair(
            &mut block.words,
            j,
            pair_length(image, q, j),
            pair_start(image, q, j),
        );
    }
    block
}

// The sectors of all stretches of the block in sector q.
pub fn sector_total_at(image: &[u16], q: Sector) -> u32
    ensures { result ≡ sector_total image.now q.0 }
{
    let n = pair_count(image, q) as usize;
    let mut total = 0;
    for j in 0..n {
        total += pair_length(image, q, j) as u32;
    }
    total
}

// The number of slices of the block in sector q.
pub fn slice_total_at(image: &[u16], q: Sector, s: u16) -> u16
    requires { (1 ≤ s) × (slice_total s image.now q.0 < 65536) }
    ensures { result ≡ slice_total s image.now q.0 }
{
    (sector_total_at(image, q) / s as u32) as u16
}

// The last slice of the block in sector q; 0 if there is none, which is its formula's value (`last_slice`), so that it is no `Option`.
pub fn last_slice_at(image: &[u16], q: Sector, first: Sector, s: u16) -> Slice
    requires { 2 ≤ s }
    ensures { result.0 ≡ last_slice first.0 s image.now q.0 }
{
    let Some((start, length)) = last_pair(image, q) else {
        return Slice(0);
    };
    numbers::last_slice_of(first, s, start, length)
}

// The sector that comes `joined` sectors after the first of the joined stretches of the block in sector q; 0 past their end, the
// formula's value (`joint_sector`).
pub fn sector_at(image: &[u16], q: Sector, joined: u32) -> Sector
    ensures { result.0 ≡ joint_sector image.now q.0 joined }
{
    let n = pair_count(image, q) as usize;
    let mut rest = joined;
    for j in 0..n {
        let length = pair_length(image, q, j) as u32;
        if rest < length {
            return numbers::sector_after(pair_start(image, q, j), rest as u16);
        }
        rest -= length;
    }
    Sector(0)
}

// A joined sector, and the place from which the ones after it are sought: the pair that it lies in, or the number of pairs where it lies in
// none, and the sectors of the pairs before.
#[derive(Clone, Copy)]
pub struct Reached {
    pub sector: Sector,
    pub pair: usize,
    pub before: u32,
}

// The joined sector `joined` of a block given by its words, as `sector_at` tells it, sought from a place that is not past it.
pub fn sector_along(words: &[u16], pair: usize, before: u32, joined: u32) -> Reached
    requires { (before ≤ joined) × Along words.now pair before }
    ensures { Reaches words.now joined result }
{
    let n = pair_count(words, Sector(0)) as usize;
    let mut rest = joined - before;
    for j in pair..n {
        let length = pair_length(words, Sector(0), j) as u32;
        if rest < length {
            let start = pair_start(words, Sector(0), j);
            return Reached {
                sector: numbers::sector_after(start, rest as u16),
                pair: j,
                before: joined - rest,
            };
        }
        rest -= length;
    }
    Reached {
        sector: Sector(0),
        pair: n,
        before: joined - rest,
    }
}

// The sector of block b of a file with its index block in sector q, whose blocks begin at the joined sector `from`.
pub fn block_sector_at(image: &[u16], q: Sector, from: u16, b: Block) -> Sector
    ensures { result.0 ≡ joint_sector image.now q.0 (b.0 + from) }
{
    sector_at(image, q, numbers::joined_of(from, b))
}

// Whether slice k starts where the last stretch of the block in sector q ends.
fn joins_at(image: &[u16], q: Sector, first: Sector, s: u16, k: Slice) -> bool
    requires { 1 ≤ k.0 }
    ensures { result ≡ joins first.0 s k.0 image.now q.0 }
{
    let Some((start, length)) = last_pair(image, q) else {
        return false;
    };
    numbers::follows(first, s, start, length, k)
}

// The number of stretches of the block in sector q with slice k at the end.
pub fn stretches_with_at(image: &[u16], q: Sector, first: Sector, s: u16, k: Slice) -> u16
    requires { 1 ≤ k.0 }
    ensures { result ≡ stretches_with first.0 s k.0 image.now q.0 }
{
    let n = pair_count(image, q);
    if joins_at(image, q, first, s, k) {
        n
    } else {
        n + 1
    }
}

// Puts slice k at the end, in the words of a block: it lengthens the last pair or makes one more.
pub fn append_slice(words: &mut [u16], first: Sector, s: u16, k: Slice)
    requires { (256 ≤ length words.old) × Appendable first.0 s k.0 words.old }
    ensures { words.new ≡ appended first.0 s k.0 words.old }
{
    let n = pair_count(words, Sector(0));
    if joins_at(words, Sector(0), first, s, k) {
        words[2 * n as usize - 1] += s;
    } else {
        words[0] = n + 1;
        set_pair(words, n as usize, s, numbers::slice_start(first, s, k));
    }
}

// The block of the first n slices.
pub fn cut_block(block: IndexBlock, s: u16, n: u16) -> IndexBlock
    ensures { result.words ≡ cut_to s n block.words }
{
    let count = pair_count(&block.words, Sector(0));
    let mut cut = empty_block();
    let mut rest = s as u32 * n as u32;
    for j in 0..count {
        if rest == 0 {
            break;
        }
        let kept = rest.min(pair_length(&block.words, Sector(0), j as usize) as u32);
        let start = pair_start(&block.words, Sector(0), j as usize);
        set_pair(&mut cut.words, j as usize, kept as u16, start);
        cut.words[0] = j + 1;
        rest -= kept;
    }
    cut
}

// Stores the whole block in sector q.
pub fn store_block(image: &mut [u16], q: Sector, block: IndexBlock)
    requires { q.0 * 256 + 256 ≤ length image.old }
    ensures { image.new ≡ store image.old (q.0 * 256) block.words }
{
    words::store_sector(image, q, &block.words);
}

// The same questions of a block that is held as a value, each in a line: its number of slices.
pub fn slice_total(block: IndexBlock, s: u16) -> u16
    requires { (1 ≤ s) × (slice_total s block.words 0 < 65536) }
    ensures { result ≡ slice_total s block.words 0 }
{
    slice_total_at(&block.words, Sector(0), s)
}

// The sector of its file's block b, where the blocks begin at the joined sector `from`.
pub fn block_sector(block: IndexBlock, from: u16, b: Block) -> Sector
    ensures { result.0 ≡ joint_sector block.words 0 (b.0 + from) }
{
    block_sector_at(&block.words, Sector(0), from, b)
}
