// The map of free slices, sector 9 of the image: its bits, their count, and the choice of a slice, or of a stretch, to take.

#![tactic(auto)]

ghost use Rattle.std.specs.Prelude.{◌≡◌, ◌+◌, ◌*◌, ◌≤◌, ◌<◌, min, eqb, length};
ghost use Rattle.disc.specs.Map.{map_bit, ones_in_map};
ghost use Rattle.map.specs.Marks.{with_bit, marked, marked_used, marked_free};
ghost use Rattle.map.specs.Choice.{lowest_free, chosen, Answers};
ghost use Rattle.map.specs.Stretch.{FindsStretch, Passed, Beginnings};

use types::Slice;

// The image's index of the map's first word, and the words of the map.
const MAP: usize = 9 * 256;

const MAP_WORDS: usize = 256;

// The slice of bit b of map word w.
pub fn slice_at(w: usize, b: usize) -> Slice
    requires { (w < 256) × (b < 16) }
    ensures { result.0 ≡ 16 * w + b + 1 }
{
    Slice((16 * w + b + 1) as u16)
}

// Whether slice k is marked free.
pub fn is_free(image: &[u16], k: Slice) -> bool
    requires { (1 ≤ k.0) × (k.0 ≤ 4096) × (2560 ≤ length image.now) }
    ensures { result ≡ eqb (map_bit image.now k.0) 1 }
{
    let k = k.0 as usize - 1;
    numbers::bit(k % 16, image[MAP + k / 16])
}

// A word with bit n made v: what the bit adds to the word is taken off, and v times the bit's word added.
fn with_bit(word: u16, n: usize, v: u16) -> u16
    requires { (n < 16) × (v ≤ 1) }
    ensures { result ≡ with_bit n v word }
{
    let bit = numbers::bit_word(n);
    word - word / bit % 2 * bit + v * bit
}

// Makes slice k's bit v.
fn mark(image: &mut [u16], k: Slice, v: u16)
    requires { (1 ≤ k.0) × (k.0 ≤ 4096) × (2560 ≤ length image.old) × (v ≤ 1) }
    ensures { image.new ≡ marked v image.old k.0 }
{
    let k = k.0 as usize - 1;
    let at = MAP + k / 16;
    image[at] = with_bit(image[at], k % 16, v);
}

// Marks slice k used: its bit becomes 0.
pub fn mark_used(image: &mut [u16], k: Slice)
    requires { (1 ≤ k.0) × (k.0 ≤ 4096) × (2560 ≤ length image.old) }
    ensures { image.new ≡ marked_used image.old k.0 }
{
    mark(image, k, 0);
}

// Marks slice k free: its bit becomes 1.
pub fn mark_free(image: &mut [u16], k: Slice)
    requires { (1 ≤ k.0) × (k.0 ≤ 4096) × (2560 ≤ length image.old) }
    ensures { image.new ≡ marked_free image.old k.0 }
{
    mark(image, k, 1);
}

// The number of slices marked free: the ones of each map word, summed.
pub fn count_free(image: &[u16]) -> u16
    requires { 2560 ≤ length image.now }
    ensures { result ≡ ones_in_map image.now }
{
    let mut free = 0;
    for w in 0..MAP_WORDS {
        free += image[MAP + w].count_ones() as u16;
    }
    free
}

// The lowest slice marked free: word by word, and in a word from its first one on.
pub fn lowest_free(image: &[u16]) -> Option<Slice>
    requires { 2560 ≤ length image.now }
    ensures { Answers image.now (lowest_free (map_bit image.now)) result }
{
    'scan: {
        for w in 0..MAP_WORDS {
            let word = image[MAP + w];
            for b in word.leading_zeros() as usize..16 {
                if word / numbers::bit_word(b) % 2 == 1 {
                    break 'scan Some(slice_at(w, b));
                }
            }
        }
        None
    }
}

// The slice to take for a file whose last slice is `last`, 0 if it has none (the formula's value, `chosen`), in a unit with this number of
// slices.
pub fn choose_slice(image: &[u16], last: Slice, slices: u16) -> Option<Slice>
    requires { (slices ≤ 4096) × (2560 ≤ length image.now) }
    ensures { Answers image.now (chosen (map_bit image.now) slices last.0) result }
{
    if last.0 < slices && is_free(image, Slice(last.0 + 1)) {
        return Some(Slice(last.0 + 1));
    }
    lowest_free(image)
}

// The bits of a word at which n neighbouring ones of the word begin: where `have` ones begin at a bit and at the one `step`
// bits after it, `have + step` ones begin. The number doubles, so that there is no range to go through.
fn beginnings(word: u16, n: usize) -> u16
    requires { (1 ≤ n) × (n ≤ 16) }
    ensures { Beginnings word n result }
{
    let mut found = word;
    let mut have: usize = 1;
    while have < n {
        let step = have.min(n - have);
        found &= found << step;
        have += step;
    }
    found
}

// Where a stretch of n free slices may begin once word w of the map is passed, as the number of slices before it: at
// `start` as before, if it ends in this word or goes on through it; else at the first place where n free slices of the word
// begin; else after the word's last zero. Words of ones and of zeros, the most there are, are told at once.
fn start_past(image: &[u16], w: usize, n: usize, start: usize) -> usize
    requires { (w < 256) × (2560 ≤ length image.now) × (n < 65536) × (16 * w < start + n) × Passed image.now n (16 * w) start }
    ensures { Passed image.now n (16 * w + 16) result }
{
    let word = image[MAP + w];
    if word == 65535 {
        return start;
    }
    if word == 0 {
        return 16 * w + 16;
    }
    let first = (!word).leading_zeros() as usize;
    if start + n <= 16 * w + first {
        return start;
    }
    // A stretch between two zeros of a word has at most 14 slices.
    if n < 15 {
        let b = beginnings(word, n).leading_zeros() as usize;
        if b < 16 {
            return 16 * w + b;
        }
    }
    16 * w + 16 - (!word).trailing_zeros() as usize
}

// The lowest slice at which n neighbouring slices are marked free: one pass over the map's words.
pub fn lowest_stretch(image: &[u16], n: u16) -> Option<Slice>
    requires { (1 ≤ n) × (2560 ≤ length image.now) }
    ensures { FindsStretch image.now n result }
{
    let mut start: usize = 0;
    for w in 0..MAP_WORDS {
        start = start_past(image, w, n as usize, start);
        if start + n as usize <= 16 * w + 16 {
            return Some(slice_at(start / 16, start % 16));
        }
    }
    None
}
