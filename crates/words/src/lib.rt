// The image's words by sector: read, stored, cleared and copied out.

#![tactic(auto)]

ghost use Rattle.std.specs.Prelude.{◌≡◌, [], ◌∷◌, ◌++◌, ◌+◌, ◌*◌, ◌≤◌, ◌<◌, length, take, drop};
ghost use Rattle.disc.specs.Words.{word};
ghost use Rattle.words.specs.Store.{store, sector_words, zero_words};

use types::Sector;

// Word b of sector q; 0 past the image's end, where the rules read zeros too (`disc/Words` `word`), so that it is no `Option`.
pub fn word(image: &[u16], q: Sector, b: usize) -> u16
    ensures { result ≡ word image.now q.0 b }
{
    let start = q.0 as usize * 256;
    image.get(start.saturating_add(b)).copied().unwrap_or(0)
}

// Stores word b of sector q.
#[tactic(auto, unfolding(crate::specs::Store::store))]
pub fn set_word(image: &mut [u16], q: Sector, b: usize, v: u16)
    requires { q.0 * 256 + b < length image.old }
    ensures { image.new ≡ store image.old (q.0 * 256 + b) (v ∷ []) }
{
    image[q.0 as usize * 256 + b] = v;
}

// Stores zero in `count` words of sector q, from word `from` on.
pub fn clear_words(image: &mut [u16], q: Sector, from: usize, count: usize)
    requires { q.0 * 256 + from + count ≤ length image.old }
    ensures { image.new ≡ store image.old (q.0 * 256 + from) (zero_words count) }
{
    let at = q.0 as usize * 256 + from;
    image[at..at + count].fill(0);
}

// Stores zero in all words of sector q.
#[tactic(auto, using(crate::proofs::StoreLaws::store_start))]
pub fn clear_sector(image: &mut [u16], q: Sector)
    requires { q.0 * 256 + 256 ≤ length image.old }
    ensures { image.new ≡ store image.old (q.0 * 256) (zero_words 256) }
{
    clear_words(image, q, 0, 256);
}

// Stores `count` words of src, from its word `from` on, in dst from its word `at` on.
pub fn copy_words(src: &[u16], from: usize, dst: &mut [u16], at: usize, count: usize)
    requires { (from + count ≤ length src.now) × (at + count ≤ length dst.old) }
    ensures { dst.new ≡ store dst.old at (take count (drop from src.now)) }
{
    // Word by word: `copy_from_slice` calls `memmove`, and the library needs `memcpy` and `memset` only.
    for i in 0..count {
        dst[at + i] = src[from + i];
    }
}

// Hands out `count` words of sector q, from word `from` on, as the first lent words.
pub fn read_words(image: &[u16], q: Sector, from: usize, lent: &mut [u16], count: usize)
    requires { (count ≤ length lent.old) × (q.0 * 256 + from + count ≤ length image.now) }
    ensures { lent.new ≡ store lent.old 0 (take count (drop (q.0 * 256 + from) image.now)) }
{
    copy_words(image, q.0 as usize * 256 + from, lent, 0, count);
}

// Stores the first `count` words of src in sector q, from word `from` on.
pub fn store_words(image: &mut [u16], q: Sector, from: usize, src: &[u16], count: usize)
    requires { (count ≤ length src.now) × (q.0 * 256 + from + count ≤ length image.old) }
    ensures { image.new ≡ store image.old (q.0 * 256 + from) (take count src.now) }
{
    copy_words(src, 0, image, q.0 as usize * 256 + from, count);
}

// Stores the first 256 lent words as sector q.
pub fn store_sector(image: &mut [u16], q: Sector, lent: &[u16])
    requires { (256 ≤ length lent.now) × (q.0 * 256 + 256 ≤ length image.old) }
    ensures { image.new ≡ store image.old (q.0 * 256) (take 256 lent.now) }
{
    copy_words(lent, 0, image, q.0 as usize * 256, 256);
}

// Hands out sector q as the first 256 lent words.
pub fn copy_sector(image: &[u16], q: Sector, lent: &mut [u16])
    requires { (256 ≤ length lent.old) × (q.0 * 256 + 256 ≤ length image.now) }
    ensures { lent.new ≡ sector_words image.now q.0 ++ drop 256 lent.old }
{
    copy_words(image, q.0 as usize * 256, lent, 0, 256);
}
