// The bits of a word and the formulas of the disc's layout: slices, sectors, the slices a file needs, the key of a name.

#![tactic(auto)]

ghost use Rattle.std.specs.Prelude.{◌≡◌, ℕ, ◌+◌, ◌-◌, ◌*◌, ◌/◌, ◌%◌, ◌<◌, ◌≤◌, ◌==◌};
ghost use Rattle.disc.specs.Decide.{Decides};
ghost use Rattle.disc.specs.Numbers.{bit_word, bit, negative, ceil_div, need, slice_start};
ghost use Rattle.disc.specs.Names.{packed, key_of};

use types::{Block, Name, Sector, Slice};

// The word that has bit n alone: 2 to the power 15 - n.
pub fn bit_word(n: usize) -> u16
    requires { n < 16 }
    ensures { result ≡ bit_word n }
{
    1u16 << (15 - n)
}

// Whether bit n of a word is set; bit 0 is the highest.
pub fn bit(n: usize, w: u16) -> bool
    requires { n < 16 }
    ensures { result ≡ bit n w }
{
    w & bit_word(n) != 0
}

// Whether bit 0 of a word is set.
pub fn negative(w: u16) -> bool
    ensures { result ≡ negative w }
{
    w >= 0x8000
}

// A quotient rounded up.
pub fn ceil_div(a: u32, b: u32) -> u32
    requires { 1 ≤ b }
    ensures { result ≡ ceil_div a b }
{
    a.div_ceil(b)
}

// The slices, of s sectors each, that n sectors and the index block need: (n + 1) / s rounded up is n / s + 1.
pub fn need(s: u16, n: u16) -> u16
    requires { 2 ≤ s }
    ensures { result ≡ need s n }
{
    if n == 0 { 0 } else { n / s + 1 }
}

// Whether so many slices, of s sectors each, are enough for n sectors and the index block.
pub fn covered(s: u16, n: u16, slices: u16) -> bool
    requires { 1 ≤ s }
    ensures { Decides result (need s n ≤ slices) }
{
    n == 0 || n as u32 + 1 <= slices as u32 * s as u32
}

// The first sector of slice k, where the data begin at sector `first`.
pub fn slice_start(first: Sector, s: u16, k: Slice) -> Sector
    requires { (1 ≤ k.0) × (slice_start first.0 s k.0 < 65536) }
    ensures { result.0 ≡ slice_start first.0 s k.0 }
{
    Sector(first.0 + (k.0 - 1) * s)
}

// The slice of sector q, where the data begin at sector `first`.
pub fn slice_of(first: Sector, s: u16, q: Sector) -> Slice
    requires { (2 ≤ s) × (first.0 ≤ q.0) }
    ensures { result.0 ≡ (q.0 - first.0) / s + 1 }
{
    Slice((q.0 - first.0) / s + 1)
}

// Whether slice k starts at sector q: a quotient multiplied back tells whether there is a remainder.
pub fn starts_at(first: Sector, s: u16, k: Slice, q: Sector) -> bool
    requires { (1 ≤ k.0) × (first.0 ≤ q.0) }
    ensures { Decides result (q.0 ≡ slice_start first.0 s k.0) }
{
    (k.0 - 1) as u32 * s as u32 == (q.0 - first.0) as u32
}

// What a number of sectors is multiplied by, and the product divided by 65,536, in place of a division by the s sectors of a slice.
pub fn reciprocal(s: u16) -> u32
    requires { 2 ≤ s }
    ensures { (result ≡ 65536 / s + 1) × (result ≤ 32769) }
{
    65536 / s as u32 + 1
}

// The slices that n sectors are, by the reciprocal of a slice's sectors: their number where there is no remainder. Where there is one,
// the answer multiplied back is not n.
pub fn slices_by(n: u16, reciprocal: u32) -> u16
    requires { reciprocal ≤ 32769 }
    ensures exactly { (result ≡ n * reciprocal / 65536) × (result ≤ 32768) }
    ensures whole { (s c : ℕ) → 2 ≤ s → reciprocal ≡ 65536 / s + 1 → n ≡ c * s → result ≡ c }
{
    (n as u32 * reciprocal / 65536) as u16
}

// The slice that starts at sector q, by the reciprocal of a slice's sectors. Where none does, `starts_at` denies it of the answer.
pub fn slice_by(first: Sector, q: Sector, reciprocal: u32) -> Slice
    requires { (first.0 ≤ q.0) × (reciprocal ≤ 32769) }
    ensures exactly { (result.0 ≡ (q.0 - first.0) * reciprocal / 65536 + 1) × (result.0 ≤ 32769) }
    ensures starts { (s k : ℕ) → 2 ≤ s → reciprocal ≡ 65536 / s + 1 → 1 ≤ k → q.0 ≡ slice_start first.0 s k → result.0 ≡ k }
{
    Slice(slices_by(q.0 - first.0, reciprocal) + 1)
}

// The slice of any sector q: one below `first` is taken for `first`.
pub fn slice_from(first: Sector, s: u16, q: Sector) -> Slice
    requires { 2 ≤ s }
    ensures { result.0 ≡ (q.0 - first.0) / s + 1 }
{
    Slice(q.0.saturating_sub(first.0) / s + 1)
}

// The last slice of a stretch of `length` sectors from sector q on: as many as before the slice of q, and those of the stretch.
pub fn last_slice_of(first: Sector, s: u16, q: Sector, length: u16) -> Slice
    requires { 2 ≤ s }
    ensures { result.0 ≡ (q.0 - first.0) / s + length / s }
{
    Slice(q.0.saturating_sub(first.0) / s + length / s)
}

// Whether slice k starts where a stretch of `length` sectors from sector q on ends.
pub fn follows(first: Sector, s: u16, q: Sector, length: u16, k: Slice) -> bool
    requires { 1 ≤ k.0 }
    ensures { result ≡ (q.0 + length == slice_start first.0 s k.0) }
{
    q.0 as u32 + length as u32 == first.0 as u32 + (k.0 - 1) as u32 * s as u32
}

// The sector that comes n sectors after sector q; sector numbers are words.
pub fn sector_after(q: Sector, n: u16) -> Sector
    ensures { result.0 ≡ (q.0 + n) % 65536 }
{
    Sector(q.0.wrapping_add(n))
}

// Block b as a sector of the joined stretches, where the file's blocks begin with joined sector `from`: block b is sector b + 1 of
// them, and sector b for SYS and MAP.
pub fn joined_of(from: u16, b: Block) -> u32
    ensures { result ≡ b.0 + from }
{
    b.0 as u32 + from as u32
}

// A key's sector of a layer, as a sector of the joined stretches, where the catalog begins with joined sector `from`: key k lives
// in the catalog's sectors k, k + h, k + 2h and so on.
pub fn key_joined(from: u16, h: u16, key: u16, layer: u16) -> u32
    ensures { result ≡ h * layer + key + from }
{
    h as u32 * layer as u32 + key as u32 + from as u32
}

// The key of a name: the sum of its three words, carry out of 16 bits dropped, modulo h.
pub fn key(name: Name, h: u16) -> u16
    requires { 1 ≤ h }
    ensures { result ≡ key_of h (packed name) }
{
    name.0.wrapping_add(name.1).wrapping_add(name.2) % h
}
