// The unit that the cases damage: N = 20, F = 10, s = 2, so five slices of two sectors, and H = 1.

ghost use Rattle.std.specs.Prelude.{◌+◌, ◌≤◌};

// The image, with one sector more than the unit has.
pub type Disc = [u16; 5376];

// Writes ten words.
fn store(image: &mut Disc, at: usize, words: &[u16; 10])
    requires { at + 10 ≤ 5376 }
{
    image[at..at + 10].copy_from_slice(words);
}

// A fresh unit with H = `keys` and F = `first`, on the first 20 sectors; Format refuses an F from 20 on.
pub fn fresh(image: &mut Disc, keys: u16, first: u16) {
    let free = 20u16.wrapping_sub(first);
    let lent = [0, keys, 2, 20, free, first, 20, 0, 0];
    image.fill(0);
    let _ = format::format(&mut image[..5120], types::fresh_state(0), 18, &lent);
}

// A unit with 'PASS', extendable, of length 2 in slices 2 and 3, and 'DAY' of length 1 in slice 4, in places 2 and 3; slice 5 is
// free.
pub fn build(image: &mut Disc) {
    fresh(image, 1, 10);
    store(
        image,
        10 * 256 + 32,
        &[0x5041, 0x5353, 0, 0, 0, 0, 1, 2, 12, 4],
    );
    store(
        image,
        10 * 256 + 48,
        &[0x4441, 0x5900, 0, 0, 0, 0, 0, 1, 16, 2],
    );
    store(image, 12 * 256, &[1, 4, 12, 0, 0, 0, 0, 0, 0, 0]);
    store(image, 16 * 256, &[1, 2, 16, 0, 0, 0, 0, 0, 0, 0]);
    image[9 * 256] = 0x0800;
    image[8 * 256 + 3] = 2;
}
