// The kit, sector 8 of the image: the unit's numbers, their limits, and those rules of a sound unit that read no file.

#![tactic(auto)]

ghost use Rattle.std.specs.Prelude.{◌≡◌, [], ◌∷◌, ◌≤◌, length};
ghost use Rattle.disc.specs.Decide.{Decides};
ghost use Rattle.disc.specs.Numbers.{slice_count};
ghost use Rattle.disc.specs.Words.{Holds};
ghost use Rattle.disc.specs.Kit.{Limits};
ghost use Rattle.kit.specs.Geometry.{GeometryOf, SoundByKit};

use types::Sector;

// The unit's numbers: H, s, F, N and M of document 01.
#[derive(Clone, Copy)]
pub struct Geometry {
    pub keys: u16,
    pub slice: u16,
    pub first: Sector,
    pub sectors: u16,
    pub slices: u16,
}

// The image's index of the first word of MAP's index block, and of the kit.
const MAP_INDEX: usize = 7 * 256;

const KIT: usize = 8 * 256;

// The number of slices, (N - F) / s; 0 where no slice has a sector or no sector is left, which is the formula's
// value (`slice_count`).
fn slice_count(slice: u16, first: Sector, sectors: u16) -> u16
    ensures { result ≡ slice_count slice first.0 sectors }
{
    sectors
        .saturating_sub(first.0)
        .checked_div(slice)
        .unwrap_or(0)
}

// The numbers in the kit of any image; words past the image's end are 0.
pub fn geometry_of(image: &[u16]) -> Geometry
    ensures { GeometryOf image.now result }
{
    let slice = words::word(image, Sector(8), 1);
    let first = Sector(words::word(image, Sector(8), 4));
    let sectors = words::word(image, Sector(8), 2);
    Geometry {
        keys: words::word(image, Sector(8), 0),
        slice,
        first,
        sectors,
        slices: slice_count(slice, first, sectors),
    }
}

// Whether the numbers are within the limits of a unit. H / s rounded up is at most M where H is at most N - F.
pub fn within_limits(keys: u16, slice: u16, first: Sector, sectors: u16) -> bool
    ensures { Decides result (Limits keys slice first.0 sectors) }
{
    let data = sectors.saturating_sub(first.0);
    (1..=64).contains(&keys)
        && (2..=64).contains(&slice)
        && (10..sectors).contains(&first.0)
        && sectors <= 32767
        && data % slice == 0
        && data / slice <= 4096
        && keys <= data
}

// Whether MAP's index block says 1, 1, 9.
fn map_index(image: &[u16]) -> bool
    requires { 2048 ≤ length image.now }
    ensures { Decides result (Holds image.now 7 (1 ∷ 1 ∷ 9 ∷ [])) }
{
    image[MAP_INDEX..MAP_INDEX + 3] == [1, 1, 9]
}

// Whether image length, kit, limits, free sectors and MAP's index are those of a sound unit.
pub fn kit_sound(image: &[u16]) -> bool
    ensures { Decides result (SoundByKit image.now) }
{
    let g = geometry_of(image);
    within_limits(g.keys, g.slice, g.first, g.sectors)
        && image.len() == g.sectors as usize * 256
        && image[KIT + 5] == g.sectors
        && map_index(image)
        && image[KIT + 3] as u32 == g.slice as u32 * map::count_free(image) as u32
}
