// What is known of the open area processes. The ghost fields cannot stand in a file that imports what is said of the struct.

ghost use Rattle.std.specs.Prelude.{◌≤◌, take};
ghost use Rattle.sound_files.specs.Cells.{CellsOf};

use types::Sector;

// What an open area process says of its file.
#[derive(Clone, Copy, Debug, PartialEq, Eq)]
pub struct Live {
    pub index: Sector,
    pub length: u16,
}

// What a descriptor says: the name of its file as one number, 0 if it is not open.
#[derive(Clone, Copy, Debug, PartialEq, Eq)]
pub struct OpenFile {
    pub name: u64,
    pub live: Live,
}

// The open area processes, as they are lent from place to place: the descriptors, of which the first `upto` have to be compared, and
// the cells of their names. Most names have another cell than those few.
#[derive(Clone, Copy)]
pub struct OpenFiles {
    pub list: [OpenFile; 8],
    pub upto: usize,
    pub cells: [u8; 256],
    ghost few: { upto ≤ 8 },
    ghost filled: { CellsOf (take upto list) cells },
}
