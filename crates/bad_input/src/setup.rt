// What a case sets beside the words of the image.

use crate::unit::{Disc, fresh};
use types::{Area, Block, Role, Sector, State, User};

// The state, the unit that Init is asked for, and the number of words that are lent.
#[derive(Clone, Copy)]
pub struct Setup {
    pub state: State,
    pub unit: u16,
    pub count: u16,
}

// The role of a number.
fn role_of(number: u16) -> Role {
    match number {
        0 => Role::Sharing,
        1 => Role::ExclusiveWriter,
        _ => Role::ExclusiveUser,
    }
}

// Sets a number of a user entry.
fn set_user_word(user: &mut User, i: u16, value: u16) {
    match i {
        0 => user.id = value,
        1 => user.role = role_of(value),
        2 => user.opens = value,
        _ => user.position = Block(value),
    }
}

// Sets a number of a descriptor; those from 18 on set nothing.
fn set_area_word(area: &mut Area, i: u16, value: u16) {
    match i {
        0 => area.live = value != 0,
        1 => area.name.0 = value,
        2 => area.name.1 = value,
        3 => area.name.2 = value,
        4 => area.index = Sector(value),
        5 => area.length = value,
        _ => {
            if let Some(user) = area.users.get_mut((i - 6) as usize / 4) {
                set_user_word(user, (i - 6) % 4, value);
            }
        }
    }
}

impl Setup {
    // Unit 0, not initialized and with no area process; all 20 sectors are lent.
    pub fn usual() -> Setup {
        Setup {
            state: types::fresh_state(0),
            unit: 0,
            count: 5120,
        }
    }

    // Sets a number of PLACE 200.
    fn set_number(&mut self, image: &mut Disc, i: u16, value: u16) {
        match i {
            0 => self.state.unit = value,
            1 => self.state.initialized = value != 0,
            2 => self.unit = value,
            3 => self.count = value,
            4 => fresh(image, value, 10),
            5 => image.fill(value),
            7 => fresh(image, 1, value),
            _ => self.state.areas = [self.state.areas[0]; 8],
        }
    }

    // Sets a number of any PLACE; a word that the image does not have is not set.
    pub fn set_word(&mut self, image: &mut Disc, place: u16, i: u16, value: u16) {
        match place {
            0..=99 => {
                if let Some(word) = image.get_mut(place as usize * 256 + i as usize) {
                    *word = value;
                }
            }
            100..=107 => set_area_word(&mut self.state.areas[place as usize - 100], i, value),
            _ => self.set_number(image, i, value),
        }
    }
}
