// Names: their number, the five characters and the unit character, legal names, SYS and MAP. Names are compared here.

#![tactic(auto)]

ghost use Rattle.std.specs.Prelude.{◌≡◌, ◌||◌, ◌==◌, drop, eqb};
ghost use Rattle.std.specs.List.{list_all, prefix_len};
ghost use Rattle.disc.specs.Names.{packed, letter, digit, rest_legal, legal_name, named, unit_in, SYS, MAP, is_system};
ghost use Rattle.names.specs.NameIs.{NameIs};
ghost use Rattle.names.specs.Classes.{ClassesOf};

use types::Name;

// 'SYS' and 'MAP' as numbers.
const SYS_NUMBER: u64 = 0x5359_5300_0000;

const MAP_NUMBER: u64 = 0x4D41_5000_0000;

// 'SYS'.
pub fn sys_name() -> Name
    ensures { NameIs result SYS }
{
    Name(0x5359, 0x5300, 0)
}

// 'MAP'.
pub fn map_name() -> Name
    ensures { NameIs result MAP }
{
    Name(0x4D41, 0x5000, 0)
}

// The three words as one number, the first word highest.
pub fn packed(name: Name) -> u64
    ensures { result ≡ packed name }
{
    (name.0 as u64 * 65536 + name.1 as u64) * 65536 + name.2 as u64
}

// Whether two names have the same words.
pub fn same_name(a: Name, b: Name) -> bool
    ensures { result ≡ eqb (packed a) (packed b) }
{
    packed(a) == packed(b)
}

// Whether a name is 'SYS' or 'MAP'.
pub fn is_system(name: Name) -> bool
    ensures { result ≡ is_system (packed name) }
{
    is_system_number(packed(name))
}

// The name that three words mean, as it is stored: the five characters as given, the sixth 0.
pub fn stored(name: Name) -> Name
    ensures { NameIs result (named name) }
{
    Name(name.0, name.1, name.2 / 256 * 256)
}

// The unit number in a message's name.
pub fn unit_of(name: Name) -> u16
    ensures { result ≡ unit_in name }
{
    name.2 % 256
}

// Whether a character is a letter, capital or small.
pub fn is_letter(c: u16) -> bool
    ensures { result ≡ letter c }
{
    matches!(c, 65..=90 | 97..=122)
}

// Whether a character is a letter or a digit.
pub fn is_letter_or_digit(c: u16) -> bool
    ensures { result ≡ letter c || digit c }
{
    is_letter(c) || matches!(c, 48..=57)
}

// Whether characters are letters or digits, then zeros.
fn rest_legal(characters: &[u16]) -> bool
    ensures { result ≡ list_all (λ x. x == 0) (drop (prefix_len (λ x. letter x || digit x) characters.now) characters.now) }
{
    characters
        .iter()
        .skip_while(|c| is_letter_or_digit(**c))
        .all(|c| *c == 0)
}

// Whether a name is legal: a letter, letters or digits, then zeros to the sixth character.
pub fn legal(name: Name) -> bool
    ensures { result ≡ legal_name (packed name) }
{
    let rest = [name.0 % 256, name.1 / 256, name.1 % 256, name.2 / 256];
    is_letter(name.0 / 256) && rest_legal(&rest) && name.2 % 256 == 0
}

// The classes of all characters, to be filled once and lent while many names are judged.
pub fn classes() -> [u8; 256]
    ensures { ClassesOf result }
{
    let mut table = [2u8; 256];
    table[0] = 0;
    table[48..=57].fill(1);
    table[65..=90].fill(1);
    table[97..=122].fill(1);
    table
}

// As `legal`, by the classes of the characters: no class is above the one before it, and the first character, of class 1, is no digit.
// No test goes another way in one legal name than in the next, so that a processor guesses each of them rightly.
pub fn legal_by(name: Name, table: &[u8; 256]) -> bool
    requires { ClassesOf table.now }
    ensures { result ≡ legal_name (packed name) }
{
    let initial = name.0 / 256;
    let first = table[initial as usize];
    let second = table[(name.0 % 256) as usize];
    let third = table[(name.1 / 256) as usize];
    let fourth = table[(name.1 % 256) as usize];
    let fifth = table[(name.2 / 256) as usize];
    initial >= 65
        && first <= 1
        && second <= 1
        && third <= second
        && fourth <= third
        && fifth <= fourth
        && name.2 % 256 == 0
}

// Whether the number of a name is that of 'SYS' or 'MAP'.
pub fn is_system_number(n: u64) -> bool
    ensures { result ≡ is_system n }
{
    matches!(n, SYS_NUMBER | MAP_NUMBER)
}

// Whether two names are the same, by their numbers. `==` says no more, but names are compared in this crate alone (docs/DECISIONS.md, 110).
pub fn same_number(a: u64, b: u64) -> bool
    ensures { result ≡ eqb a b }
{
    a == b
}

// The first words of 'SYS' and 'MAP'.
const SYS_FIRST: u16 = 0x5359;

const MAP_FIRST: u16 = 0x4D41;

// Whether a name begins with the first word of 'SYS' or 'MAP', as few other names do.
pub fn begins_as_system(name: Name) -> bool
    ensures { result ≡ eqb name.0 0x5359 || eqb name.0 0x4D41 }
{
    matches!(name.0, SYS_FIRST | MAP_FIRST)
}
