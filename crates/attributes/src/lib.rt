// The attributes of a file: which a file may have, and what becomes of bit 13, entry only.

#![tactic(auto)]

ghost use Rattle.std.specs.Prelude.{◌≡◌};
ghost use Rattle.disc.specs.Attributes.{legal_attributes, legal_with, entry_only, gives_entry_only};

// Whether a word has no bits but those that a file may have, 1, 11, 12, 13 and 15, and not both 13 and 15.
pub fn legal(a: u16) -> bool
    ensures { result ≡ legal_attributes a }
{
    a & 0x401D == a && !(entry_only(a) && numbers::bit(15, a))
}

// Whether bit 13 is set.
pub fn entry_only(a: u16) -> bool
    ensures { result ≡ entry_only a }
{
    numbers::bit(13, a)
}

// Whether bit 13 may stand beside so many slices.
pub fn legal_with(a: u16, slices: u16) -> bool
    ensures { result ≡ legal_with a slices }
{
    slices == 0 || !entry_only(a)
}

// Whether attributes in a message give bit 13: no message may. Negative ones give nothing.
pub fn gives_entry_only(a: u16) -> bool
    ensures { result ≡ gives_entry_only a }
{
    !numbers::negative(a) && entry_only(a)
}
