// Whether a unit is sound: the rules of document 01's section 'A sound unit', decided.

#![tactic(auto)]

ghost use Rattle.std.specs.Prelude.{◌≡◌, [], ◌*◌};
ghost use Rattle.disc.specs.Decide.{Decides};
ghost use Rattle.disc.specs.Names.{packed};
ghost use Rattle.disc.specs.Entries.{place_count};
ghost use Rattle.catalog.specs.Catalog.{sys_value};
ghost use Rattle.sound_entries.specs.Sys.{places_in};
ghost use Rattle.sound_names.specs.Scan.{LegalSys};
ghost use Rattle.sound.specs.Sound.{SoundUnit};
ghost use Rattle.kit.specs.Geometry.{UnitOf};
ghost use Rattle.marks.specs.Marked.{Marked};
ghost use Rattle.sound_files.specs.Walk.{SysKnown};
ghost use Rattle.soundness.specs.Areas.{OrdinaryEntered, AreasEntered};
ghost use Rattle.soundness.specs.Layers.{SysMarking, SoundLayers};
ghost use Rattle.soundness.specs.Judged.{Judges};

use catalog::{Catalog, Unit};
use kit::Geometry;
use types::{Name, Sector, State};

// Whether a name is entered in SYS, and not SYS or MAP.
fn name_entered(image: &[u16], g: Geometry, sys: Catalog, name: Name) -> bool
    requires { LegalSys image.now g sys }
    ensures { Decides result (OrdinaryEntered (places_in image.now g) (place_count g.keys sys.layers) (packed name)) }
{
    if name.0 == 0 || names::is_system(name) {
        return false;
    }
    let Some(_) = catalog::find(image, sys, name) else {
        return false;
    };
    true
}

// Whether the names of all open area processes are.
pub fn areas_entered(image: &[u16], g: Geometry, sys: Catalog, state: State) -> bool
    requires { LegalSys image.now g sys }
    ensures { Decides result (AreasEntered state (places_in image.now g) (place_count g.keys sys.layers)) }
{
    for area in &state.areas {
        if state::is_open(*area) && !name_entered(image, g, sys, area.name) {
            return false;
        }
    }
    true
}

// Marks SYS's slices and finds the number of SYS's layers; none if its index or its slices are not those of a sound unit.
fn mark_sys(image: &[u16], g: Geometry, marks: &mut [u8; 4096]) -> Option<u16>
    requires { UnitOf image.now g × Marked g.slices marks.old [] }
    ensures { SysMarking image.now g marks.new result }
{
    let sys = marks::mark_index(image, Sector(6), g, marks)?;
    if sys.start != g.first {
        return None;
    }
    sound_entries::find_layers(image, g)
}

// Whether names, areas, files and map are those of a sound unit with this SYS.
fn layers_sound(
    image: &[u16],
    state: State,
    g: Geometry,
    sys: Catalog,
    marks: &mut [u8; 4096],
) -> bool
    requires { SysKnown image.now g marks.old (g.keys * sys.layers) × (sys ≡ sys_value g.keys sys.layers) }
    ensures { Decides result (SoundLayers image.now state g sys.layers) }
{
    sound_names::names_sound(image, g, sys)
        && areas_entered(image, g, sys, state)
        && sound_files::files_sound(image, state, g, sys, marks)
        && marks::map_agrees(image, marks, g)
}

// Whether image and state are a sound unit. The numbers of one that is need not be read again.
pub fn judge(image: &[u16], state: State) -> Option<Unit>
    ensures { Judges image.now state result }
{
    if !sound_users::users_sound(state) || !kit::kit_sound(image) {
        return None;
    }
    let g = kit::geometry_of(image);
    let mut marks = [0; 4096];
    let Some(layers) = mark_sys(image, g, &mut marks) else {
        return None;
    };
    let sys = catalog::sys(g.keys, layers);
    if !layers_sound(image, state, g, sys, &mut marks) {
        return None;
    }
    Some(Unit {
        slice: g.slice,
        first: g.first,
        slices: g.slices,
        catalog: sys,
    })
}

// The same as a truth value.
pub fn sound(image: &[u16], state: State) -> bool
    ensures { Decides result (SoundUnit image.now state) }
{
    matches!(judge(image, state), Some(_))
}
