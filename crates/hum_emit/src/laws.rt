//! What is so of emitted code.

ghost use Rattle.hum_emit.specs.Compiled.{CodePlacesStand, CompiledImagesHold, LabelsArePlaces};
ghost use Rattle.hum_emit.specs.Laws.{LinkedHolds, EmittedCodeStands, ShapesOfProgramsFit, EmissionsAreMade};
ghost use Rattle.hum_emit.specs.Size.{EmissionsAreSmall, ModulesAreSmall, ProgramsLink};

/// A store with the cells that the module of an emission links to holds each instruction and each datum at its place, and the boot word
/// is the place of the instruction that was made last.
pub fn linked_holds()
    ensures { LinkedHolds }
{}

/// What is emitted of a program's units stands for them in each store that holds it, where the shapes of their places fit: so it does what
/// the program means, by the laws of `hum_code`.
pub fn emitted_code_stands()
    ensures { EmittedCodeStands }
{}

/// The units of a formed file in which no name is refused fit in the shapes of their places: the units in a unit have the shapes of their
/// places and are of the kind that is meant, each use of a name finds its entry, numbers are fixnums, and there are at most as many bindings
/// as may be.
pub fn shapes_of_programs_fit()
    ensures { ShapesOfProgramsFit }
{}

/// What is emitted of a program's units is well made: each word names an instruction, a unit or a datum that is there.
pub fn emissions_are_made()
    ensures { EmissionsAreMade }
{}

/// The image that a program's module links to holds the program: in each store with its cells the code stands for the program, which does
/// what the program means by the laws of `hum_code`; the boot word is the place of the first event's code, which runs the file; and each cell
/// that spells an operation spells one of programs, none of dictionaries, deques or sponsors, and of those of actors only to send, to create
/// and to become.
pub fn compiled_images_hold_their_programs()
    ensures { CompiledImagesHold }
{}

/// What is emitted of a program has at most 16 items for each part of the program, and 4,080 more.
pub fn emissions_are_small()
    ensures { EmissionsAreSmall }
{}

/// The module of a file that tokens spell has at most 64 items for each unit of their weight, and 4,096 more.
pub fn modules_are_small()
    ensures { ModulesAreSmall }
{}

/// The module of each file whose tokens are not heavier than those of a text may be links, and there are fewer than 2^32 instructions and
/// fewer than 2^32 data.
pub fn programs_link()
    ensures { ProgramsLink }
{}

/// The labels `boot`, `apply` and `uK` of the module of a program name the first event's code, the code that applies a behaviour, and unit K's.
pub fn labels_are_places()
    ensures { LabelsArePlaces }
{}

/// The places of the code of a program say where it stands in the image: one for each unit, and behind them that of the code that applies a
/// behaviour.
pub fn code_places_stand()
    ensures { CodePlacesStand }
{}
