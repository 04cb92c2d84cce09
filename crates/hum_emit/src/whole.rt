// The emission of whole programs.

ghost use Rattle.std.specs.Prelude.{◌≡◌, ◌<◌, ◌^◌, map, slice_index, OnOk, IfOk};
ghost use Rattle.hum_emit.specs.Compiled.{code_places, compiled, compiled_module};
ghost use Rattle.hum_emit.specs.Emitting.{emitted, with_cells};
ghost use Rattle.hum_emit.specs.Program as spec;
ghost use Rattle.hum_emit.specs.Rowing.{shape_at};
ghost use Rattle.hum_emit.specs.Runtime.{apply_place, routine_places};
ghost use Rattle.hum_emit.specs.Shapes as shaped;
ghost use Rattle.hum_emit.specs.Templates.{push_data, boot_code, units_code};

use crate::emitter::{Emitter, FUNCTION_TYPE, NIL, operand};
use crate::instruction::{Datum, Field, Instruction};
use crate::module::module_of;
use crate::places::rom_numbers;
use crate::routines::Routines;
use crate::runtime::fixed_code;
use crate::shape::Shape;
use crate::shapes::{Shapes, shapes_of};
use crate::statements::unit;
use hum_core::{Program, TestUnit};
use std::alloc::{AllocError as NoMemory, Global};
use uasm_read::Module;

/// What is emitted of a program, the number of the instruction that applies behaviours, and those of its units' first instructions.
#[derive(Drop)]
struct Emission {
    apply: u32,
    code: Vec<Instruction>,
    cells: Vec<Datum>,
    entries: Vec<u32>,
}

// The units from the last to the first, each in its shape; and the numbers of their first instructions.
fn units<'a>(
    alloc: Global,
    out: &mut Emitter<'a>,
    routines: &Routines,
    shapes: &Shapes<'a>,
    units: &'a [TestUnit],
) -> Result<Vec<u32>, NoMemory>
    requires { map (shape_at shapes.now.rows) shapes.now.tops.items ≡ shaped.shapes_of units.now }
    ensures { IfOk result (λ entries. (emitted out.new, entries.items) ≡ units_code units.now (shaped.shapes_of units.now) (emitted out.old)) }
{
    let count = units.len();
    let mut entries = Vec::new(alloc);
    let mut shape = Shape::new(alloc);
    for i in 0..count {
        shapes.fill(alloc, count - 1 - i, &mut shape)?;
        entries.push(unit(out, routines, &mut shape, &units[count - 1 - i])?)?;
    }
    entries.reverse();
    Ok(entries)
}

// The cells of the built-in functions.
fn routine_cells(out: &mut Emitter<'_>, routines: &Routines) -> Result<(), NoMemory>
    ensures { OnOk result (emitted out.new ≡ with_cells (spec.routine_cells 0 routine_places) (emitted out.old)) }
{
    for i in 0..12 {
        let number = operand(i)?;
        out.datum(Datum {
            kind: FUNCTION_TYPE,
            first: Field::Place(routines.built_ins[i]),
            second: number,
        })?;
    }
    Ok(())
}

// The cells of the built-in functions are put on the stack, the newest entry last.
fn functions(out: &mut Emitter<'_>, k: u32) -> Result<u32, NoMemory>
    ensures { IfOk result (λ at. (emitted out.new, at) ≡ push_data 0 12 k (emitted out.old)) }
{
    let mut at = k;
    for i in 0..12 {
        at = out.push(Field::Data(11 - i), at)?;
    }
    Ok(at)
}

// The code of the first event: the outermost environment is put on the stack, and unit 0 runs in it.
fn boot(out: &mut Emitter<'_>, routines: &Routines, k: u32) -> Result<u32, NoMemory>
    ensures { IfOk result (λ at. (emitted out.new, at) ≡ boot_code k (emitted out.old)) }
{
    let k = out.pair(14, k)?;
    let k = out.state(2, k)?;
    let k = out.state(1, k)?;
    let k = functions(out, k)?;
    let k = out.push(NIL, k)?;
    out.push(Field::Place(routines.end), k)
}

// The first instruction of unit 0.
fn first_of(entries: &[u32]) -> u32
    ensures { result ≡ slice_index entries.now 0 }
{
    match entries {
        [entry, ..] => *entry,
        _ => 0,
    }
}

// The emission of a program.
fn emission_of(alloc: Global, program: &[TestUnit]) -> Result<Emission, NoMemory>
    ensures apply { IfOk result (λ made. made.apply ≡ apply_place) }
    ensures code { IfOk result (λ made. made.code.items ≡ (compiled program.now).0.code) }
    ensures cells { IfOk result (λ made. made.cells.items ≡ (compiled program.now).0.cells) }
    ensures entries { IfOk result (λ made. made.entries.items ≡ (compiled program.now).1) }
{
    let (mut out, routines) = fixed_code(alloc)?;
    routine_cells(&mut out, &routines)?;
    let shapes = shapes_of(alloc, program)?;
    let entries = units(alloc, &mut out, &routines, &shapes, program)?;
    boot(&mut out, &routines, first_of(entries.as_slice()))?;
    let (code, cells) = out.parts();
    Ok(Emission {
        apply: routines.apply,
        code,
        cells,
        entries,
    })
}

// There is a number for each of so many.
fn few(count: usize) -> Result<(), NoMemory>
    ensures { OnOk result (count < 2 ^ 32) }
{
    if count > u32::MAX as usize {
        return Err(NoMemory);
    }
    Ok(())
}

/// The module of a program, and where the code of its units stands in the image that the module links to.
#[derive(Drop)]
pub struct PlacedModule {
    pub module: Module,
    /// The ROM numbers of the units' first instructions, and then that of the routine that applies a behaviour.
    pub places: Vec<u32>,
}

/// The module of a program, whose image holds the program: `compiled_images_hold_their_programs`; and the places of its code there:
/// `code_places_stand`. Only want of memory is an error, which 2^32 instructions, data or places are too. Expressions may be of any depth,
/// and the call takes stack for each level of them.
pub fn emit_with_places(alloc: Global, program: &Program) -> Result<PlacedModule, NoMemory>
    requires { shaped.ShapesFit program.now.units (shaped.shapes_of program.now.units) }
    ensures module { IfOk result (λ made. made.module ≡ compiled_module program.now.units) }
    ensures places { IfOk result (λ made. made.places.items ≡ code_places program.now.units) }
{
    let emission = emission_of(alloc, program.units.as_slice())?;
    let code = emission.code.as_slice();
    let cells = emission.cells.as_slice();
    let entries = emission.entries.as_slice();
    few(code.len())?;
    few(cells.len())?;
    let module = module_of(alloc, emission.apply, code, cells, entries)?;
    let places = rom_numbers(alloc, code.len(), entries, emission.apply)?;
    Ok(PlacedModule { module, places })
}

/// The module of a program alone, as `emit_with_places` makes it.
pub fn emit(alloc: Global, program: &Program) -> Result<Module, NoMemory>
    requires { shaped.ShapesFit program.now.units (shaped.shapes_of program.now.units) }
    ensures { IfOk result (λ made. made ≡ compiled_module program.now.units) }
{
    let PlacedModule { module, .. } = emit_with_places(alloc, program)?;
    Ok(module)
}
