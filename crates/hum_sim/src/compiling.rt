// From a text to its image.

ghost use Rattle.std.specs.Prelude.{◌≡◌, ◌∷◌, [], None, IfOk, IfErr};
ghost use Rattle.uasm_read.specs.Links.{Linked, link_fault};
ghost use Rattle.hum_core.specs.Programs as programs;
ghost use Rattle.hum_emit.specs.Compiled.{code_places, compiled_module, Placed};
ghost use Rattle.hum_meaning.specs.Scope.{Scoped};
ghost use Rattle.hum_front.specs.Accepted.{Accepted, Fails};
ghost use Rattle.hum_sim.specs.Compiled.{IsCompiled, HoldsItsTree};

use hum_core::Program;
use hum_emit::{PlacedModule, emit_with_places};
use hum_front::{Reading, StartError, read_text};
use hum_match::lower;
use hum_syntax::Tree;
use quad_memory::Image;
use std::alloc::{AllocError as NoMemory, Global};
use std::marker::Model;
use uasm_link::{LinkError, link};

/// What a program's text is compiled to: its tree, its program, the image of the code of that, and the places of the code in the image.
///
/// The tree is that of a text that is accepted, the program is the tree's, the image is what the program's module links to, and the places
/// are those of the module's code.
#[derive(Drop)]
pub struct Compiled {
    tree: Tree,
    program: Program,
    image: Image,
    places: Vec<u32>,
}

impl Model for Compiled {
    ghost use Rattle.std.specs.Prelude.{◌≡◌};
    ghost use Rattle.std.specs.Coded.{codes};
    ghost use Rattle.hum_syntax.specs.contracts.tree.Stmt as stmt;
    ghost use Rattle.hum_core.specs.contracts.tested.TestUnit as unit;
    ghost use Rattle.hum_sim.specs.Compiled.{Compiled as Shown, IsCompiled};
    ghost use Rattle.hum_emit.specs.Compiled.{code_places};

    ghost Value = { Shown };

    ghost coded = { Prim.hlevel (codes, stmt.the_row.coded, unit.the_row.coded) };

    ghost view = { λ c. record { tree = c.tree; units = c.program.units; image = c.image; places = c.places.items } };

    ghost invariant = { λ c. IsCompiled c.tree c.program.units c.image × (c.places.items ≡ code_places c.program.units) };
}

impl Compiled {
    /// The tree.
    pub fn tree(&self) -> &Tree
        ensures { result.now ≡ self.now.tree }
    {
        &self.tree
    }

    /// The program of the tree, with slots for names and tests for patterns.
    pub fn program(&self) -> &Program
        ensures { result.now.units ≡ self.now.units }
    {
        &self.program
    }

    /// The image. It holds the program of the tree.
    pub fn image(&self) -> &Image
        ensures value { result.now ≡ self.now.image }
        ensures compiled { IsCompiled self.now.tree self.now.units self.now.image }
        ensures holds { HoldsItsTree self.now.tree self.now.units self.now.image }
    {
        &self.image
    }

    /// The ROM number of the first instruction of each unit of the program, and behind these that of the routine that applies a behaviour.
    /// That is where the image holds them.
    pub fn places(&self) -> &[u32]
        ensures value { result.now ≡ self.now.places }
        ensures are { self.now.places ≡ code_places self.now.units }
        ensures placed { Placed self.now.units }
    {
        self.places.as_slice()
    }
}

// The image of a tree's program, and the places of its code there. Want of memory is the only error.
fn image_of(alloc: Global, tree: &Tree, program: &Program) -> Result<(Image, Vec<u32>), NoMemory>
    requires scoped { Scoped tree.now.statements }
    requires units { program.now.units ≡ programs.program tree.now.statements }
    requires links { link_fault (compiled_module program.now.units ∷ []) ≡ None }
    ensures linked { IfOk result (λ made. Linked (compiled_module program.now.units ∷ []) made.0.boot made.0.cells) }
    ensures places { IfOk result (λ made. made.1.items ≡ code_places program.now.units) }
{
    let PlacedModule { module, places } = emit_with_places(alloc, program)?;
    let modules = [module];
    match link(alloc, &modules) {
        Ok(image) => Ok((image, places)),
        Err(LinkError::NoMemory) => Err(NoMemory),
        Err(_) => unreachable!(),
    }
}

/// The program of a text that is accepted, and its image; else why the text is refused, and where. All causes come in their order: its
/// length, its tokens, its tree, its names.
///
/// Each text is accepted, with one tree, or refused, in one way, and none is both. A call may answer `NoMemory` whatever the text is, and
/// it takes stack for each level of the tree.
pub fn compile(alloc: Global, bytes: &[u8]) -> Result<Compiled, StartError>
    ensures accepted { IfOk result (λ c. Accepted bytes.now c.tree) }
    ensures fails { IfErr result (Fails bytes.now) }
{
    let Reading { tree, resolved } = match read_text(alloc, bytes) {
        Ok(reading) => reading,
        Err(e) => return Err(e),
    };
    let Ok(program) = lower(alloc, &resolved) else {
        return Err(StartError::NoMemory);
    };
    match image_of(alloc, &tree, &program) {
        Ok((image, places)) => Ok(Compiled {
            tree,
            program,
            image,
            places,
        }),
        Err(_) => Err(StartError::NoMemory),
    }
}
