// Images: a ROM and where to boot.

ghost use Rattle.std.specs.Prelude.{◌≡◌, ◌^◌, ◌<◌, if◌then◌else◌, IsTrue, Some, None, length};
ghost use Rattle.std.specs.List.{list_all};
ghost use Rattle.quad_memory.specs.Image.{is_image, is_cell_count, is_boot_word, is_rom_word, is_rom_quad};

use cap_words::{Kind, Quad, Word};
use std::marker::Model;

/// A ROM of 1 to 1,048,560 cells with its boot word.
///
/// The cells have the numbers from 16 on. The boot word names one of them, and each word of a cell is a fixnum, a constant, or names
/// one of them.
#[derive(Drop)]
pub struct Image {
    boot: Word,
    cells: Vec<Quad>,
}

impl Model for Image {
    ghost use Rattle.std.specs.Prelude.{IsTrue};
    ghost use Rattle.quad_memory.specs.Image.{RomImage, is_image};

    ghost Value = { RomImage };

    ghost view = { λ i. record { boot = i.boot; cells = i.cells.items } };

    ghost invariant = { λ i. IsTrue (is_image i.boot i.cells.items) };
}

impl Image {
    /// The image of these cells, or None where they or the boot word break a rule.
    pub fn new(boot: Word, cells: Vec<Quad>) -> Option<Image>
        ensures { result ≡ (if is_image boot cells.items then Some (record { boot = boot; cells = cells.items }) else None) }
    {
        if is_image(boot, &cells) {
            Some(Image { boot, cells })
        } else {
            None
        }
    }

    /// The word of the cell that boot begins with.
    pub fn boot(&self) -> Word
        ensures value { result ≡ self.now.boot }
        ensures is_image { IsTrue (is_image result self.now.cells) }
    {
        self.boot
    }

    /// The cells, from number 16 on.
    pub fn cells(&self) -> &[Quad]
        ensures value { result.now ≡ self.now.cells }
        ensures is_image { IsTrue (is_image self.now.boot result.now) }
    {
        &self.cells
    }
}

fn is_image(boot: Word, cells: &[Quad]) -> bool
    ensures { result ≡ is_image boot cells.now }
{
    let count = cells.len();
    is_cell_count(count) && is_boot_word(count, boot) && are_rom_quads(count, cells)
}

fn is_cell_count(count: usize) -> bool
    ensures { result ≡ is_cell_count count }
{
    count >= 1 && count <= 1_048_560
}

fn is_boot_word(count: usize, w: Word) -> bool
    requires { count < 2 ^ 32 }
    ensures { result ≡ is_boot_word count w }
{
    w.kind() == Kind::Rom && is_rom_word(count, w)
}

fn are_rom_quads(count: usize, cells: &[Quad]) -> bool
    requires { count < 2 ^ 32 }
    ensures { result ≡ list_all (is_rom_quad count) cells.now }
{
    cells.iter().all(|cell| is_rom_quad(count, cell))
}

fn is_rom_quad(count: usize, q: &Quad) -> bool
    requires { count < 2 ^ 32 }
    ensures { result ≡ is_rom_quad count q.now }
{
    is_rom_word(count, q.t)
        && is_rom_word(count, q.x)
        && is_rom_word(count, q.y)
        && is_rom_word(count, q.z)
}

fn is_rom_word(count: usize, w: Word) -> bool
    requires { count < 2 ^ 32 }
    ensures { result ≡ is_rom_word count w }
{
    match (w.kind(), w.place()) {
        (Kind::Fix, _) => true,
        (Kind::Const | Kind::Rom, Some(n)) => (n as usize) < 16 + count,
        _ => false,
    }
}
