//! From an image to its bytes.

ghost use Rattle.std.specs.Prelude.{◌≡◌, ◌++◌, IsTrue, true, IfOk, OnOk};
ghost use Rattle.uasm_image.specs.Spelled as spelling;
ghost use Rattle.uasm_image.specs.Spelled.{spelled, is_exact, is_exact_quad, IsImage};

use cap_words::{Quad, Word};
use quad_memory::{Image, NoMemory};
use std::alloc::Global;

/// The bytes of an image: `UFQ1`, the count of cells, the boot word, and the four words of each cell, each number in 32 bits with its
/// lowest byte first.
///
/// `decode` reads these bytes as the image.
pub fn encode(alloc: Global, image: &Image) -> Result<Vec<u8>, NoMemory>
    ensures bytes { IfOk result (λ bytes. bytes.items ≡ spelled image.now) }
    ensures image { IfOk result (λ _. IsImage image.now) }
{
    let cells = image.cells();
    let mut bytes = Vec::with_capacity(alloc, 12 + 16 * cells.len())?;
    bytes.extend_from_slice(b"UFQ1")?;
    bytes.extend_from_slice(&(cells.len() as u32).to_le_bytes())?;
    push_word(&mut bytes, image.boot())?;
    for cell in cells {
        push_cell(&mut bytes, cell)?;
    }
    Ok(bytes)
}

fn push_cell(bytes: &mut Vec<u8>, q: &Quad) -> Result<(), NoMemory>
    ensures pushed { OnOk result (bytes.new.items ≡ bytes.old.items ++ spelling.cell q.now) }
    ensures exact { IsTrue (is_exact_quad q.now) }
{
    prove!(has_exact_words(q));
    push_word(bytes, q.t)?;
    push_word(bytes, q.x)?;
    push_word(bytes, q.y)?;
    push_word(bytes, q.z)
}

fn push_word(bytes: &mut Vec<u8>, w: Word) -> Result<(), NoMemory>
    ensures { OnOk result (bytes.new.items ≡ bytes.old.items ++ spelling.word w) }
{
    bytes.extend_from_slice(&w.bits().to_le_bytes())
}

/// Whether each word of a cell that is a number is in range, as it always is.
pub fn has_exact_words(q: &Quad) -> bool
    ensures value { result ≡ is_exact_quad q.now }
    ensures holds { result ≡ true }
{
    is_in_range(q.t) && is_in_range(q.x) && is_in_range(q.y) && is_in_range(q.z)
}

// Each word that is a number is in range.
fn is_in_range(w: Word) -> bool
    ensures value { result ≡ is_exact w }
    ensures holds { result ≡ true }
{
    match w.number() {
        Some(n) => n >= -0x4000_0000 && n <= 0x3FFF_FFFF,
        None => true,
    }
}
