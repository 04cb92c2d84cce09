//! From bytes to the image whose bytes they are.

ghost use Rattle.std.specs.Prelude.{◌≡◌, ◌≤◌, ◌<◌, ◌^◌, ℕ, IsTrue, length, IfOk, Err, ◌⊎◌, MatchResult};
ghost use Rattle.cap_words.specs.Words.{W};
ghost use Rattle.quad_memory.specs.Image as rule;
ghost use Rattle.quad_memory.specs.Image.{RomImage};
ghost use Rattle.uasm_image.specs.Spelled.{spelled, IsImage};
ghost use Rattle.uasm_image.specs.Reading as reading;
ghost use Rattle.uasm_image.specs.Reading.{Gives};
ghost use Rattle.uasm_image.specs.Refused.{IsRefusedAt};

use crate::error::{DecodeError, ImageCause, ImageRefused};
use cap_words::{Quad, Word};
use quad_memory::Image;
use std::alloc::Global;

const MAGIC: &[u8] = b"UFQ1";

/// The image whose bytes these are: `UFQ1`, the count of cells, the boot word, and the four words of each cell, each number in 32 bits
/// with its lowest byte first.
///
/// Bytes that are no image's have one fault, and are refused where it is. Any call may answer `NoMemory`.
pub fn decode(alloc: Global, bytes: &[u8]) -> Result<Image, DecodeError>
    ensures image { IfOk result (λ i. IsImage i × (bytes.now ≡ spelled i)) }

    // The bytes of an image are refused for want of memory alone.
    ensures only { (i : RomImage) → IsImage i → bytes.now ≡ spelled i → MatchResult result (λ found. found ≡ i) (λ e. e ≡ DecodeError.NoMemory) }
    ensures refused { (at : ℕ) (cause : ImageCause) →
        result ≡ Err (DecodeError.Refused (record { at = at; cause = cause })) → IsRefusedAt bytes.now at cause }

    // Bytes that have a fault are refused for it, or for want of memory.
    ensures faulty { (at : ℕ) (cause : ImageCause) → IsRefusedAt bytes.now at cause →
        MatchResult result (λ _. ⊥) (λ e. (e ≡ DecodeError.NoMemory) ⊎ (e ≡ DecodeError.Refused (record { at = at; cause = cause }))) }
    ensures exact { Gives (λ i. i) result (reading.read bytes.now) }
{
    image_of(alloc, bytes)
}

// The image, or the first fault from the left.
fn image_of(alloc: Global, bytes: &[u8]) -> Result<Image, DecodeError>
    ensures { Gives (λ i. i) result (reading.read bytes.now) }
{
    let count = count_at(bytes)?;
    let boot = boot_at(bytes, count)?;
    let cells = cells_of(alloc, bytes, count)?;
    end_at(bytes, 12 + 16 * count)?;
    match Image::new(boot, cells) {
        Some(image) => Ok(image),
        None => unreachable!(),
    }
}

fn refused(at: u32, cause: ImageCause) -> ImageRefused
    ensures { result ≡ record { at = at; cause = cause } }
{
    ImageRefused { at, cause }
}

#[tactic(auto, unfolding(crate::specs::Reading::count_at))]
fn count_at(bytes: &[u8]) -> Result<u32, ImageRefused>
    ensures value { result ≡ reading.count_at bytes.now }
    ensures counted { IfOk result (λ n. IsTrue (rule.is_cell_count n)) }
{
    if !fits_magic(bytes) {
        return Err(refused(0, ImageCause::Magic));
    }
    let count = number_at(bytes, 4)?;
    if is_cell_count(count) {
        Ok(count)
    } else {
        Err(refused(4, ImageCause::Count))
    }
}

fn fits_magic(bytes: &[u8]) -> bool
    ensures { result ≡ reading.fits_magic bytes.now }
{
    bytes.starts_with(MAGIC) || MAGIC.starts_with(bytes)
}

fn is_cell_count(count: u32) -> bool
    ensures { result ≡ rule.is_cell_count count }
{
    count >= 1 && count <= 1_048_560
}

fn end_at(bytes: &[u8], at: u32) -> Result<(), ImageRefused>
    ensures { result ≡ reading.end_at bytes.now at }
{
    if bytes.len() > at as usize {
        Err(refused(at, ImageCause::Extra))
    } else {
        Ok(())
    }
}

fn cells_of(alloc: Global, bytes: &[u8], count: u32) -> Result<Vec<Quad>, DecodeError>
    requires { IsTrue (rule.is_cell_count count) }
    ensures { Gives (λ cells. cells.items) result (reading.cells_at count bytes.now 12 count) }
{
    let mut cells = Vec::new(alloc);
    for n in 0..count {
        let cell = cell_at(bytes, 12 + 16 * n, count)?;
        cells.push(cell)?;
    }
    Ok(cells)
}

#[tactic(auto, unfolding(crate::specs::Reading::cell_at))]
fn cell_at(bytes: &[u8], at: u32, count: u32) -> Result<Quad, ImageRefused>
    requires place { at < 2 ^ 25 }
    requires count { IsTrue (rule.is_cell_count count) }
    ensures { result ≡ reading.cell_at count bytes.now at }
{
    let t = word_at(bytes, at, count)?;
    let x = word_at(bytes, at + 4, count)?;
    let y = word_at(bytes, at + 8, count)?;
    let z = word_at(bytes, at + 12, count)?;
    Ok(Quad { t, x, y, z })
}

// The boot word: that of one of the cells.
fn boot_at(bytes: &[u8], count: u32) -> Result<Word, ImageRefused>
    requires { IsTrue (rule.is_cell_count count) }
    ensures { result ≡ reading.word_at (rule.is_boot_word count) bytes.now 8 }
{
    let bits = number_at(bytes, 8)?;
    match Word::rom_bits(bits) {
        Some(w) if bits >= 16 && bits < 16 + count => Ok(w),
        _ => Err(refused(8, ImageCause::Word)),
    }
}

// A cell's word: a fixnum, a constant, or that of one of the cells.
fn word_at(bytes: &[u8], at: u32, count: u32) -> Result<Word, ImageRefused>
    requires place { at < 2 ^ 26 }
    requires count { IsTrue (rule.is_cell_count count) }
    ensures { result ≡ reading.word_at (rule.is_rom_word count) bytes.now at }
{
    let bits = number_at(bytes, at)?;
    match Word::rom_bits(bits) {
        Some(w) if bits < 16 + count || bits >= 0x8000_0000 => Ok(w),
        _ => Err(refused(at, ImageCause::Word)),
    }
}

fn number_at(bytes: &[u8], at: u32) -> Result<u32, ImageRefused>
    requires { at < 2 ^ 26 }
    ensures { result ≡ reading.number_at bytes.now at }
{
    let from = at as usize;
    if bytes.len() < from + 4 {
        return Err(refused(bytes.len() as u32, ImageCause::Truncated));
    }
    let four = &bytes[from..from + 4];
    Ok(u32::from_le_bytes([four[0], four[1], four[2], four[3]]))
}
