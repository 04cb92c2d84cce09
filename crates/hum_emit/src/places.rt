// Where code stands in the image that its module links to.

ghost use Rattle.std.specs.Prelude.{◌≡◌, ◌<◌, ◌∷◌, ◌++◌, [], map, IfOk};
ghost use Rattle.std.specs.List.{All};
ghost use Rattle.hum_emit.specs.Holds.{place_number};

use std::alloc::{AllocError as NoMemory, Global};

// The ROM number of an instruction, where there are so many. One beyond 32 bits is want of memory.
fn rom_number(size: usize, instruction: u32) -> Result<u32, NoMemory>
    requires { instruction < size }
    ensures { IfOk result (λ number. number ≡ place_number size instruction) }
{
    let before = size - 1 - instruction as usize;
    if before > u32::MAX as usize - 16 {
        return Err(NoMemory);
    }
    Ok(16 + before as u32)
}

/// The ROM numbers of the units' first instructions and of the one that applies behaviours, where there are so many instructions.
pub fn rom_numbers(
    alloc: Global,
    size: usize,
    entries: &[u32],
    apply: u32,
) -> Result<Vec<u32>, NoMemory>
    requires entries { All (λ entry. entry < size) entries.now }
    requires apply { apply < size }
    ensures { IfOk result (λ places. places.items ≡ map (place_number size) (entries.now ++ apply ∷ [])) }
{
    let mut numbers = Vec::new(alloc);
    for entry in entries.iter() {
        numbers.push(rom_number(size, *entry)?)?;
    }
    numbers.push(rom_number(size, apply)?)?;
    Ok(numbers)
}
