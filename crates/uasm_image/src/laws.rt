//! Laws of the bytes of images, of the faults of other bytes, and of listings.

ghost use Rattle.std.specs.Prelude.{◌≡◌, ◌<◌, ◌⊎◌, ℕ, List, Ok};
ghost use Rattle.std.specs.List.{AllByRecursion};
ghost use Rattle.quad_memory.specs.Image.{RomImage};
ghost use Rattle.uasm_image.specs.Spelled.{spelled, IsImage};
ghost use Rattle.uasm_image.specs.Reading.{read};
ghost use Rattle.uasm_image.specs.Refused.{IsRefusedAt};
ghost use Rattle.uasm_image.specs.Laws.{ListingsAreModules, ListingsLinkBack};
ghost use Rattle.uasm_image.specs.declared.error.ImageCause.{ImageCause};

use uasm_read::operations_have_lines;

/// The bytes of an image are read as that image, and so are no other image's.
pub fn images_are_read_back()
    ensures read { (i : RomImage) → IsImage i → read (spelled i) ≡ Ok i }
    ensures one { (i j : RomImage) → IsImage i → IsImage j → spelled i ≡ spelled j → i ≡ j }
{}

/// Bytes are those of an image, or have a fault; they have one at most, and those of an image have none.
pub fn faults_are_one()
    ensures some { (bytes : List ℕ) → AllByRecursion (λ b. b < 256) bytes →
        ((i : RomImage) × IsImage i × (bytes ≡ spelled i)) ⊎ ((at : ℕ) × (cause : ImageCause) × IsRefusedAt bytes at cause) }
    ensures one { (bytes : List ℕ) (a b : ℕ) (c d : ImageCause) → IsRefusedAt bytes a c → IsRefusedAt bytes b d → (a ≡ b) × (c ≡ d) }
    ensures none { (i : RomImage) (at : ℕ) (cause : ImageCause) → IsImage i → IsRefusedAt (spelled i) at cause → ⊥ }
{}

/// The listing of an image keeps the rules of modules, so that `write_module` gives a text that assembles to it.
pub fn listings_are_modules()
    ensures { ListingsAreModules }
{
    operations_have_lines();
}

/// The listing of an image links to that image.
pub fn listings_link_back()
    ensures { ListingsLinkBack }
{}
