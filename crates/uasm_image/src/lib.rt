//! Images as bytes and as assembly: `encode` gives an image's bytes, and `decode` the image whose bytes they are, or where they are no
//! image's and why; `listing` gives the module that links to an image.
#![tactic(auto)]

mod error;
mod laws;
mod listings;
mod reading;
mod writing;

pub use error::{DecodeError, ImageCause, ImageRefused};
pub use laws::{faults_are_one, images_are_read_back, listings_are_modules, listings_link_back};
pub use listings::listing;
pub use reading::decode;
pub use writing::encode;
