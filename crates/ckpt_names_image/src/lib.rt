//! The text of an image of a coordinator with names: the JSON object of an image without them, with
//! one member more and another version.
//!
//! [`names_image_text`] writes it. [`parse_names_image`] reads it, and reads an image without names
//! as [`ckpt_image::parse_image`] does. `specs/Named.antt` defines both.
#![tactic(auto)]

pub mod laws;
mod reading;
mod saved;
mod writing;

pub use reading::parse_names_image;
pub use saved::{NAMES_VERSION, SavedImage};
pub use writing::names_image_text;
