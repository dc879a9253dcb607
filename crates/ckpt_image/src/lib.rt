//! The text of an image of a coordinator: one JSON object.
//!
//! [`image_text`] writes it and [`parse_image`] reads it. `specs/Written.antt` defines what is
//! written. `specs/Members.antt` and `specs/Images.antt` define how a text is read.
#![tactic(auto)]

mod fault;
pub mod laws;
mod lists;
mod members;
mod reading;
mod records;
mod values;
mod writing;

pub use fault::TextFault;
pub use members::VERSION;
pub use reading::{fault_of, image_of_any_version, parse_image};
pub use values::{member, number, number_at};
pub use writing::{image_object, image_text};
