//! The laws of the texts of images with names, each on a function that does nothing.

ghost use Rattle.std.specs.Prelude.{◌≡◌, ◌↔◌, Some, None};
ghost use Rattle.ckpt_model.specs.State.{State};
ghost use Rattle.ckpt_image.specs.{Fits.Fits, Images.image_of};
ghost use Rattle.ckpt_names_image.specs.Named.{Fenced, Named, Plain, named_data, saved_of};
ghost use Rattle.serde_json.specs.Data.{Data};

/// The JSON value that is written for a state with names is read as that state.
pub fn reads_back()
    ensures { (m : Named) → Fits m.core → saved_of (named_data m) ≡ Some (Fenced m) }
{}

/// An image without names is read as [`ckpt_image::parse_image`] reads it, and nothing else is read
/// as one.
pub fn reads_plain()
    ensures { (d : Data) (m : State) → (saved_of d ≡ Some (Plain m)) ↔ (image_of d ≡ Some m) }
{}

/// A reader of images without names refuses an image with names.
pub fn refused_as_plain()
    ensures { (m : Named) → image_of (named_data m) ≡ None }
{}
