//! A law about the texts of images, as the contract of a function that does nothing.

ghost use Rattle.std.specs.Prelude.{◌≡◌, Some};
ghost use Rattle.ckpt_model.specs.State.{State};
ghost use Rattle.ckpt_image.specs.Fits.{Fits};
ghost use Rattle.ckpt_image.specs.Images.{image_of};
ghost use Rattle.ckpt_image.specs.Written.{image_data};

/// The JSON value that is written for a state is read as that state.
pub fn reads_back()
    ensures { (m : State) → Fits m → image_of (image_data m) ≡ Some m }
{}
