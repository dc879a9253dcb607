//! What is saved of a coordinator. One that is made from it answers as the saved one would.
ghost use Rattle.std.specs.Prelude.{◌≡◌, Err, IfOk, OnOk, OnErr};
ghost use Rattle.ckpt_memory.specs.Refusals.{one_more};
ghost use Rattle.ckpt_model.specs.Images.{CanHold, HasSoundNumbers, settled, state_in};

use crate::coordinator::Core;
use crate::parts::Parts;
use ckpt_hash::Secret;
use ckpt_memory::Meter;
use ckpt_model::Image;
use std::alloc::{AllocError, Global};
use thiserror::Error;

/// Why a coordinator was not made from an image.
#[derive(Clone, Copy, Debug, PartialEq, Eq, Error)]
pub enum ImageFault {
    /// The state is not sound, or no coordinator could be opened so.
    #[error("the image is damaged")]
    Damaged,
    /// Memory ran out.
    #[error("out of memory")]
    Memory,
}

impl From<AllocError> for ImageFault {
    ghost use Rattle.std.specs.Prelude.{◌≡◌};
    ghost use Rattle.ckpt_core.specs.declared.image.ImageFault.TheVariants.{Memory};

    ghost from_gives = { λ _ fault. fault ≡ Memory };

    fn from(_error: AllocError) -> ImageFault {
        ImageFault::Memory
    }
}

impl Core {
    /// The state as an image. The files that were fetched are in ascending order, because no call
    /// returns the order in which they were fetched. Fails only if memory runs out.
    pub fn image(&self) -> Result<Image, AllocError>
        ensures value { IfOk result (λ image. state_in image ≡ settled self.now) }
        ensures good { IfOk result (λ image. CanHold (state_in image)) }
    {
        self.image_metered(&mut Meter::new())
    }

    /// [`Core::image`], which fails exactly if one more request for memory was refused.
    pub fn image_metered(&self, meter: &mut Meter) -> Result<Image, AllocError>
        ensures value { IfOk result (λ image. state_in image ≡ settled self.now) }
        ensures good { IfOk result (λ image. CanHold (state_in image)) }
        ensures none { OnOk result (meter.new ≡ meter.old) }
        ensures refused { OnErr result (meter.new ≡ one_more meter.old) }
    {
        self.parts.image(meter)
    }

    /// A coordinator in the state of the image. It hashes file numbers under a secret, as that of
    /// [`Core::keyed`] does.
    ///
    /// Returns [`ImageFault::Damaged`] only if the state is not sound, or no coordinator could be
    /// opened so, and [`ImageFault::Memory`] if memory runs out. The moments, the numbers and the
    /// failures are tested before memory is taken. A sound state may be one that no list of calls
    /// reaches.
    pub fn from_image(alloc: Global, image: &Image, secret: Secret) -> Result<Core, ImageFault>
        ensures value { IfOk result (λ core. core ≡ state_in image.now) }
        ensures sound { OnOk result (CanHold (state_in image.now)) }
        ensures damaged { result ≡ Err ImageFault.Damaged → CanHold (state_in image.now) → ⊥ }
        ensures memory { result ≡ Err ImageFault.Memory → HasSoundNumbers (state_in image.now) }
    {
        Core::from_image_metered(&mut Meter::new(), alloc, image, secret)
    }

    /// [`Core::from_image`], which answers [`ImageFault::Memory`] only if one more request for
    /// memory was refused.
    pub fn from_image_metered(
        meter: &mut Meter,
        alloc: Global,
        image: &Image,
        secret: Secret,
    ) -> Result<Core, ImageFault>
        ensures value { IfOk result (λ core. core ≡ state_in image.now) }
        ensures sound { OnOk result (CanHold (state_in image.now)) }
        ensures damaged { result ≡ Err ImageFault.Damaged → CanHold (state_in image.now) → ⊥ }
        ensures memory { result ≡ Err ImageFault.Memory → HasSoundNumbers (state_in image.now) }
        ensures none { OnOk result (meter.new ≡ meter.old) }
        ensures cause { result ≡ Err ImageFault.Memory → meter.new ≡ one_more meter.old }
    {
        let parts = Parts::of_image(meter, alloc, image, secret)?;
        Ok(Core { parts })
    }
}
