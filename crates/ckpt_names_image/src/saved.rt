//! What a text of an image is read as.

use ckpt_core::Image;
use ckpt_terms::{Span, TermsImage};

/// The number of the format of an image with names. A reader of images without names refuses it.
pub const NAMES_VERSION: u64 = 2;

/// What a text of an image is read as.
#[derive(Debug, Drop)]
pub enum SavedImage {
    /// The image of a coordinator without names.
    Plain(Image),
    /// The image of a coordinator with names.
    Fenced(TermsImage),
}

/// What the member `names` holds.
#[derive(Drop)]
pub(crate) struct NamesMember {
    pub(crate) next: u64,
    pub(crate) term: u64,
    pub(crate) unspent: Vec<Span>,
}
