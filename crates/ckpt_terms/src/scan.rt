//! Whether an image has a file whose number is not below a first name.

ghost use Rattle.std.specs.Prelude.{◌≡◌, nat_le};
ghost use Rattle.std.specs.List.{list_any};
ghost use Rattle.ckpt_ids.specs.declared.ack.Acked.{Acked};
ghost use Rattle.ckpt_model.specs.Images.{record_in, state_in};
ghost use Rattle.ckpt_terms.specs.Machines.{files_by, has_known_from};

use ckpt_core::{Image, Saved};
use ckpt_ids::{Acked, FileId};

/// Whether a file of the image has this number or a greater one.
pub(crate) fn has_known_from(image: &Image, first: u64) -> bool
    ensures { result ≡ has_known_from (state_in image.now) first }
{
    any_used_from(&image.records, first)
        || any_from(image.waiting.as_slice(), first)
        || any_from(image.taken.as_slice(), first)
}

fn any_used_from(records: &[Saved], first: u64) -> bool
    ensures { result ≡ list_any (λ s. list_any (nat_le first) (files_by (record_in s))) records.now }
{
    records.iter().any(|saved| is_used_from(saved, first))
}

fn is_used_from(saved: &Saved, first: u64) -> bool
    ensures { result ≡ list_any (nat_le first) (files_by (record_in saved.now)) }
{
    any_acked_from(saved.metadata.acks.as_slice(), first) || any_from(saved.pins.as_slice(), first)
}

fn any_acked_from(acks: &[Acked], first: u64) -> bool
    ensures { result ≡ list_any (λ a. list_any (nat_le first) a.files) acks.now }
{
    acks.iter()
        .any(|acked| any_from(acked.files.as_slice(), first))
}

fn any_from(files: &[FileId], first: u64) -> bool
    ensures { result ≡ list_any (nat_le first) files.now }
{
    files.iter().any(|file| file.0 >= first)
}
