//! Saves a coordinator into a caller's buffer, and opens a handle with an image.

ghost use Rattle.std.specs.Prelude.{◌≡◌, ◌≢◌, None, Some, IfOk, IfErr, OnErr, OnOk, length, string_bytes, take};
ghost use Rattle.core.specs.Str.{IsUtf8};
ghost use Rattle.ckpt_model.specs.{Images.settled, Images.state_in, State.State};
ghost use Rattle.ckpt_image.specs.Written.{image_bytes};
ghost use Rattle.ckpt_names_image.specs.Named.{Fenced, Plain, Saved, named_bytes, named_in, saved_in, saved_read};
ghost use Rattle.relkvanu.specs.{Buffers.StandsInFront, Opening.StaysOpen, Requested.IsRefused};
ghost use Rattle.relkvanu.specs.Calls.{HasNoNumbers, IsSame, StaysAsItWas, StaysClosed};
ghost use Rattle.relkvanu.specs.Images.{BringsImage, CanBeOpened, IsNamedSave, IsNotOpenedSaved, IsOpenedSaved, IsSaveTold, IsWhyNotOpened};
ghost use Rattle.relkvanu.specs.Images.{IsWhyNotSaved, OpensAgain, SavedWantsMemory, Tells, TellsNothing, image_by, opened_with, saved_told};
ghost use Rattle.relkvanu.specs.Told.{bad_argument, bad_image, no_memory, out_of_memory};
ghost use Rattle.ckpt_core.specs.declared.image.ImageFault.TheVariants as fault;
ghost use Rattle.ckpt_logged.specs.{Chronicles.begun, Events.IsWell};
ghost use Rattle.ckpt_terms.specs.Machines.{Issued, core_in, issued_by, names_in};
ghost use Rattle.ckpt_terms.specs.TermsImages.{CanOpenFenced};

use crate::answer::Answer;
use crate::handle::Handle;
use crate::opening::ALREADY_OPEN;
use crate::requests::Requests;
use ckpt_core::{Core, Image, ImageFault};
use ckpt_hash::Secret;
use ckpt_image::TextFault;
use ckpt_logged::Logged;
use ckpt_names_image::SavedImage;
use ckpt_terms::{Machine, Terms, TermsImage};
use std::alloc::{AllocError, Global};

const SAVED: u32 = 45;

const BAD_IMAGE: u32 = 7;

/// Writes the image of the coordinator as JSON to the start of the buffer, with its names if it has
/// some.
///
/// If the buffer is too short, the answer says how many bytes the image has: call again. Otherwise
/// the bytes that it counts open a closed handle in the same state, with the same names. Takes
/// memory.
#[unsafe(no_mangle)]
pub extern "C" fn relkvanu_save(alloc: Global, handle: &mut Handle, image: &mut [u8]) -> Answer
    ensures closed { StaysClosed handle.old.value handle.new.value result }
    ensures answered { (m : State) → handle.old.value ≡ Some m → handle.old.names ≡ None → IsSaveTold m (length image.old) result }
    ensures front { (m : State) → handle.old.value ≡ Some m → handle.old.names ≡ None → BringsImage m image.old image.new result }
    ensures named { (m : State) (n : Issued) → handle.old.value ≡ Some m → handle.old.names ≡ Some n → IsNamedSave m n image.old image.new result }
    ensures opens { (m : State) → handle.old.value ≡ Some m → OpensAgain m handle.old.names image.new result }
    ensures kept { result.code ≢ 0 → image.new ≡ image.old }
    ensures numbers { HasNoNumbers result }
    ensures unchanged { IsSame handle.old handle.new }
{
    let Some(machine) = handle.take(alloc) else {
        return Answer::closed();
    };
    let answer = save_machine(&mut Requests::new(), alloc, machine.machine(), image);
    handle.put(alloc, machine);
    answer
}

/// Opens the coordinator that an image describes in a closed handle, with the names that the image
/// has, if it has some. It answers every list of calls as the saved one would.
///
/// The secret keys the maps of files, so that no choice of numbers makes calls slow. It changes no
/// answer. An open handle does not change, and the answer says so. One bad argument is returned for
/// bytes that are not an image, and for an image of a state that is not sound, of an opening that
/// no coordinator can have, or of names that are no ranges in ascending order.
#[unsafe(no_mangle)]
#[tactic(auto, using(crate::proofs::Saves::told_well))]
pub extern "C" fn relkvanu_open_saved(
    alloc: Global,
    handle: &mut Handle,
    image: &[u8],
    first_word: u64,
    second_word: u64,
) -> Answer
    ensures open { StaysOpen handle.old.value handle.new.value result }
    ensures opened { IsOpenedSaved handle.old.value handle.new.value handle.new.names image.now result }
    ensures refused { IsNotOpenedSaved handle.old.value handle.new.value image.now result }
    ensures memory { SavedWantsMemory image.now result }
    ensures numbers { HasNoNumbers result }
    ensures unchanged { StaysAsItWas handle.old.value handle.new.value result }
    ensures names { result.code ≢ 0 → handle.new.names ≡ handle.old.names }
    ensures begun { (s : Saved) → result.code ≡ 0 → Tells image.now s → handle.new.past ≡ Some (begun (opened_with s)) }
    ensures past { result.code ≢ 0 → handle.new.past ≡ handle.old.past }
    ensures sound { (s : Saved) → Tells image.now s → IsWell (opened_with s) }
{
    if let Some(machine) = handle.take(alloc) {
        handle.put(alloc, machine);
        return Answer::bad_argument(ALREADY_OPEN);
    }
    let secret = Secret::of(first_word, second_word);
    match machine_of(&mut Requests::new(), alloc, image, secret) {
        Ok(machine) => {
            handle.put(alloc, machine);
            Answer::done(0, 0, 0)
        }
        Err(why) => why,
    }
}

fn save_machine(
    requests: &mut Requests,
    alloc: Global,
    machine: &Machine,
    image: &mut [u8],
) -> Answer
    ensures told { names_in machine.now ≡ None → IsSaveTold (core_in machine.now) (length image.old) result }
    ensures front { names_in machine.now ≡ None → BringsImage (core_in machine.now) image.old image.new result }
    ensures named { (n : Issued) → names_in machine.now ≡ Some n → IsNamedSave (core_in machine.now) n image.old image.new result }
    ensures opens { OpensAgain (core_in machine.now) (names_in machine.now) image.new result }
    ensures kept { result.code ≢ 0 → image.new ≡ image.old }
    ensures numbers { HasNoNumbers result }
    ensures cause { result.code ≡ no_memory → IsRefused requests.new }
{
    match machine {
        Machine::Plain(core) => save_from(requests, alloc, core, image),
        Machine::Fenced(terms) => save_terms(requests, alloc, terms, image),
    }
}

fn save_from(requests: &mut Requests, alloc: Global, core: &Core, image: &mut [u8]) -> Answer
    ensures told { IsSaveTold core.now (length image.old) result }
    ensures front { BringsImage core.now image.old image.new result }
    ensures opens { OpensAgain core.now None image.new result }
    ensures kept { result.code ≢ 0 → image.new ≡ image.old }
    ensures numbers { HasNoNumbers result }
    ensures cause { result.code ≡ no_memory → IsRefused requests.new }
{
    match text_of(requests, alloc, core) {
        Ok(text) => write_text(&text, image),
        Err(_) => Answer::out_of_memory(requests),
    }
}

fn text_of(requests: &mut Requests, alloc: Global, core: &Core) -> Result<String, AllocError>
    ensures text { IfOk result (λ text. string_bytes text ≡ image_bytes (settled core.now)) }
    ensures tells { IfOk result (λ text. Tells (string_bytes text) (image_by core.now None)) }
    ensures refused { OnErr result (IsRefused requests.new) }
{
    let image = core.image_metered(&mut requests.meter)?;
    requests.image_text(alloc, &image)
}

fn save_terms(requests: &mut Requests, alloc: Global, terms: &Terms, image: &mut [u8]) -> Answer
    ensures named { IsNamedSave terms.now.core (issued_by terms.now) image.old image.new result }
    ensures opens { OpensAgain terms.now.core (Some (issued_by terms.now)) image.new result }
    ensures kept { result.code ≢ 0 → image.new ≡ image.old }
    ensures numbers { HasNoNumbers result }
    ensures cause { result.code ≡ no_memory → IsRefused requests.new }
{
    match terms.image_metered(&mut requests.meter) {
        Ok(saved) => save_image(requests, alloc, &saved, image),
        Err(_) => Answer::out_of_memory(requests),
    }
}

fn save_image(
    requests: &mut Requests,
    alloc: Global,
    saved: &TermsImage,
    image: &mut [u8],
) -> Answer
    ensures told { result.code ≢ no_memory → result ≡ saved_told (named_bytes (named_in saved.now)) (length image.old) }
    ensures front { result.code ≡ 0 → StandsInFront (named_bytes (named_in saved.now)) image.old image.new }
    ensures tells { result.code ≡ 0 → CanOpenFenced saved.now → Tells (take result.a image.new) (Fenced (named_in saved.now)) }
    ensures kept { result.code ≢ 0 → image.new ≡ image.old }
    ensures numbers { HasNoNumbers result }
    ensures cause { result.code ≡ no_memory → IsRefused requests.new }
{
    match requests.names_image_text(alloc, saved) {
        Ok(text) => write_text(&text, image),
        Err(_) => Answer::out_of_memory(requests),
    }
}

/// Writes a text to the start of the buffer, if that is long enough.
fn write_text(text: &str, image: &mut [u8]) -> Answer
    ensures told { result ≡ saved_told text.now (length image.old) }
    ensures front { result.code ≡ 0 → StandsInFront text.now image.old image.new }
    ensures tells { (s : Saved) → result.code ≡ 0 → Tells text.now s → Tells (take result.a image.new) s }
    ensures kept { result.code ≢ 0 → image.new ≡ image.old }
{
    let bytes = text.as_bytes();
    let needed = bytes.len();
    if image.len() < needed {
        return Answer::too_short(needed as u64);
    }
    image[..needed].copy_from_slice(bytes);
    Answer::done(SAVED, needed as u64, 0)
}

fn machine_of(
    requests: &mut Requests,
    alloc: Global,
    bytes: &[u8],
    secret: Secret,
) -> Result<Box<Logged>, Answer>
    ensures value { IfOk result (λ machine. (s : Saved) → Tells bytes.now s → machine.value ≡ begun (opened_with s)) }
    ensures told { OnOk result (TellsNothing bytes.now → ⊥) }
    ensures fault { IfErr result (IsWhyNotSaved bytes.now) }
    ensures memory { IfErr result (SavedWantsMemory bytes.now) }
    ensures numbers { IfErr result HasNoNumbers }
    ensures code { IfErr result (λ answer. answer.code ≢ 0) }
    ensures cause { IfErr result (λ answer. answer.code ≡ no_memory → IsRefused requests.new) }
{
    let saved = saved_of(requests, alloc, bytes)?;
    machine_from(requests, alloc, &saved, secret)
}

fn saved_of(requests: &mut Requests, alloc: Global, bytes: &[u8]) -> Result<SavedImage, Answer>
    ensures utf8 { IfOk result (λ image. IsUtf8 bytes.now) }
    ensures read { IfOk result (λ image. saved_read bytes.now ≡ Some (saved_in image)) }
    ensures fault { IfErr result (IsWhyNotSaved bytes.now) }
    ensures memory { IfErr result (SavedWantsMemory bytes.now) }
    ensures numbers { IfErr result HasNoNumbers }
    ensures code { IfErr result (λ answer. answer.code ≢ 0) }
    ensures cause { IfErr result (λ answer. answer.code ≡ no_memory → IsRefused requests.new) }
{
    let Ok(text) = str::from_utf8(bytes) else {
        return Err(Answer::bad_argument(BAD_IMAGE));
    };
    match requests.saved(alloc, text) {
        Ok(image) => Ok(image),
        Err(TextFault::Memory) => Err(Answer::out_of_memory(requests)),
        Err(_) => Err(Answer::bad_argument(BAD_IMAGE)),
    }
}

fn machine_from(
    requests: &mut Requests,
    alloc: Global,
    saved: &SavedImage,
    secret: Secret,
) -> Result<Box<Logged>, Answer>
    ensures value { IfOk result (λ machine. machine.value ≡ begun (opened_with (saved_in saved.now))) }
    ensures sound { OnOk result (CanBeOpened (saved_in saved.now)) }
    ensures fault { IfErr result (IsWhyNotOpened (saved_in saved.now)) }
    ensures numbers { IfErr result HasNoNumbers }
    ensures code { IfErr result (λ answer. answer.code ≢ 0) }
    ensures cause { IfErr result (λ answer. answer.code ≡ no_memory → IsRefused requests.new) }
{
    match saved {
        SavedImage::Plain(image) => plain_from(requests, alloc, image, secret),
        SavedImage::Fenced(image) => named_from(requests, alloc, image, secret),
    }
}

#[tactic(auto, unfolding(crate::specs::Images::CanBeOpened, crate::specs::Images::opened_with))]
fn plain_from(
    requests: &mut Requests,
    alloc: Global,
    image: &Image,
    secret: Secret,
) -> Result<Box<Logged>, Answer>
    ensures value { IfOk result (λ machine. machine.value ≡ begun (opened_with (Plain (state_in image.now)))) }
    ensures sound { OnOk result (CanBeOpened (Plain (state_in image.now))) }
    ensures fault { IfErr result (IsWhyNotOpened (Plain (state_in image.now))) }
    ensures numbers { IfErr result HasNoNumbers }
    ensures code { IfErr result (λ answer. answer.code ≢ 0) }
    ensures cause { IfErr result (λ answer. answer.code ≡ no_memory → IsRefused requests.new) }
{
    match Core::from_image_metered(&mut requests.meter, alloc, image, secret) {
        Ok(core) => boxed(requests, alloc, Machine::Plain(core)),
        Err(why) => Err(fault_of(requests, why)),
    }
}

#[tactic(auto, unfolding(crate::specs::Images::CanBeOpened, crate::specs::Images::opened_with))]
fn named_from(
    requests: &mut Requests,
    alloc: Global,
    image: &TermsImage,
    secret: Secret,
) -> Result<Box<Logged>, Answer>
    ensures value { IfOk result (λ machine. machine.value ≡ begun (opened_with (Fenced (named_in image.now)))) }
    ensures sound { OnOk result (CanBeOpened (Fenced (named_in image.now))) }
    ensures fault { IfErr result (IsWhyNotOpened (Fenced (named_in image.now))) }
    ensures numbers { IfErr result HasNoNumbers }
    ensures code { IfErr result (λ answer. answer.code ≢ 0) }
    ensures cause { IfErr result (λ answer. answer.code ≡ no_memory → IsRefused requests.new) }
{
    match Terms::from_image_metered(&mut requests.meter, alloc, image, secret) {
        Ok(terms) => boxed(requests, alloc, Machine::Fenced(terms)),
        Err(why) => Err(fault_of(requests, why)),
    }
}

/// The box of a coordinator that begins here, or the answer if memory runs out.
pub(crate) fn boxed(
    requests: &mut Requests,
    alloc: Global,
    machine: Machine,
) -> Result<Box<Logged>, Answer>
    ensures value { IfOk result (λ boxed. boxed.value ≡ begun machine) }
    ensures sound { OnOk result (IsWell machine) }
    ensures fault { IfErr result (λ answer. answer ≡ out_of_memory) }
    ensures cause { IfErr result (λ answer. answer.code ≡ no_memory → IsRefused requests.new) }
{
    match requests.boxed(alloc, Logged::of(machine)) {
        Ok(boxed) => Ok(boxed),
        Err(_) => Err(Answer::out_of_memory(requests)),
    }
}

/// The answer if no coordinator is made from an image.
///
/// Condition: if that is for want of memory, a request was refused.
fn fault_of(requests: &Requests, why: ImageFault) -> Answer
    requires { why ≡ fault.Memory → IsRefused requests.now }
    ensures cause { result.code ≡ no_memory → IsRefused requests.now }
    ensures damaged { result.code ≢ no_memory → (why ≡ fault.Damaged) × (result ≡ bad_argument bad_image) }
    ensures numbers { HasNoNumbers result }
    ensures code { result.code ≢ 0 }
{
    match why {
        ImageFault::Damaged => Answer::bad_argument(BAD_IMAGE),
        ImageFault::Memory => Answer::out_of_memory(requests),
    }
}
