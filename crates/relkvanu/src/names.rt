//! The names of refusals, for a caller's buffer.

ghost use Rattle.std.specs.Prelude.{◌≡◌, ◌<◌, ◌≤◌, length};
ghost use Rattle.relkvanu.specs.{Buffers.StandsInFront, Names.refusal_name};

/// Writes the name of the refusal with this number to the start of the buffer if that is long
/// enough. Returns the number of bytes of the name, or 0 if no refusal has the number.
#[unsafe(no_mangle)]
pub extern "C" fn relkvanu_refusal_text(what: u32, text: &mut [u8]) -> usize
    ensures length { result ≡ length (refusal_name what) }
    ensures written { result ≤ length text.old → StandsInFront (refusal_name what) text.old text.new }
    ensures kept { length text.old < result → text.new ≡ text.old }
{
    let name = name(what).as_bytes();
    if name.len() <= text.len() {
        text[..name.len()].copy_from_slice(name);
    }
    name.len()
}

fn name(what: u32) -> &'static str
    ensures { result.now ≡ refusal_name what }
{
    match what {
        1 => "MomentTooLarge",
        2 => "NotRunning",
        3 => "TooManyFiles",
        4 => "RepeatedFile",
        5 => "UnknownCheckpoint",
        6 => "UnknownSubtask",
        7 => "AlreadyAcknowledged",
        8 => "NameTaken",
        9 => "FileGone",
        10 => "NoSuchSavepoint",
        11 => "InUse",
        12 => "TooManySavepoints",
        13 => "NotTaken",
        14 => "NoSuchRecord",
        15 => "IdsUsedUp",
        16 => "AtOnce",
        _ => "",
    }
}
