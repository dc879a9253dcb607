//! The calls that have no list and no buffer.

ghost use Rattle.std.specs.Prelude.{◌≡◌, ◌≢◌, true, false};
ghost use Rattle.ckpt_ids.specs.declared.call.Call.TheVariants as call;
ghost use Rattle.relkvanu.specs.Calls.{HasNoNumbers, IsAnswered, IsMade, IsMadePlainly, IsRefusedAs, StaysAsItWas, StaysClosed, WantsMemory, subtask_at};
ghost use Rattle.relkvanu.specs.{Fenced.IsHandled, Fenced.call_step, Opening.are_good, Opening.configure_of, Past.GrowsBy, Past.plainly, Told.bad_config, Told.no_memory};

use crate::answer::Answer;
use crate::calls;
use crate::handle::Handle;
use crate::opening::{Settings, config_of};
use crate::requests::Requests;
use ckpt_ids::{Call, CheckpointId, FileId, SubtaskId};
use std::alloc::Global;

/// Time has passed.
#[unsafe(no_mangle)]
pub extern "C" fn relkvanu_tick(alloc: Global, handle: &mut Handle, now: u64) -> Answer
    ensures closed { StaysClosed handle.old.value handle.new.value result }
    ensures answered { IsAnswered handle.old.value handle.new.value (call.Tick now) result }
    ensures memory { WantsMemory handle.old.value (call.Tick now) result }
    ensures numbers { HasNoNumbers result }
    ensures unchanged { StaysAsItWas handle.old.value handle.new.value result }
    ensures names { handle.new.names ≡ handle.old.names }
    ensures past { GrowsBy (plainly (call.Tick now)) handle.old.past handle.new.past result }
{
    calls::call(&mut Requests::new(), alloc, handle, &Call::Tick { now })
}

/// Triggers a checkpoint now, whatever the interval and the pause. Nothing expires in it.
#[unsafe(no_mangle)]
pub extern "C" fn relkvanu_trigger(alloc: Global, handle: &mut Handle, now: u64) -> Answer
    ensures closed { StaysClosed handle.old.value handle.new.value result }
    ensures answered { IsAnswered handle.old.value handle.new.value (call.Trigger now) result }
    ensures memory { WantsMemory handle.old.value (call.Trigger now) result }
    ensures numbers { HasNoNumbers result }
    ensures unchanged { StaysAsItWas handle.old.value handle.new.value result }
    ensures names { handle.new.names ≡ handle.old.names }
    ensures past { GrowsBy (plainly (call.Trigger now)) handle.old.past handle.new.past result }
{
    calls::call(&mut Requests::new(), alloc, handle, &Call::Trigger { now })
}

/// Triggers a savepoint.
#[unsafe(no_mangle)]
pub extern "C" fn relkvanu_savepoint(alloc: Global, handle: &mut Handle, now: u64) -> Answer
    ensures closed { StaysClosed handle.old.value handle.new.value result }
    ensures answered { IsAnswered handle.old.value handle.new.value (call.Savepoint now) result }
    ensures memory { WantsMemory handle.old.value (call.Savepoint now) result }
    ensures numbers { HasNoNumbers result }
    ensures unchanged { StaysAsItWas handle.old.value handle.new.value result }
    ensures names { handle.new.names ≡ handle.old.names }
    ensures past { GrowsBy (plainly (call.Savepoint now)) handle.old.past handle.new.past result }
{
    let savepoint = Call::Savepoint { now };
    calls::call(&mut Requests::new(), alloc, handle, &savepoint)
}

/// A subtask could not take its part of a record.
#[unsafe(no_mangle)]
pub extern "C" fn relkvanu_decline(
    alloc: Global,
    handle: &mut Handle,
    now: u64,
    id: u64,
    vertex: u16,
    index: u16,
) -> Answer
    ensures closed { StaysClosed handle.old.value handle.new.value result }
    ensures answered { IsMadePlainly handle.old handle.new (call.Decline now id (subtask_at vertex index)) result }
    ensures handled { IsHandled (λ k. call_step k (call.Decline now id (subtask_at vertex index))) handle.old handle.new result }
    ensures memory { result.code ≢ no_memory }
    ensures past { GrowsBy (plainly (call.Decline now id (subtask_at vertex index))) handle.old.past handle.new.past result }
{
    let decline = Call::Decline {
        now,
        id: CheckpointId(id),
        subtask: SubtaskId { vertex, index },
    };
    calls::call(&mut Requests::new(), alloc, handle, &decline)
}

/// A user disposes of a completed savepoint.
#[unsafe(no_mangle)]
pub extern "C" fn relkvanu_dispose(alloc: Global, handle: &mut Handle, id: u64) -> Answer
    ensures closed { StaysClosed handle.old.value handle.new.value result }
    ensures answered { IsMade handle.old.value handle.new.value (call.Dispose id) result }
    ensures memory { result.code ≢ no_memory }
    ensures names { handle.new.names ≡ handle.old.names }
    ensures past { GrowsBy (plainly (call.Dispose id)) handle.old.past handle.new.past result }
{
    let dispose = Call::Dispose {
        id: CheckpointId(id),
    };
    calls::call(&mut Requests::new(), alloc, handle, &dispose)
}

/// The job ends for good.
#[unsafe(no_mangle)]
pub extern "C" fn relkvanu_cancel(alloc: Global, handle: &mut Handle, now: u64) -> Answer
    ensures closed { StaysClosed handle.old.value handle.new.value result }
    ensures answered { IsMadePlainly handle.old handle.new (call.Cancel now) result }
    ensures handled { IsHandled (λ k. call_step k (call.Cancel now)) handle.old handle.new result }
    ensures memory { result.code ≢ no_memory }
    ensures past { GrowsBy (plainly (call.Cancel now)) handle.old.past handle.new.past result }
{
    calls::call(&mut Requests::new(), alloc, handle, &Call::Cancel { now })
}

/// A fetched file is deleted.
#[unsafe(no_mangle)]
pub extern "C" fn relkvanu_deleted(alloc: Global, handle: &mut Handle, file: u64) -> Answer
    ensures closed { StaysClosed handle.old.value handle.new.value result }
    ensures answered { IsMade handle.old.value handle.new.value (call.Deleted file) result }
    ensures memory { result.code ≢ no_memory }
    ensures names { handle.new.names ≡ handle.old.names }
    ensures past { GrowsBy (plainly (call.Deleted file)) handle.old.past handle.new.past result }
{
    let deleted = Call::Deleted { file: FileId(file) };
    calls::call(&mut Requests::new(), alloc, handle, &deleted)
}

/// A fetched file could not be deleted.
#[unsafe(no_mangle)]
pub extern "C" fn relkvanu_undeleted(alloc: Global, handle: &mut Handle, file: u64) -> Answer
    ensures closed { StaysClosed handle.old.value handle.new.value result }
    ensures answered { IsMade handle.old.value handle.new.value (call.Undeleted file) result }
    ensures memory { result.code ≢ no_memory }
    ensures names { handle.new.names ≡ handle.old.names }
    ensures past { GrowsBy (plainly (call.Undeleted file)) handle.old.past handle.new.past result }
{
    let undeleted = Call::Undeleted { file: FileId(file) };
    calls::call(&mut Requests::new(), alloc, handle, &undeleted)
}

/// The number of uses of a file.
#[unsafe(no_mangle)]
pub extern "C" fn relkvanu_count(alloc: Global, handle: &mut Handle, file: u64) -> Answer
    ensures closed { StaysClosed handle.old.value handle.new.value result }
    ensures answered { IsMade handle.old.value handle.new.value (call.Count file) result }
    ensures memory { result.code ≢ no_memory }
    ensures names { handle.new.names ≡ handle.old.names }
    ensures past { GrowsBy (plainly (call.Count file)) handle.old.past handle.new.past result }
{
    let count = Call::Count { file: FileId(file) };
    calls::call(&mut Requests::new(), alloc, handle, &count)
}

/// The job has these settings from the moment `now` on, in milliseconds.
///
/// Settings outside their limits are a bad argument, before any refusal. Done checkpoints above the
/// new number retained are dropped at once.
#[unsafe(no_mangle)]
pub extern "C" fn relkvanu_configure(
    alloc: Global,
    handle: &mut Handle,
    now: u64,
    settings: &Settings,
) -> Answer
    ensures closed { StaysClosed handle.old.value handle.new.value result }
    ensures bad_config { are_good settings.now ≡ false → IsRefusedAs handle.old.value handle.new.value bad_config result }
    ensures answered { are_good settings.now ≡ true → IsMade handle.old.value handle.new.value (configure_of now settings.now) result }
    ensures memory { result.code ≢ no_memory }
    ensures names { handle.new.names ≡ handle.old.names }
    ensures past { are_good settings.now ≡ true → GrowsBy (plainly (configure_of now settings.now)) handle.old.past handle.new.past result }
    ensures past_kept { are_good settings.now ≡ false → handle.new.past ≡ handle.old.past }
{
    match config_of(settings) {
        Ok(config) => {
            let configure = Call::Configure { now, config };
            calls::call(&mut Requests::new(), alloc, handle, &configure)
        }
        Err(answer) => calls::refuse(alloc, handle, answer),
    }
}
