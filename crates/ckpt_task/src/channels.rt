//! The channels of a task, as its engine brings them.

ghost use Rattle.std.specs.Prelude.{◌≡◌, ◌∷◌, ◌++◌, List, IfOk, OnErr, OnOk};
ghost use Rattle.ckpt_task.specs.{declared.deed.Deed.Deed, Deeds.IsUndone, Deeds.as_came};
ghost use Rattle.ckpt_task.specs.declared.deed.Deed.TheVariants as deed;

use crate::turn::Next;
use ckpt_align::{Aligner, Cut};
use ckpt_ids::CheckpointId;
use thiserror::Error;

/// A channel failed, or the way to the coordinator. The job is restored.
#[derive(Clone, Copy, Debug, PartialEq, Eq, Error)]
#[error("a channel failed")]
pub struct ChannelFault;

/// The channels of one task, and its way to the coordinator. A channel keeps its order: what a task
/// takes from it is what the task before put on it, from the first item on. After a fault the deed
/// may have been done or not.
pub trait Channels {
    /// What the task did, the newest first. A [`Log`](crate::Log) keeps it, and takes no memory.
    ghost deeds: { Self → List Deed };

    /// What comes to the task: the first item on one of its channels, of the engine's choice; a record
    /// that is given up; or, for a source, a step of its own. `None` if nothing comes now. An item
    /// stays on its channel. The aligner says which inputs are held: of these no element is processed.
    fn next(&mut self, aligner: &Aligner) -> Result<Option<Next>, ChannelFault>
        ensures came { IfOk result (λ next. deeds self.new ≡ as_came next ++ deeds self.old) }
        ensures failed { OnErr result (deeds self.new ≡ deeds self.old) };

    /// Takes what came last from its channel, if it was on one.
    fn take(&mut self) -> Result<(), ChannelFault>
        ensures done { OnOk result (deeds self.new ≡ deed.Took ∷ deeds self.old) }
        ensures failed { OnErr result (IsUndone deed.Took (deeds self.old) (deeds self.new)) };

    /// Puts an element on an output. If no channel carries that output, as the one of a sink, nothing
    /// is to be done.
    fn send(&mut self, output: u32, element: u64) -> Result<(), ChannelFault>
        ensures done { OnOk result (deeds self.new ≡ deed.Sent output element ∷ deeds self.old) }
        ensures failed { OnErr result (IsUndone (deed.Sent output element) (deeds self.old) (deeds self.new)) };

    /// Puts the barrier of this record on each output.
    fn send_barrier(&mut self, id: CheckpointId) -> Result<(), ChannelFault>
        ensures done { OnOk result (deeds self.new ≡ deed.SentBarrier id ∷ deeds self.old) }
        ensures failed { OnErr result (IsUndone (deed.SentBarrier id) (deeds self.old) (deeds self.new)) };

    /// Puts the end on each output.
    fn send_end(&mut self) -> Result<(), ChannelFault>
        ensures done { OnOk result (deeds self.new ≡ deed.SentEnd ∷ deeds self.old) }
        ensures failed { OnErr result (IsUndone deed.SentEnd (deeds self.old) (deeds self.new)) };

    /// Acknowledges the record of this cut, by [`Cut::into_ack`]. Its snapshot is saved.
    fn acknowledge(&mut self, cut: Cut) -> Result<(), ChannelFault>
        ensures done { OnOk result (deeds self.new ≡ deed.Acknowledged cut ∷ deeds self.old) }
        ensures failed { OnErr result (IsUndone (deed.Acknowledged cut) (deeds self.old) (deeds self.new)) };

    /// Declines this record.
    fn decline(&mut self, id: CheckpointId) -> Result<(), ChannelFault>
        ensures done { OnOk result (deeds self.new ≡ deed.Declined id ∷ deeds self.old) }
        ensures failed { OnErr result (IsUndone (deed.Declined id) (deeds self.old) (deeds self.new)) };
}
