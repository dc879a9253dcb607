//! Orders: what a task has to acknowledge.
ghost use Rattle.std.specs.Prelude.{◌≡◌, IfOk, IsOk, ◌↔◌};
ghost use Rattle.ckpt_ids.specs.declared.call.Call.TheVariants.{Ack};
ghost use Rattle.ckpt_workers.specs.Orders.{IsOrder};

use ckpt_core::test_files;
use ckpt_ids::{Call, CheckpointId, Files, MOMENTS_END, SubtaskId};
use std::marker::Model;
use thiserror::Error;

/// The acknowledgement would be refused in every state of the coordinator.
#[derive(Clone, Copy, Debug, PartialEq, Eq, Error)]
#[error("an acknowledgement that no coordinator takes")]
pub struct BadOrder;

/// What a task has to acknowledge: the files of its part of a checkpoint or savepoint.
///
/// Contracts see an order as its call. The type says that the call is not refused for its moment,
/// for the number of its files, or for a repeated file. That also holds for an order that comes
/// through a channel.
#[derive(Debug, Drop)]
pub struct Order {
    now: u64,
    id: CheckpointId,
    subtask: SubtaskId,
    fresh: Files,
    reused: Files,
}

impl Model for Order {
    ghost use Rattle.ckpt_ids.specs.declared.call.Call.{Call};
    ghost use Rattle.ckpt_ids.specs.declared.call.Call.TheVariants.{Ack};
    ghost use Rattle.ckpt_workers.specs.Orders.{IsOrder};

    ghost Value = { Call };

    ghost view = { λ o. Ack o.now o.id o.subtask o.fresh o.reused };

    ghost invariant = { λ o. IsOrder (Ack o.now o.id o.subtask o.fresh o.reused) };
}

impl Order {
    /// An order for this acknowledgement. `now` is in milliseconds. Takes no memory.
    ///
    /// Returns [`BadOrder`] exactly if the moment is not below [`MOMENTS_END`], if there are more
    /// than [`MOST_FILES`](ckpt_ids::MOST_FILES) files, or if a file is named twice. Then the
    /// arguments are lost.
    pub fn new(
        now: u64,
        id: CheckpointId,
        subtask: SubtaskId,
        fresh: Files,
        reused: Files,
    ) -> Result<Order, BadOrder>
        ensures order { IfOk result (λ order. order ≡ Ack now id subtask fresh reused) }
        ensures good { IsOk result ↔ IsOrder (Ack now id subtask fresh reused) }
    {
        if now >= MOMENTS_END || test_files(&fresh, &reused).is_err() {
            return Err(BadOrder);
        }
        Ok(Order {
            now,
            id,
            subtask,
            fresh,
            reused,
        })
    }

    /// The call of the order.
    pub(crate) fn into_call(self) -> Call
        ensures call { result ≡ self }
        ensures order { IsOrder result }
    {
        let Order {
            now,
            id,
            subtask,
            fresh,
            reused,
        } = self;
        Call::Ack {
            now,
            id,
            subtask,
            fresh,
            reused,
        }
    }
}
