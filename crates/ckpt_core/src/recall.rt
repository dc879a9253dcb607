//! What the parts and their values ensure at each moment. These functions do nothing: a caller needs what
//! their contracts say, and the check forgets it between two calls.
ghost use Rattle.ckpt_ids.specs.Configuration.{IsWithinLimits};
ghost use Rattle.ckpt_pending.specs.Acknowledging.{IsDone};
ghost use Rattle.ckpt_core.specs.Inside.RecordFacts.{IsIn, IsInOrder, IsPending, IsStored, Record};
ghost use Rattle.ckpt_core.specs.Inside.Starting.{use_before};

use crate::parts::Parts;
use ckpt_ids::Config;
use ckpt_pending::{Done, Pending};

impl Parts {
    /// The pending records are not done, and the store's are as it keeps them.
    pub(crate) fn recall_groups(&self)
        ensures pending { (r : Record) → IsIn r self.now.pending → IsPending r }
        ensures stored { IsStored self.now.store }
    {
        self.pending.recall();
        self.recall_store();
    }

    /// The store's records are as it keeps them.
    pub(crate) fn recall_store(&self)
        ensures { IsStored self.now.store }
    {
        let _ = self.store.savepoints();
    }

    /// The uses are in order.
    pub(crate) fn recall_uses(&self)
        ensures { IsInOrder use_before self.now.registry }
    {
        let _ = self.registry.present();
    }
}

/// A configuration is within its limits.
pub(crate) fn recall_limits(config: &Config)
    ensures { IsWithinLimits config.now }
{
    let _ = config.retained();
}

/// A pending record is not done, and each of its acknowledgements comes from a subtask of its shape.
pub(crate) fn recall_pending(pending: &Pending)
    ensures { IsPending pending.now }
{
    let _ = pending.id();
}

/// A done record has one acknowledgement of each subtask.
pub(crate) fn recall_done(done: &Done)
    ensures { IsDone done.now }
{
    let _ = done.id();
}
