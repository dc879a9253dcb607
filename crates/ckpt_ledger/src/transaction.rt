//! What a sink wrote between two cuts.

ghost use Rattle.std.specs.Prelude.{◌≡◌};

use ckpt_ids::CheckpointId;
use std::marker::Model;

/// What a sink wrote between two cuts, under the record of the second. An element is a number: the
/// element itself, or the place where the sink keeps it.
#[derive(Debug)]
pub struct Transaction {
    id: u64,
    content: Vec<u64>,
}

impl Drop for Transaction {
    fn drop(self) {
        let Transaction { id: _, content: _ } = self;
    }
}

impl Model for Transaction {
    ghost use Rattle.ckpt_once.specs.Sinks.{Transaction};

    ghost Value = { Transaction };

    ghost view = { λ t. record { id = t.id; content = t.content.items } };
}

impl Transaction {
    /// What a sink finds in its snapshot, or where it publishes.
    pub fn new(id: CheckpointId, content: Vec<u64>) -> Transaction
        ensures { result ≡ record { id = id; content = content.items } }
    {
        Transaction { id: id.0, content }
    }

    /// The record that sealed it.
    pub fn id(&self) -> CheckpointId
        ensures { result ≡ self.now.id }
    {
        CheckpointId(self.id)
    }

    /// What was written, the oldest first.
    pub fn content(&self) -> &[u64]
        ensures { result.now ≡ self.now.content }
    {
        &self.content
    }
}
