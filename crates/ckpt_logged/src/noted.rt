//! What a coordinator was asked, for clauses alone.

ghost use Rattle.std.specs.Prelude.{◌≡◌};
ghost use Rattle.ckpt_logged.specs.Events.{Fence, Named, Plain};

use ckpt_ids::Call;
use ckpt_terms::FencedCall;
use std::marker::Model;
use std::snapshot::Snapshot;

/// What a coordinator was asked. A value exists only for a moment, for its snapshot.
#[derive(Drop)]
pub(crate) struct Noted {
    plain: Option<Snapshot<Call>>,
    named: Option<Snapshot<FencedCall>>,
    first_name: Snapshot<u64>,
}

impl Model for Noted {
    ghost use Rattle.std.specs.Option.{option_map};
    ghost use Rattle.ckpt_logged.specs.Events.{Event, event_of};

    ghost Value = { Event };

    ghost view = { λ n. event_of (option_map (λ s. s.value) n.plain) (option_map (λ s. s.value) n.named) n.first_name.value };
}

impl Noted {
    /// A call without a term.
    pub(crate) fn plain(call: &Call) -> Noted
        ensures { result ≡ Plain call.now }
    {
        Noted {
            plain: Some(Snapshot::of(call)),
            named: None,
            first_name: Snapshot::of(&0),
        }
    }

    /// A call of the layer of names.
    pub(crate) fn named(call: &FencedCall) -> Noted
        ensures { result ≡ Named call.now }
    {
        Noted {
            plain: None,
            named: Some(Snapshot::of(call)),
            first_name: Snapshot::of(&0),
        }
    }

    /// It was given names, from this one on.
    pub(crate) fn fence(first_name: u64) -> Noted
        ensures { result ≡ Fence first_name }
    {
        Noted {
            plain: None,
            named: None,
            first_name: Snapshot::of(&first_name),
        }
    }
}
