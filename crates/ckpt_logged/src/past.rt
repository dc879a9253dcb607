//! A list of past items that clauses alone read.

ghost use Rattle.std.specs.Prelude.{◌≡◌, [], ◌∷◌, ◌++◌};

use crate::noted::Noted;
use std::marker::Model;
use std::mem;
use std::snapshot::Snapshot;

// All items so far. A value exists only for a moment, for its snapshot.
struct Link {
    before: Snapshot<Option<Link>>,
    last: Snapshot<Noted>,
}

impl Model for Link {
    ghost use Rattle.std.specs.Prelude.{List, [], ◌∷◌, ◌++◌, length};
    ghost use Rattle.std.specs.Option.{option_map_or};
    ghost use Rattle.std.proofs.Common.{arith, length-append};
    ghost use Rattle.ckpt_logged.specs.Events.{Event};

    ghost Value = { List Event };

    ghost view = { λ l. option_map_or (λ xs. xs) l.before.value [] ++ l.last.value ∷ [] };

    ghost size = { length };

    ghost size_decreases = { λ l h. Prim.grind (arith, length-append) };
}

/// A list that only clauses read: all items that were put in. It keeps none of them in memory.
#[derive(Drop)]
pub(crate) struct Past {
    links: Snapshot<Option<Link>>,
}

impl Model for Past {
    ghost use Rattle.std.specs.{Prelude.List, Prelude.[], Option.option_map_or};
    ghost use Rattle.ckpt_logged.specs.Events.{Event};

    ghost Value = { List Event };

    ghost view = { λ p. option_map_or (λ xs. xs) p.links.value [] };
}

impl Past {
    /// An empty list.
    pub(crate) fn new() -> Past
        ensures { result ≡ [] }
    {
        Past {
            links: Snapshot::of(&None),
        }
    }

    /// Puts the item at the end of the list. Takes no memory.
    pub(crate) fn push(&mut self, item: &Noted)
        ensures { self.new ≡ self.old ++ item.now ∷ [] }
    {
        let before = mem::replace(&mut self.links, Snapshot::of(&None));
        let last = Snapshot::of(item);
        let links = Some(Link { before, last });
        self.links = Snapshot::of(&links);
        if let Some(Link { before: _, last: _ }) = links {}
    }
}
