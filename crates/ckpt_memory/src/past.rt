//! A list of past items that clauses alone read.

ghost use Rattle.std.specs.Prelude.{◌≡◌, [], ◌∷◌, ◌++◌};

use std::marker::Model;
use std::snapshot::Snapshot;

// All items so far. A value exists only for a moment, for its snapshot.
struct Link<T> {
    before: Option<Snapshot<Link<T>>>,
    last: Snapshot<T>,
}

impl<T> Model for Link<T> {
    ghost use Rattle.std.specs.Prelude.{List, [], ◌∷◌, ◌++◌, length};
    ghost use Rattle.std.specs.Option.{option_map_or};
    ghost use Rattle.std.proofs.Common.{arith, length-append};

    ghost Value = { List T };

    ghost view = { λ l. option_map_or (λ s. s.value) l.before [] ++ l.last.value ∷ [] };

    ghost size = { length };

    ghost size_decreases = { λ l h. Prim.grind (arith, length-append) };
}

/// A list that only clauses read: all items that were put in. It keeps none of them in memory.
#[derive(Drop)]
pub(crate) struct Past<T> {
    links: Option<Snapshot<Link<T>>>,
}

impl<T> Model for Past<T> {
    ghost use Rattle.std.specs.Prelude.{List, []};
    ghost use Rattle.std.specs.Option.{option_map_or};

    ghost Value = { List T };

    ghost view = { λ p. option_map_or (λ s. s.value) p.links [] };
}

impl<T> Past<T> {
    /// An empty list.
    pub(crate) fn new() -> Past<T>
        ensures { result ≡ [] }
    {
        Past { links: None }
    }

    /// Puts the item at the end of the list. Takes no memory.
    pub(crate) fn push(&mut self, item: &T)
        ensures { self.new ≡ self.old ++ item.now ∷ [] }
    {
        let link = Link {
            before: self.links.take(),
            last: Snapshot::of(item),
        };
        self.links = Some(Snapshot::of(&link));
        let Link { before: _, last: _ } = link;
    }
}
