//! A list of past items that clauses alone read.

ghost use Rattle.std.specs.Prelude.{◌≡◌, [], ◌∷◌};

use std::marker::Model;
use std::snapshot::Snapshot;

// The newest item, and those before it. A value exists only for a moment, for its snapshot.
struct Link<T> {
    last: Snapshot<T>,
    before: Option<Snapshot<Link<T>>>,
}

impl<T> Model for Link<T> {
    ghost use Rattle.std.specs.Prelude.{List, [], ◌∷◌, length};
    ghost use Rattle.std.specs.Option.{option_map_or};
    ghost use Rattle.std.proofs.Common.{arith};

    ghost Value = { List T };

    ghost view = { λ l. l.last.value ∷ option_map_or (λ s. s.value) l.before [] };

    ghost size = { length };

    ghost size_decreases = { λ l h. Prim.grind (arith) };
}

/// A list that only clauses read: all items that were put in, the newest first. It keeps none of them
/// in memory. What an engine did is in such a list, for the clauses of the traits that it implements.
#[derive(Drop)]
pub struct Log<T> {
    links: Option<Snapshot<Link<T>>>,
}

impl<T> Model for Log<T> {
    ghost use Rattle.std.specs.{Prelude.List, Prelude.[], Option.option_map_or};

    ghost Value = { List T };

    ghost view = { λ p. option_map_or (λ s. s.value) p.links [] };
}

impl<T> Log<T> {
    /// An empty list.
    pub fn new() -> Log<T>
        ensures { result ≡ [] }
    {
        Log { links: None }
    }

    /// Puts the item at the front of the list. Takes no memory.
    pub fn push(&mut self, item: &T)
        ensures { self.new ≡ item.now ∷ self.old }
    {
        let link = Link {
            last: Snapshot::of(item),
            before: self.links.take(),
        };
        self.links = Some(Snapshot::of(&link));
        let Link { last: _, before: _ } = link;
    }
}
