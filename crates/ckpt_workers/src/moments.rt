//! The moments of a timer.
ghost use Rattle.std.specs.Prelude.{◌≡◌, ◌<◌, ◌++◌, ℕ, List, [], ◌∷◌, IfNone, IfSome};

/// The moments at which a timer ticks, in milliseconds.
pub trait Moments {
    /// The moments that it has returned, in order.
    ghost given: { Self → List ℕ };

    /// The most moments that are left.
    ghost left: { Self → ℕ };

    /// The next moment, or `None` if none is left. May wait.
    fn next(&mut self) -> Option<u64>
        ensures given { IfSome result (λ now. given self.new ≡ given self.old ++ now ∷ []) }
        ensures fewer { IfSome result (λ now. left self.new < left self.old) }
        ensures last { IfNone result ((given self.new ≡ given self.old) × (left self.new ≡ 0)) };
}
