//! Sinks: takers of items.

/// Takes the items of type `X` of a walk, one after another: a counter, a writer, a search for a fault.
pub trait Sink<X> {
    ghost use Rattle.std.specs.Prelude.{[], ◌∷◌};
    ghost use Rattle.wild_words.specs.Runs.{SinkRun};

    /// Why an item is refused.
    type Error: Drop;

    /// The relation of the state before and after an item that is taken.
    ghost goes: { Self → X → Self → Type 0 };

    /// The relation of the state before an item that is refused, the reason, and the state after.
    ghost refuses: { Self → X → Self.Error → Self → Type 0 };

    /// Takes an item, or refuses it.
    fn take(&mut self, item: X) -> Result<(), Self::Error>
        ensures { SinkRun goes refuses self.old (item ∷ []) result self.new };
}
