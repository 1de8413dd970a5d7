//! What a turn lock keeps.
ghost use Rattle.std.specs.Prelude.{ℕ, List};

/// A value that stands for a list of entries.
pub trait Kept {
    type Entry;

    // The entries, the first first.
    ghost entries: { Self → List Self.Entry };

    // The number of the pass that made an entry.
    ghost caller: { Self.Entry → ℕ };

    // What no turn changes.
    ghost fixed: { Self → List ℕ };
}
