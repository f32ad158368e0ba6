//! A bound from below on what is left of a walk, by which a search is guided.
//! A bound changes which nodes a search visits, and never what it answers.

ghost use Rattle.std.specs.Prelude.{◌≡◌, ℕ};

/// A bound from below on the price of what is left of a walk from a node to a goal.
pub trait Bound {
    /// The bound at each node.
    ghost low_of: { Self → ℕ → ℕ };

    /// The bound at the node.
    fn low(&self, node: u32) -> u64
        ensures { result ≡ low_of self.now node };
}

/// The bound 0 at each node.
pub struct NoBound;

impl Bound for NoBound {
    ghost low_of = { λ _ _. 0 };

    fn low(&self, _node: u32) -> u64 {
        0
    }
}
