//! A law of printed lengths, on a call that does nothing.
//! Other crates cite it by what this call ensures.

ghost use Rattle.std.specs.Prelude.{ℕ};
ghost use Rattle.board_picture.specs.Words.{length_word};
ghost use Rattle.board_picture.specs.Exact.{IsExact};

/// A printed length is exactly the length.
pub fn lengths_are_exact()
    ensures { (nm : ℕ) → IsExact nm (length_word nm) }
{}
