//! A printed name is told by its bytes: a law on a call that does nothing.
#![tactic(auto)]

ghost use Rattle.std.specs.Prelude.{◌≡◌, ◌++◌, ℕ, List as Seq};
ghost use Rattle.pcb_model.specs.Sound.{IsPrintable};
ghost use Rattle.ses_writer.specs.Words.{is_bare_byte, spelled};
ghost use Rattle.told_words.specs.Stops.{Stops};

/// Spelled names that begin one text, each before a byte that needs quotes, are one name, and the same follows them.
pub fn spelled_names_tell()
    ensures { (name other r t : Seq ℕ) → IsPrintable name → IsPrintable other → Stops is_bare_byte r
        → Stops is_bare_byte t → spelled name ++ r ≡ spelled other ++ t → (name ≡ other) × (r ≡ t) }
{}
