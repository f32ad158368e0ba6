//! A report says one thing alone: laws on calls that do nothing.

ghost use Rattle.std.specs.Prelude.{◌≡◌, ◌≤◌, ◌<◌, ◌^◌, ℕ, List as Seq, length, take};
ghost use Rattle.pcb_model.specs.declared.design.Design.{Design as TheDesign};
ghost use Rattle.report_form.specs.Form.{BeginsAs, IsTold, Says, Told, lines};

/// Of two reports that begin a text, by so many lines each, the one with fewer begins as the other does.
pub fn reports_begin_alike()
    ensures { (d : TheDesign) (firsts : Seq (Seq (Seq ℕ))) (t u : Told) (text : Seq ℕ) (n k : ℕ)
        → length d.nets < 2 ^ 64 → IsTold d firsts t → IsTold d firsts u → BeginsAs d t text n → BeginsAs d u text k
        → n ≤ k → take n (lines d t) ≡ take n (lines d u) }
{}

/// A text is the report of one thing that is told, and of no other.
pub fn reports_say_one()
    ensures { (d : TheDesign) (firsts : Seq (Seq (Seq ℕ))) (t u : Told) (text : Seq ℕ) → IsTold d firsts t
        → IsTold d firsts u → Says d t text → Says d u text → t ≡ u }
{}
