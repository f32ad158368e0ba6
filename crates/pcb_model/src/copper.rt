//! Copper: items by id, and searches among them.
//! A board's tiles, its snapshots and the plain list all answer these calls alike.

ghost use Rattle.std.specs.Prelude.{◌≡◌, ℕ, ◌+◌, ◌≤◌, ◌<◌, ◌^◌, List, All, Contains, Some, None, MatchOption};
ghost use Rattle.std.specs.Bool.{OnTrue, OnFalse};
ghost use Rattle.std.specs.Option.{option_copied};
ghost use Rattle.pcb_model.specs.declared.item.Item.{Item as OneItem};
ghost use Rattle.pcb_model.specs.declared.item.Probe.{Probe as OneProbe};
ghost use Rattle.pcb_model.specs.declared.design.Design.{Design as TheDesign};
ghost use Rattle.pcb_model.specs.Bounds.{IsItemFit, IsProbeFit};
ghost use Rattle.pcb_model.specs.Pairs.{Agrees, ProbeAgrees, AreTouching};
ghost use Rattle.pcb_model.specs.Sound.{Serves};
ghost use Rattle.pcb_model.specs.Copper.{Ascends, Finds, IsFirstFrom, IsBlocked, IsUnblocked};

use crate::uncounted::{block_by, clash_by, is_clear_by, touch_by};
use crate::{Design, Item, Probe, Steps};
use std::marker::Brand;
use std::sync::ledger::{Blank, Ledger};

/// Items by id, and searches among them. None of the calls takes memory.
pub trait Copper {
    /// The items, in order of id.
    ghost items: { Self → List OneItem };

    /// Whether the copper serves the design: what its calls require to be asked about it.
    ghost serves: { Self → TheDesign → Type 0 };

    /// How many pair tests a search for what disagrees with an item takes at most.
    ghost ticks: { Self → OneItem → ℕ };

    /// How many pair tests a search for what touches an item takes at most.
    ghost touch_ticks: { Self → OneItem → ℕ };

    /// How many pair tests a search for what is in the way of a probe takes at most. The design says what copper
    /// a via's padstack is.
    ghost probe_ticks: { Self → TheDesign → OneProbe → ℕ };

    /// The items stand in order of id, so no two have one id: a call that does nothing but say so.
    fn in_order(&self)
        ensures ascends { Ascends (items self.now) }
        ensures ids { All (λ b. b.id < 2 ^ 64) (items self.now) };

    /// The item of this id, or None exactly where there is none.
    fn item(&self, id: u64) -> Option<&Item>
        ensures { MatchOption (option_copied result) (All (λ b. b.id ≡ id → ⊥) (items self.now))
            (λ b. Contains (items self.now) b × (b.id ≡ id)) };

    /// The item of the least id at or above `from`, or None exactly where there is none.
    fn next_item(&self, from: u64) -> Option<&Item>
        ensures { MatchOption (option_copied result) (All (λ b. b.id < from) (items self.now))
            (IsFirstFrom from (items self.now)) };

    /// The least id at or above `from` of an item that disagrees with `a`, other than the one with the id of `a`,
    /// or None exactly where there is none.
    fn next_clash<L: Ledger>(
        &self,
        d: &Design,
        a: &Item,
        from: u64,
        steps: &mut Steps<L>,
    ) -> Option<u64>
        requires serves { serves self.now d.now }
        requires a_fits { IsItemFit a.now }
        ensures finds { Finds (λ b. Agrees d.now a.now b → ⊥) (Agrees d.now a.now) from (Some a.now.id) (items self.now)
            result }
        ensures cost { steps.new ≤ steps.old + ticks self.now a.now };

    /// The least id at or above `from` of an item that disagrees with what the probe of the net stands for,
    /// or None exactly where there is none.
    fn next_block<L: Ledger>(
        &self,
        d: &Design,
        net: u32,
        p: &Probe,
        from: u64,
        steps: &mut Steps<L>,
    ) -> Option<u64>
        requires serves { serves self.now d.now }
        requires p_fits { IsProbeFit d.now p.now }
        ensures finds { Finds (λ b. ProbeAgrees d.now net p.now b → ⊥) (ProbeAgrees d.now net p.now) from None
            (items self.now) result }
        ensures cost { steps.new ≤ steps.old + probe_ticks self.now d.now p.now };

    /// Whether some item disagrees with what the probe of the net stands for: the search ends at the first that it
    /// meets.
    fn is_blocked<L: Ledger>(&self, d: &Design, net: u32, p: &Probe, steps: &mut Steps<L>) -> bool
        requires serves { serves self.now d.now }
        requires p_fits { IsProbeFit d.now p.now }
        ensures yes { OnTrue result (IsBlocked d.now net p.now (items self.now)) }
        ensures no { OnFalse result (IsUnblocked d.now net p.now (items self.now)) }
        ensures cost { steps.new ≤ steps.old + probe_ticks self.now d.now p.now }
    {
        self.next_block(d, net, p, 0, steps).is_some()
    }

    /// The least id at or above `from` of an item that has the net of `a` and touches it, other than the one
    /// with the id of `a`, or None exactly where there is none.
    fn next_touch<L: Ledger>(&self, a: &Item, from: u64, steps: &mut Steps<L>) -> Option<u64>
        requires a_fits { IsItemFit a.now }
        ensures finds { Finds (AreTouching a.now) (λ b. AreTouching a.now b → ⊥) from (Some a.now.id)
            (items self.now) result }
        ensures cost { steps.new ≤ steps.old + touch_ticks self.now a.now };

    /// What `next_clash` answers, where no step is counted.
    final fn clash_from(&self, d: &Design, a: &Item, from: u64) -> Option<u64>
        requires serves { serves self.now d.now }
        requires a_fits { IsItemFit a.now }
        ensures { Finds (λ b. Agrees d.now a.now b → ⊥) (Agrees d.now a.now) from (Some a.now.id) (items self.now)
            result }
    {
        clash_by::<Self, Brand>(self, d, a, from, Blank::new(1))
    }

    /// What `next_block` answers, where no step is counted.
    final fn block_from(&self, d: &Design, net: u32, p: &Probe, from: u64) -> Option<u64>
        requires serves { serves self.now d.now }
        requires p_fits { IsProbeFit d.now p.now }
        ensures { Finds (λ b. ProbeAgrees d.now net p.now b → ⊥) (ProbeAgrees d.now net p.now) from None
            (items self.now) result }
    {
        block_by::<Self, Brand>(self, d, net, p, from, Blank::new(1))
    }

    /// Whether all items agree with what the probe of the net stands for, as `is_blocked` answers. No step is counted.
    final fn is_clear(&self, d: &Design, net: u32, p: &Probe) -> bool
        requires serves { serves self.now d.now }
        requires p_fits { IsProbeFit d.now p.now }
        ensures yes { OnTrue result (IsUnblocked d.now net p.now (items self.now)) }
        ensures no { OnFalse result (IsBlocked d.now net p.now (items self.now)) }
    {
        is_clear_by::<Self, Brand>(self, d, net, p, Blank::new(1))
    }

    /// What `next_touch` answers, where no step is counted.
    final fn touch_from(&self, a: &Item, from: u64) -> Option<u64>
        requires a_fits { IsItemFit a.now }
        ensures { Finds (AreTouching a.now) (λ b. AreTouching a.now b → ⊥) from (Some a.now.id) (items self.now)
            result }
    {
        touch_by::<Self, Brand>(self, a, from, Blank::new(1))
    }

    /// Copper that serves a design holds its fixed items, and all its items fit the design.
    ghost serving: { (c : Self) → (d : TheDesign) → serves c d → Serves (items c) d };
}
