//! Searches among copper with a counter of their own: what they count is told to nobody.

ghost use Rattle.std.specs.Prelude.{◌≡◌, ◌<◌, Some, None};
ghost use Rattle.std.specs.Bool.{OnTrue, OnFalse};
ghost use Rattle.pcb_model.specs.Bounds.{IsItemFit, IsProbeFit};
ghost use Rattle.pcb_model.specs.Pairs.{Agrees, ProbeAgrees, AreTouching};
ghost use Rattle.pcb_model.specs.Copper.{Finds, IsBlocked, IsUnblocked};

use crate::{Copper, Design, Item, Probe, Steps};
use std::sync::ledger::{Blank, Ledger};

pub(crate) fn clash_by<C: Copper, L: Ledger>(
    c: &C,
    d: &Design,
    a: &Item,
    from: u64,
    blank: Blank,
) -> Option<u64>
    requires name { blank.name ≡ L.name }
    requires parts { blank.parts ≡ L.parts }
    requires whole { 0 < blank.parts }
    requires serves { C.serves c.now d.now }
    requires a_fits { IsItemFit a.now }
    ensures { Finds (λ b. Agrees d.now a.now b → ⊥) (Agrees d.now a.now) from (Some a.now.id) (C.items c.now) result }
{
    let mut steps: Steps<L> = Steps::new(blank);
    c.next_clash(d, a, from, &mut steps)
}

pub(crate) fn block_by<C: Copper, L: Ledger>(
    c: &C,
    d: &Design,
    net: u32,
    p: &Probe,
    from: u64,
    blank: Blank,
) -> Option<u64>
    requires name { blank.name ≡ L.name }
    requires parts { blank.parts ≡ L.parts }
    requires whole { 0 < blank.parts }
    requires serves { C.serves c.now d.now }
    requires p_fits { IsProbeFit d.now p.now }
    ensures { Finds (λ b. ProbeAgrees d.now net p.now b → ⊥) (ProbeAgrees d.now net p.now) from None
        (C.items c.now) result }
{
    let mut steps: Steps<L> = Steps::new(blank);
    c.next_block(d, net, p, from, &mut steps)
}

pub(crate) fn is_clear_by<C: Copper, L: Ledger>(
    c: &C,
    d: &Design,
    net: u32,
    p: &Probe,
    blank: Blank,
) -> bool
    requires name { blank.name ≡ L.name }
    requires parts { blank.parts ≡ L.parts }
    requires whole { 0 < blank.parts }
    requires serves { C.serves c.now d.now }
    requires p_fits { IsProbeFit d.now p.now }
    ensures yes { OnTrue result (IsUnblocked d.now net p.now (C.items c.now)) }
    ensures no { OnFalse result (IsBlocked d.now net p.now (C.items c.now)) }
{
    let mut steps: Steps<L> = Steps::new(blank);
    !c.is_blocked(d, net, p, &mut steps)
}

pub(crate) fn touch_by<C: Copper, L: Ledger>(
    c: &C,
    a: &Item,
    from: u64,
    blank: Blank,
) -> Option<u64>
    requires name { blank.name ≡ L.name }
    requires parts { blank.parts ≡ L.parts }
    requires whole { 0 < blank.parts }
    requires a_fits { IsItemFit a.now }
    ensures { Finds (AreTouching a.now) (λ b. AreTouching a.now b → ⊥) from (Some a.now.id) (C.items c.now) result }
{
    let mut steps: Steps<L> = Steps::new(blank);
    c.next_touch(a, from, &mut steps)
}
