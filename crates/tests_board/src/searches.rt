//! What searches among the fixed items of a board answer, and how one is taken out.
//! Lengths in the texts are in um.

ghost use Rattle.std.specs.Prelude.{◌≡◌, ◌<◌};
ghost use Rattle.pcb_model.specs.Bounds.{IsItemFit, IsProbeFit};
ghost use Rattle.pcb_model.specs.Sound.{IsSound, Serves};

use crate::board::{Says, fixed, held, probe};
use crate::copper::fixed_plain;
use pcb_model::{Copper, Design, Item, PlainCopper, Probe, Steps};
use std::alloc::Global;
use std::marker::Brand;
use std::sync::ledger::{Blank, Ledger};

/// The least ids from `from` that clash with the item, that block the probe of net 0, and that touch the item.
fn search_counting<L: Ledger>(
    copper: &PlainCopper,
    d: &Design,
    a: &Item,
    p: &Probe,
    from: u64,
    blank: Blank,
) -> [Option<u64>; 3]
    requires name { blank.name ≡ L.name }
    requires parts { blank.parts ≡ L.parts }
    requires whole { 0 < blank.parts }
    requires serves { Serves copper.now d.now }
    requires a_fits { IsItemFit a.now }
    requires p_fits { IsProbeFit d.now p.now }
{
    let mut steps: Steps<L> = Steps::new(blank);
    [
        copper.next_clash(d, a, from, &mut steps),
        copper.next_block(d, 0, p, from, &mut steps),
        copper.next_touch(a, from, &mut steps),
    ]
}

fn search(copper: &PlainCopper, d: &Design, a: &Item, p: &Probe, from: u64) -> [Option<u64>; 3]
    requires serves { Serves copper.now d.now }
    requires a_fits { IsItemFit a.now }
    requires p_fits { IsProbeFit d.now p.now }
{
    search_counting::<Brand>(copper, d, a, p, from, Blank::new(1))
}

/// Level wires: free and 1 and 4 of GND at one place; 2 of VCC far from it, and 3 of VCC and 5 without a net too near.
const WIRES: &str = "(pcb wires
  (resolution um 10)
  (structure
    (layer F (type signal))
    (boundary (rect pcb 0 0 100000 100000))
    (rule (width 200) (clearance 200)))
  (network (net GND) (net VCC))
  (wiring
    (wire (path F 200 10000 10000 20000 10000) (net GND))
    (wire (path F 200 10000 10000 20000 10000) (net GND) (type fix))
    (wire (path F 200 10000 20000 20000 20000) (net VCC) (type fix))
    (wire (path F 200 10000 10300 20000 10300) (net VCC) (type fix))
    (wire (path F 200 10000 10000 20000 10000) (net GND) (type fix))
    (wire (path F 200 10000 10300 20000 10300))))";

fn search_at(alloc: Global, d: &Design, item: usize, from: u64) -> Option<[Option<u64>; 3]>
    requires { IsSound d.now }
{
    let a = fixed(d, item)?;
    let p = probe(d, 0)?;
    let copper = fixed_plain(alloc, d).ok()?;
    Some(search(&copper, d, a, &p, from))
}

/// What a search from an id answers for a fixed item, and for the free wire.
struct Finds(usize, u64, [Option<u64>; 3]);

impl Says for Finds {
    fn holds(&self, alloc: Global, d: &Design) -> bool {
        search_at(alloc, d, self.0, self.1) == Some(self.2)
    }
}

const FOUND: [Finds; 8] = [
    Finds(1, 0, [Some(3), Some(3), Some(4)]),
    Finds(1, 3, [Some(3), Some(3), Some(4)]),
    Finds(1, 4, [Some(5), Some(5), Some(4)]),
    Finds(1, 6, [None, None, None]),
    Finds(3, 2, [Some(4), Some(3), None]),
    Finds(4, 0, [Some(3), Some(3), Some(1)]),
    Finds(5, 4, [Some(4), Some(5), None]),
    Finds(5, 5, [None, Some(5), None]),
];

/// Whether an item of this id is taken out of the copper of the fixed items, so that so many are left.
struct TakesOut(u64, usize);

impl Says for TakesOut {
    fn holds(&self, alloc: Global, d: &Design) -> bool {
        let Ok(fixed) = fixed_plain(alloc, d) else {
            return false;
        };
        let mut copper = fixed;
        copper.in_order();
        match copper.remove(self.0) {
            Some(b) => b.id == self.0 && copper.items().len() == self.1,
            None => false,
        }
    }
}

#[test]
fn a_search_answers_the_least_id_or_none_and_an_item_is_taken_out(rt: HostRuntime) {
    assert_eq!(rt; held(rt.alloc(), WIRES, &FOUND), 8);
    assert_eq!(rt; held(rt.alloc(), WIRES, &[TakesOut(2, 5)]), 1);
}
