//! Rules of ties: which of several least walks is answered.
//! A rule changes no price, and no contract speaks of what it gains: a search checks each move that a rule has it take.

ghost use Rattle.std.specs.Prelude.{◌≡◌, ◌<◌, true, false};
ghost use Rattle.route_lattice.specs.Mesh.{node_count, level};
ghost use Rattle.wave_search.specs.Directions.{heading, turns, is_against, quarter, direction_cost};

use route_lattice::{Lattice, Move};

/// A rule of ties. Each move of a walk has a cost beside its price, and of the least walks one whose costs sum to
/// little is taken.
pub trait Ties {
    /// Whether the rule tells any two walks apart. Where it doesn't, a search ends at the first goal.
    fn tells(&self) -> bool;

    /// The cost of a move of that price from a node, before a move of that heading (at its end a walk leads elsewhere).
    fn cost(&self, node: u32, m: Move, price: u64, next: Heading) -> u64;
}

/// The rule that tells no two walks apart.
pub struct NoTies;

impl Ties for NoTies {
    fn tells(&self) -> bool
        ensures { result ≡ false }
    {
        false
    }

    fn cost(&self, _node: u32, _m: Move, _price: u64, _next: Heading) -> u64
        ensures { result ≡ 0 }
    {
        0
    }
}

/// What a corner costs, in nm.
const CORNER: u64 = 20_000;

/// Which way a move leads: along x, along y, or neither.
#[derive(Clone, Copy)]
pub enum Heading {
    Across,
    Up,
    Elsewhere,
}

/// The heading of a move: a step of direction 0 or 1 leads along x, one of 2 or 3 along y, and any other move
/// elsewhere.
pub fn heading_of(m: Move) -> Heading
    ensures { result ≡ heading m }
{
    match m {
        Move::Step { dir } => {
            if dir < 2 {
                Heading::Across
            } else if dir < 4 {
                Heading::Up
            } else {
                Heading::Elsewhere
            }
        }
        Move::Via { .. } => Heading::Elsewhere,
    }
}

/// Whether a walk turns a corner between moves of these headings.
fn is_corner(here: Heading, there: Heading) -> bool
    ensures { result ≡ turns here there }
{
    match here {
        Heading::Across => matches!(there, Heading::Up),
        Heading::Up => matches!(there, Heading::Across),
        Heading::Elsewhere => false,
    }
}

/// Whether a heading is not the one that a layer at that place among the signal layers prefers.
fn leads_against(place: usize, here: Heading) -> bool
    ensures { result ≡ is_against place here }
{
    match here {
        Heading::Across => place % 2 != 0,
        Heading::Up => place % 2 == 0,
        Heading::Elsewhere => false,
    }
}

/// A number from 0 to 3 that a pattern gives a node, as if it were drawn: from the square of the high half of their
/// product. Pattern 0 gives each node 0.
fn quarter_of(pattern: u32, node: u32) -> u64
    ensures value { result ≡ quarter pattern node }
    ensures small { result < 4 }
{
    let high = node.wrapping_mul(pattern) / 65_536;
    u64::from(high * high / 16_384 % 4)
}

/// Few corners, and on each signal layer a preferred direction: a step costs its length where it leads along y on
/// the first signal layer of a lattice, the third and so on, or along x on the others, and a corner as much as 20 um of
/// such steps. Below that a pattern tells walks apart: a move costs 0 to 3 nm more by the node that it leaves.
#[derive(Drop)]
pub struct LayerDirections<'a> {
    pub lat: &'a Lattice,
    pub pattern: u32,
}

impl LayerDirections<'_> {
    /// The place of a node's layer among the signal layers.
    fn place(&self, node: u32) -> usize
        ensures { node < node_count self.now.lat.now → result ≡ level self.now.lat.now node }
    {
        let width = self.lat.xs().len();
        let height = self.lat.ys().len();
        if width == 0 || height == 0 {
            return 0;
        }
        node as usize / width / height
    }
}

impl Ties for LayerDirections<'_> {
    fn tells(&self) -> bool
        ensures { result ≡ true }
    {
        true
    }

    fn cost(&self, node: u32, m: Move, price: u64, next: Heading) -> u64
        ensures { node < node_count self.now.lat.now
            → result ≡ direction_cost self.now.lat.now self.now.pattern node m price next }
    {
        let here = heading_of(m);
        let step = if leads_against(self.place(node), here) {
            price
        } else {
            0
        };
        let corner = if is_corner(here, next) { CORNER } else { 0 };
        step.saturating_add(corner + quarter_of(self.pattern, node))
    }
}
