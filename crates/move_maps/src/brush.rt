//! An item that is painted into the counts of a group, with what was looked up once of both.
//! The lattice and the item are looked at here alone: what is told of them speaks of the brush as one value.

ghost use Rattle.std.specs.Prelude.{◌≡◌, ◌<◌, ◌≤◌, ◌↔◌, ◌∷◌, [], length, slice_index, All, IsTrue};
ghost use Rattle.std.specs.Bool.{OnTrue};
ghost use Rattle.pcb_model.specs.declared.item.Probe.TheVariants as probe;
ghost use Rattle.pcb_model.specs.Bounds.{IsFit};
ghost use Rattle.pcb_model.specs.Pieces.{padstack_pieces as padstack_pieces_of, moved_piece, wire_piece};
ghost use Rattle.pcb_model.specs.Sound.{IsItemOf};
ghost use Rattle.route_lattice.specs.Mesh.{node_count, column as column_of, row as row_of, level as level_of};
ghost use Rattle.route_lattice.specs.Ways.{vias_of, has_copper as has_copper_on};
ghost use Rattle.move_maps.specs.Clear.{IsClearOf, WireKeeps};
ghost use Rattle.move_maps.specs.Margins.{ShutsSteps};
ghost use Rattle.move_maps.specs.Maps.{place_at};
ghost use Rattle.move_maps.specs.Paint.{turned as turned_by, IsBrush, arity_of};
ghost use Rattle.move_maps.specs.Spots.{IsCrossing, IsSpotOf, next_point as next_point_at};
ghost use Rattle.move_maps.specs.Windows.{IsPlaceOut, IsSpanOf};

use crate::clear::is_via_clear;
use crate::cover::cover;
use crate::group::Group;
use crate::links::{MOST_APART, windows_near};
use crate::margins::Margins;
use crate::span::{Span, row_span};
use crate::spot::{Crossing, Spot, next_point};
use crate::window::{Window, is_out_of_all};
use arrayvec::ArrayVec;
use geo_kernel::Point;
use pcb_model::pieces::padstack_pieces;
use pcb_model::{Design, Extent, Item, Piece};
use route_lattice::{Lattice, has_copper};
use std::marker::Model;

/// What becomes of the counts of the moves that an item shuts: one more where it comes, one fewer where it goes; where
/// it stays for good they are shut, with nothing to be counted.
#[derive(Clone, Copy)]
pub(crate) enum Stroke {
    Comes,
    Goes,
    Stays,
}

// The count of a move that an item shuts, once it is painted. 255 says that it was too large to count.
fn turned(stroke: Stroke, n: u8) -> u8
    ensures { result ≡ turned_by stroke n }
{
    match stroke {
        Stroke::Comes => n.saturating_add(1),
        Stroke::Goes if n < u8::MAX => n.saturating_sub(1),
        _ => u8::MAX,
    }
}

/// An item that comes, goes or stays, with the moves of a group's first net, and the windows of the nodes whose moves
/// the item may shut: one of all its copper, and those of its parts.
#[derive(Drop)]
pub(crate) struct Brush<'a> {
    lat: &'a Lattice,
    d: &'a Design,
    first: u32,
    arity: u32,
    item: &'a Item,
    margins: Margins,
    window: Window,
    windows: ArrayVec<Window, MOST_APART>,
    stroke: Stroke,
}

impl<'a> Model for Brush<'a> {
    ghost use Rattle.std.specs.Prelude.{◌≡◌};
    ghost use Rattle.move_maps.specs.Settings.{group_of};
    ghost use Rattle.move_maps.specs.Paint.{BrushOf, brush_of, arity_of, IsBrush};

    ghost Value = { BrushOf };

    ghost view = { λ s. brush_of (group_of s.d.now s.lat.now s.first) s.item.now s.stroke s.margins s.window
        s.windows.items };

    ghost invariant = { λ s. let b = brush_of (group_of s.d.now s.lat.now s.first) s.item.now s.stroke s.margins
        s.window s.windows.items in IsBrush b × (s.arity ≡ arity_of b) };
}

impl<'a> Brush<'a> {
    /// That of a group and an item.
    pub(crate) fn of(group: &Group<'a>, item: &'a Item, stroke: Stroke) -> Brush<'a>
        requires { IsItemOf group.now.d item.now }
        ensures group { result.group ≡ group.now }
        ensures item { result.item ≡ item.now }
        ensures stroke { result.stroke ≡ stroke }
    {
        let extent = Extent::of_item(item);
        let window = cover(group, extent);
        Brush {
            lat: group.lat,
            d: group.d,
            first: group.first,
            arity: group.arity,
            item,
            margins: Margins::of(group, item, extent),
            window,
            windows: windows_near(group, item, window),
            stroke,
        }
    }

    /// What was looked up is of the group and the item: a call that does nothing but say so.
    pub(crate) fn told(&self)
        ensures { IsBrush self.now }
    {
        let _ = &self.item;
    }

    /// How many nodes the lattice has.
    pub(crate) fn count(&self) -> u32
        ensures { result ≡ node_count self.now.group.lat }
    {
        self.lat.count()
    }

    /// How many x lines it has.
    pub(crate) fn columns(&self) -> usize
        ensures { result ≡ length self.now.group.lat.xs }
    {
        self.lat.xs().len()
    }

    /// How many y lines it has.
    pub(crate) fn rows(&self) -> usize
        ensures { result ≡ length self.now.group.lat.ys }
    {
        self.lat.ys().len()
    }

    /// How many signal layers it has.
    pub(crate) fn levels(&self) -> usize
        ensures { result ≡ length self.now.group.lat.layers }
    {
        self.lat.layers().len()
    }

    /// A signal layer.
    pub(crate) fn layer(&self, level: usize) -> u8
        requires { level < length self.now.group.lat.layers }
        ensures { result ≡ slice_index self.now.group.lat.layers level }
    {
        self.lat.layers().as_slice()[level]
    }

    /// The padstacks of the group's vias.
    pub(crate) fn vias(&self) -> &'a [u32]
        ensures { result.now ≡ vias_of self.now.group.d self.now.group.first }
    {
        self.d.nets.as_slice()[self.first as usize].vias.as_slice()
    }

    /// The pieces of a padstack, about the origin.
    pub(crate) fn pieces(&self, padstack: u32) -> &'a [Piece]
        ensures { result.now ≡ padstack_pieces_of self.now.group.d padstack }
    {
        padstack_pieces(self.d, padstack)
    }

    /// A node whose places are known.
    pub(crate) fn spot(&self, crossing: Crossing) -> Spot
        requires { IsCrossing self.now.group.lat crossing }
        ensures spot { IsSpotOf self.now.group.lat result }
        ensures node { result.node ≡ crossing.node }
    {
        Spot::of(self.lat, crossing)
    }

    /// Where the step of a direction leads, or None where there is no such step.
    pub(crate) fn step_end(&self, spot: &Spot, dir: u32) -> Option<Point>
        requires spot { IsSpotOf self.now.group.lat spot.now }
        requires dir { dir < 4 }
        ensures { result ≡ next_point_at self.now.group.lat spot.now.node dir }
    {
        next_point(self.lat, spot, dir)
    }

    /// How many moves a node has for the group.
    pub(crate) fn arity(&self) -> u32
        ensures { result ≡ arity_of self.now }
    {
        self.arity
    }

    /// The place of a move's count.
    pub(crate) fn place(&self, node: u32, i: usize) -> usize
        requires { i < arity_of self.now }
        ensures { let s = self.now.group in result ≡ place_at s.d s.lat s.first node i }
    {
        node as usize * self.arity as usize + i
    }

    /// What becomes of the count of a move that the item shuts.
    pub(crate) fn turned(&self, n: u8) -> u8
        ensures { result ≡ turned_by self.now.stroke n }
    {
        turned(self.stroke, n)
    }

    /// Whether a wire of the group between two points keeps its clearance from the item.
    pub(crate) fn step_keeps(&self, layer: u8, from: Point, to: Point) -> bool
        requires { IsFit (wire_piece layer self.now.margins.width (from ∷ to ∷ [])) }
        ensures { let s = self.now in
            IsTrue result ↔ WireKeeps s.margins.wires layer s.margins.width (from ∷ to ∷ []) s.item }
    {
        self.margins.step_keeps(layer, from, to, self.item)
    }

    /// Whether no wire from the point keeps the clearance, since a disc at the point doesn't.
    pub(crate) fn shuts_steps(&self, layer: u8, at: Point) -> bool
        requires { IsFit (wire_piece layer self.now.margins.width (at ∷ [])) }
        ensures { let s = self.now in OnTrue result (ShutsSteps s.margins.wires layer s.margins.width at s.item) }
    {
        self.margins.shuts_steps(layer, at, self.item)
    }

    /// Whether the via of a padstack at a point is clear of the item.
    pub(crate) fn via_clears(&self, padstack: u32, at: Point) -> bool
        requires { All (λ p. IsFit (moved_piece at p)) (padstack_pieces_of self.now.group.d padstack) }
        ensures { let s = self.now.group in
            IsTrue result ↔ IsClearOf s.d s.first (probe.Via padstack at) self.now.item }
    {
        let vias = self.margins.vias;
        is_via_clear(self.d, self.first, vias, padstack, at, self.item)
    }

    /// Whether the item has copper on a layer.
    pub(crate) fn is_on(&self, layer: u8) -> bool
        ensures { result ≡ has_copper_on self.now.item.pieces layer }
    {
        has_copper(self.item.pieces.as_slice(), layer)
    }

    /// The window of all the item's copper.
    pub(crate) fn window(&self) -> Window
        ensures { result ≡ self.now.window }
    {
        self.window
    }

    /// The columns that the windows hold in a row.
    pub(crate) fn span(&self, row: usize) -> Span
        ensures span { let s = self.now in
            IsSpanOf s.windows (length s.group.lat.xs) row result.left result.right }
        ensures ordered { result.left ≤ result.right }
    {
        row_span(self.windows.as_slice(), self.lat.xs().len(), row)
    }

    /// Whether a column and a row are out of all the windows.
    pub(crate) fn is_out(&self, column: usize, row: usize) -> bool
        ensures { IsTrue result ↔ All (λ w. IsPlaceOut w column row) self.now.windows }
    {
        is_out_of_all(self.windows.as_slice(), column, row)
    }
}
