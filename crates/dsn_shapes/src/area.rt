//! Keepouts and boundaries, and the shapes of padstacks.
//! A boundary, and a keepout with windows, is one area whose loops are those of its shapes.

ghost use Rattle.std.specs.Prelude.{◌≡◌, ◌-◌, ◌∷◌, fold, map, max, filter, codes, count_by, sum_by, IfOk, OnOk};
ghost use Rattle.std.specs.List.{flat_map};
ghost use Rattle.dsn_tree.specs.Heads.{is_headed, items_of};
ghost use Rattle.dsn_shapes.specs.declared.shape.Rim.{Rim as TheRim};
ghost use Rattle.dsn_shapes.specs.Lists.{capped};
ghost use Rattle.dsn_shapes.specs.Refusals.{noted};
ghost use Rattle.dsn_shapes.specs.Shapes.{area_of, ban_notes, ban_refusals, ban_shape, first_layers, notes_beside};
ghost use Rattle.dsn_shapes.specs.Shapes.{windows_of};

use crate::known::form_heads;
use crate::lists::{at_of, is_word};
use crate::part::{Part, read_each};
use crate::parts::{BanShape, Layer, LayerShape};
use crate::refusal::{Refusal, note, refused};
use crate::shape::{Rim, empty_rim, form_in, note_held_shape, note_loop};
use crate::table::BAD_FORM;
use crate::trees::Trees;
use dsn_tree::{Tree, is_headed, items};
use dsn_units::Scale;
use geo_kernel::{List, Spine};
use std::alloc::{AllocError, Global};

/// The shapes of padstacks, each the first form of its list.
#[derive(Drop)]
pub struct Shapes<'a> {
    pub scale: Scale,
    pub layers: &'a List<Layer>,
}

impl<'a> Part<LayerShape> for Shapes<'a> {
    ghost use Rattle.dsn_shapes.specs.Shapes.{held_shape, refusals_in, shape_refusals};

    ghost refusals = { λ p t. refusals_in (shape_refusals p.scale.nm p.layers.now) t };

    ghost value = { λ p t. held_shape p.scale.nm p.layers.now t };

    fn read(
        &self,
        alloc: Global,
        first: &mut Option<Refusal>,
        tree: &Tree,
    ) -> Result<LayerShape, AllocError> {
        note_held_shape(alloc, first, tree, self.scale, self.layers)
    }
}

// Forms as loops.
#[derive(Drop)]
struct Loops<'a> {
    scale: Scale,
    layers: &'a List<Layer>,
}

impl<'a> Part<Rim> for Loops<'a> {
    ghost use Rattle.dsn_shapes.specs.Shapes.{loop_of, loop_refusals};

    ghost refusals = { λ p t. loop_refusals p.scale.nm p.layers.now t };

    ghost value = { λ p t. loop_of p.scale.nm p.layers.now t };

    fn read(
        &self,
        alloc: Global,
        first: &mut Option<Refusal>,
        tree: &Tree,
    ) -> Result<Rim, AllocError> {
        note_loop(alloc, first, tree, self.scale, self.layers)
    }
}

// Lists whose first form is a loop.
#[derive(Drop)]
struct Holders<'a> {
    scale: Scale,
    layers: &'a List<Layer>,
}

impl<'a> Part<Rim> for Holders<'a> {
    ghost use Rattle.dsn_shapes.specs.Shapes.{held_loop, loop_refusals, refusals_in};

    ghost refusals = { λ p t. refusals_in (loop_refusals p.scale.nm p.layers.now) t };

    ghost value = { λ p t. held_loop p.scale.nm p.layers.now t };

    #[tactic(auto, unfolding(crate::specs::Shapes::held_loop, crate::specs::Shapes::refusals_in))]
    fn read(
        &self,
        alloc: Global,
        first: &mut Option<Refusal>,
        tree: &Tree,
    ) -> Result<Rim, AllocError> {
        match form_in(tree) {
            Some(form) => note_loop(alloc, first, form, self.scale, self.layers),
            None => {
                note(first, refused(BAD_FORM, at_of(tree)));
                Ok(empty_rim(alloc))
            }
        }
    }
}

fn first_layers(rims: &[Rim]) -> u32
    ensures { result ≡ first_layers rims.now }
{
    match rims.get(0) {
        Some(rim) => rim.layers,
        None => 0,
    }
}

fn greatest_width(rims: &[Rim]) -> u64
    ensures { result ≡ fold (λ w (r : TheRim). max w r.width) 0 rims.now }
{
    let mut greatest = 0;
    for rim in rims {
        greatest = rim.width.max(greatest);
    }
    greatest
}

// One area of these loops.
#[tactic(auto, unfolding(crate::specs::Shapes::area_of))]
fn area_of(alloc: Global, rims: &[Rim]) -> Result<LayerShape, AllocError>
    ensures { IfOk result (λ v. v ≡ area_of rims.now) }
{
    let mut loops = List::new(alloc);
    for rim in rims {
        loops.push(List::from_slice(alloc, rim.points.as_slice())?)?;
    }
    Ok(LayerShape {
        layers: first_layers(rims),
        spine: Spine::Area(loops),
        width: greatest_width(rims),
    })
}

// A list, and then its windows.
fn with_windows<'a>(alloc: Global, tree: &'a Tree) -> Result<Trees<'a>, AllocError>
    ensures { IfOk result (λ ts. ts ≡ tree.now ∷ windows_of tree.now) }
{
    let mut holders = Trees::one(alloc, tree)?;
    for item in items(tree) {
        if is_headed(item, b"window") {
            holders.push(item)?;
        }
    }
    Ok(holders)
}

#[tactic(auto, unfolding(crate::specs::Shapes::ban_shape, crate::specs::Shapes::ban_refusals))]
fn note_ban_shape(
    alloc: Global,
    first: &mut Option<Refusal>,
    tree: &Tree,
    scale: Scale,
    layers: &List<Layer>,
) -> Result<LayerShape, AllocError>
    ensures noted { OnOk result (first.new ≡ noted first.old (ban_refusals scale.nm layers.now tree.now)) }
    ensures value { IfOk result (λ v. v ≡ ban_shape scale.nm layers.now tree.now) }
{
    let holders = with_windows(alloc, tree)?;
    if holders.len() == 1 {
        return note_held_shape(alloc, first, tree, scale, layers);
    }
    let rims = read_each(alloc, &Holders { scale, layers }, first, &holders)?;
    area_of(alloc, rims.as_slice())
}

/// Keepouts: `keepout` bans wires and vias, `via_keepout` vias and `wire_keepout` wires.
#[derive(Drop)]
pub struct Keepouts<'a> {
    pub scale: Scale,
    pub layers: &'a List<Layer>,
}

impl<'a> Part<BanShape> for Keepouts<'a> {
    ghost use Rattle.dsn_shapes.specs.Shapes.{ban_of, ban_refusals};

    ghost refusals = { λ p t. ban_refusals p.scale.nm p.layers.now t };

    ghost value = { λ p t. ban_of p.scale.nm p.layers.now t };

    #[tactic(auto, unfolding(crate::specs::Shapes::ban_of))]
    fn read(
        &self,
        alloc: Global,
        first: &mut Option<Refusal>,
        tree: &Tree,
    ) -> Result<BanShape, AllocError> {
        let shape = note_ban_shape(alloc, first, tree, self.scale, self.layers)?;
        Ok(BanShape {
            shape,
            wires: !is_headed(tree, b"via_keepout"),
            vias: !is_headed(tree, b"wire_keepout"),
        })
    }
}

/// Boundaries: each is the area of all its forms.
#[derive(Drop)]
pub struct Bounds<'a> {
    pub scale: Scale,
    pub layers: &'a List<Layer>,
}

impl<'a> Part<LayerShape> for Bounds<'a> {
    ghost use Rattle.dsn_shapes.specs.Shapes.{bound_of, bound_refusals};

    ghost refusals = { λ p t. bound_refusals p.scale.nm p.layers.now t };

    ghost value = { λ p t. bound_of p.scale.nm p.layers.now t };

    #[tactic(auto, unfolding(crate::specs::Shapes::bound_of, crate::specs::Shapes::bound_refusals))]
    fn read(
        &self,
        alloc: Global,
        first: &mut Option<Refusal>,
        tree: &Tree,
    ) -> Result<LayerShape, AllocError> {
        let mut forms = Trees::new(alloc);
        forms.push_lists(tree, form_heads())?;
        if forms.len() == 0 {
            note(first, refused(BAD_FORM, at_of(tree)));
        }
        let loops = Loops {
            scale: self.scale,
            layers: self.layers,
        };
        let rims = read_each(alloc, &loops, first, &forms)?;
        area_of(alloc, rims.as_slice())
    }
}

fn notes_beside(tree: &Tree) -> u64
    ensures { result ≡ notes_beside tree.now }
{
    let mut lists: u64 = 0;
    for item in items(tree) {
        if !is_word(item) {
            lists += 1;
        }
    }
    lists.saturating_sub(1)
}

/// How many lists beside its form each of these lists has.
pub fn shape_notes(trees: &Trees) -> u64
    ensures { result ≡ capped (sum_by notes_beside trees.now) }
{
    let lists = trees.as_slice();
    let mut notes: u64 = 0;
    for tree in lists {
        notes = notes.saturating_add(notes_beside(tree));
    }
    notes
}

fn notes_of_windows(all: &[Tree]) -> u64
    ensures { result ≡ capped (sum_by notes_beside (filter (is_headed (codes "window")) all.now)) }
{
    let mut notes: u64 = 0;
    for item in all {
        if is_headed(item, b"window") {
            notes = notes.saturating_add(notes_beside(item));
        }
    }
    notes
}

#[tactic(auto, unfolding(crate::specs::Shapes::ban_notes))]
fn notes_of_ban(tree: &Tree) -> u64
    ensures { result ≡ capped (ban_notes tree.now) }
{
    let mut beside: u64 = 0;
    for item in items(tree) {
        if !is_word(item) && !is_headed(item, b"window") {
            beside += 1;
        }
    }
    beside
        .saturating_sub(1)
        .saturating_add(notes_of_windows(items(tree)))
}

/// How many lists the keepouts and their windows have beside their forms.
pub fn ban_notes(trees: &Trees) -> u64
    ensures { result ≡ capped (sum_by ban_notes trees.now) }
{
    let lists = trees.as_slice();
    let mut notes: u64 = 0;
    for tree in lists {
        notes = notes.saturating_add(notes_of_ban(tree));
    }
    notes
}
