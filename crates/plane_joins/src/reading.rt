//! The planes of a design's tree.
//! Source: SPECCTRA reference, plane and window descriptors.

ghost use Rattle.std.specs.Prelude.{◌≡◌, ◌++◌, ◌≤◌, ◌^◌, All, IfOk, None, OnOk, length};
ghost use Rattle.pcb_model.specs.Sound.{IsSound};
ghost use Rattle.pcb_model.specs.declared.limits.TheConstants.{MOST_LAYERS};
ghost use Rattle.std.specs.List.{flat_map};
ghost use Rattle.std.specs.Option.{option_copied};
ghost use Rattle.dsn_shapes.specs.Lists.{trees_of};
ghost use Rattle.dsn_shapes.specs.Refusals.{Reads, least, noted};
ghost use Rattle.dsn_structure.specs.Header.{head_refusals};
ghost use Rattle.dsn_tree.specs.declared.tree.Tree.{Tree as OneTree};
ghost use Rattle.dsn_tree.specs.Trees.{HasTree};
ghost use Rattle.dsn_shapes.specs.Shapes.{shape_of, shape_refusals};
ghost use Rattle.std.specs.Option.{option_to_list};
ghost use Rattle.plane_joins.specs.Planes.{IsPlaneOf};
ghost use Rattle.plane_joins.specs.Reading.{HasHead, ReadsPlanes};
ghost use Rattle.plane_joins.specs.inner.Wanting.{IsWanting};
ghost use Rattle.plane_joins.specs.Reading.{area_on, area_shape_in, areas_of, is_area, layer_of as layer_as, layers_in};
ghost use Rattle.plane_joins.specs.Reading.{names_in, net_named, only_loop};
ghost use Rattle.plane_joins.specs.Reading.{plane_lists as lists_in, plane_of, plane_refusals, planes_of};
ghost use Rattle.plane_joins.specs.Reading.{planes_refusals};
ghost use Rattle.plane_joins.specs.Reading.{power_from, shape_in as first_list};

use crate::area::PlaneArea;
use dsn_shapes::{
    Layer, LayerShape, NameIndex, ReadFault, Refusal, Trees, is_word, name_of, note_shape,
    place_index,
};
use dsn_structure::read_head;
use dsn_tree::{Tree, TreeFault, child, is_headed, items, one_answer, read_tree};
use dsn_units::Scale;
use geo_kernel::{List, Point, Spine};
use pcb_model::{BoardLayer, Design};
use std::alloc::{AllocError, Global};

fn plane_lists<'a>(alloc: Global, pcb: &'a Tree) -> Result<Trees<'a>, AllocError>
    ensures { IfOk result (λ ts. ts ≡ lists_in pcb.now) }
{
    let structs = Trees::in_list(alloc, pcb, b"structure")?;
    let found = structs.headed(alloc, b"plane");
    drop(structs);
    found
}

fn layer_of(alloc: Global, layer: &BoardLayer) -> Result<Layer, AllocError>
    ensures { IfOk result (λ l. l ≡ layer_as layer.now) }
{
    let name = List::from_slice(alloc, layer.name.as_slice())?;
    Ok(Layer {
        name,
        power: layer.power,
    })
}

fn layers_of(alloc: Global, d: &Design) -> Result<List<Layer>, AllocError>
    ensures { IfOk result (λ ls. ls ≡ layers_in d.now) }
{
    let mut layers = List::new(alloc);
    for layer in d.layers.as_slice() {
        layers.push(layer_of(alloc, layer)?)?;
    }
    Ok(layers)
}

// The index of the names of a design's nets.
fn net_names<'a>(alloc: Global, d: &'a Design) -> Result<NameIndex<'a>, AllocError>
    ensures { IfOk result (λ x. x ≡ names_in d.entry.now) }
{
    let mut names = Vec::new(alloc);
    for net in d.nets.as_slice() {
        names.push(net.name.as_slice())?;
    }
    NameIndex::of(alloc, names)
}

fn net_of(nets: &NameIndex, name: &[u8]) -> Option<u32>
    ensures { result ≡ net_named nets.now name.now }
{
    match nets.first_place(name) {
        Some(k) => Some(place_index(k)),
        None => None,
    }
}

fn shape_in(tree: &Tree) -> Option<&Tree>
    ensures { option_copied result ≡ first_list tree.now }
{
    for item in items(tree) {
        if !is_word(item) {
            return Some(item);
        }
    }
    None
}

// The one layer of a mask, where that is a power layer.
fn power_layer(d: &Design, mask: u32) -> Option<u8>
    requires few { length d.now.layers ≤ MOST_LAYERS }
    ensures { result ≡ power_from 0 d.now.layers mask }
{
    let layers = d.layers.as_slice();
    let mut rest = mask;
    for (i, layer) in layers.iter().enumerate() {
        if rest == 1 {
            return if layer.power { Some(i as u8) } else { None };
        }
        if rest % 2 == 1 {
            return None;
        }
        rest /= 2;
    }
    None
}

// The one loop of an area.
fn one_loop(mut loops: List<List<Point>>) -> Option<List<Point>>
    ensures { result ≡ only_loop loops }
{
    if loops.len() == 1 { loops.pop() } else { None }
}

// The plane of a net with this shape.
fn area_of(d: &Design, net: u32, shape: LayerShape) -> Option<PlaneArea>
    requires few { length d.now.layers ≤ MOST_LAYERS }
    ensures { result ≡ area_on d.now net shape }
{
    let LayerShape {
        layers,
        spine,
        width,
    } = shape;
    let layer = power_layer(d, layers)?;
    match spine {
        Spine::Area(loops) => {
            let rim = one_loop(loops)?;
            Some(PlaneArea {
                net,
                layer,
                rim,
                width,
            })
        }
        Spine::Chain(_) => None,
    }
}

fn has_area_head(tree: &Tree) -> bool
    ensures { result ≡ is_area tree.now }
{
    is_headed(tree, b"rect") || is_headed(tree, b"polygon")
}

// The shape of a plane that isn't passed over for a window or the head of its shape.
fn area_shape(tree: &Tree) -> Option<&Tree>
    ensures { option_copied result ≡ area_shape_in tree.now }
{
    if child(tree, b"window").is_some() {
        return None;
    }
    let shape = shape_in(tree)?;
    if has_area_head(shape) {
        Some(shape)
    } else {
        None
    }
}

/// What a plane is read by: the design, its layers as readers take them, and the scale.
#[derive(Drop)]
struct PlaneInput<'a> {
    d: &'a Design,
    layers: &'a List<Layer>,
    s: Scale,
    ghost few: { length d.now.layers ≤ MOST_LAYERS },
}

// The shape of a net's plane.
fn read_shape_of(
    alloc: Global,
    first: &mut Option<Refusal>,
    by: &PlaneInput<'_>,
    net: u32,
    shape: &Tree,
) -> Result<Option<PlaneArea>, AllocError>
    ensures noted { let b = by.now in
        OnOk result (first.new ≡ noted first.old (shape_refusals b.s.nm b.layers.now shape.now)) }
    ensures value { let b = by.now in
        IfOk result (λ o. o ≡ area_on b.d.now net (shape_of b.s.nm b.layers.now shape.now)) }
{
    let read = note_shape(alloc, first, shape, by.s, by.layers)?;
    Ok(area_of(by.d, net, read))
}

#[tactic(auto, unfolding(crate::specs::Reading::plane_refusals, crate::specs::Reading::plane_of))]
fn read_plane(
    alloc: Global,
    first: &mut Option<Refusal>,
    by: &PlaneInput<'_>,
    nets: &NameIndex,
    tree: &Tree,
) -> Result<Option<PlaneArea>, AllocError>
    ensures noted { let b = by.now in
        OnOk result (first.new ≡ noted first.old (plane_refusals b.s.nm b.layers.now nets.now tree.now)) }
    ensures value { let b = by.now in
        IfOk result (λ o. o ≡ plane_of b.s.nm b.layers.now nets.now b.d.now tree.now) }
{
    match area_shape(tree) {
        None => Ok(None),
        Some(shape) => match net_of(nets, name_of(tree, 1)) {
            None => Ok(None),
            Some(net) => read_shape_of(alloc, first, by, net, shape),
        },
    }
}

fn push_some(found: &mut List<PlaneArea>, area: Option<PlaneArea>) -> Result<(), AllocError>
    ensures { OnOk result (found.new ≡ found.old ++ option_to_list area) }
{
    if let Some(area) = area {
        found.push(area)?;
    }
    Ok(())
}

fn read_all(
    alloc: Global,
    first: &mut Option<Refusal>,
    by: &PlaneInput<'_>,
    nets: &NameIndex,
    trees: &[&Tree],
) -> Result<List<PlaneArea>, AllocError>
    ensures noted { let b = by.now in OnOk result
        (first.new ≡ noted first.old (flat_map (plane_refusals b.s.nm b.layers.now nets.now) (trees_of trees.now))) }
    ensures value { let b = by.now in
        IfOk result (λ ps. ps ≡ flat_map (areas_of b.s.nm b.layers.now nets.now b.d.now) (trees_of trees.now)) }
{
    let mut found = List::new(alloc);
    for tree in trees {
        let area = read_plane(alloc, first, by, nets, tree)?;
        push_some(&mut found, area)?;
    }
    Ok(found)
}

// The planes, with their refusals noted.
#[tactic(auto, unfolding(crate::specs::Reading::planes_refusals, crate::specs::Reading::planes_of))]
fn note_planes(
    alloc: Global,
    first: &mut Option<Refusal>,
    pcb: &Tree,
    s: Scale,
    d: &Design,
) -> Result<List<PlaneArea>, AllocError>
    requires few { length d.now.layers ≤ MOST_LAYERS }
    ensures noted { OnOk result (first.new ≡ noted first.old (planes_refusals s.nm d.now pcb.now)) }
    ensures value { IfOk result (λ ps. ps ≡ planes_of s.nm d.now pcb.now) }
{
    let layers = layers_of(alloc, d)?;
    let nets = net_names(alloc, d)?;
    let lists = plane_lists(alloc, pcb)?;
    let by = PlaneInput {
        d,
        layers: &layers,
        s,
    };
    read_all(alloc, first, &by, &nets, lists.as_slice())
}

// The planes of a design's tree, or the first of their refusals.
fn read_lists(alloc: Global, pcb: &Tree, s: Scale, d: &Design) -> Result<List<PlaneArea>, ReadFault>
    requires few { length d.now.layers ≤ MOST_LAYERS }
    ensures { Reads (planes_refusals s.nm d.now pcb.now) (λ v. v ≡ planes_of s.nm d.now pcb.now) result }
{
    let mut first = None;
    let found = match note_planes(alloc, &mut first, pcb, s, d) {
        Ok(found) => found,
        Err(error) => return Err(ReadFault::Memory(error)),
    };
    match first {
        Some(refusal) => {
            drop(found);
            Err(ReadFault::Refused(refusal))
        }
        None => Ok(found),
    }
}

/// The planes of a design's tree that stand on power layers, in a scale.
///
/// # Errors
/// The first of the refusals of their shapes, or want of memory.
pub fn planes_in(
    alloc: Global,
    pcb: &Tree,
    s: Scale,
    d: &Design,
) -> Result<List<PlaneArea>, ReadFault>
    requires sound { IsSound d.now }
    ensures reads { Reads (planes_refusals s.nm d.now pcb.now) (λ v. v ≡ planes_of s.nm d.now pcb.now) result }
    ensures planes { IfOk result (All (IsPlaneOf d.now)) }
{
    read_lists(alloc, pcb, s, d)
}

// The planes of a tree whose head has no refusal.
fn planes_of_tree(alloc: Global, pcb: &Tree, d: &Design) -> Result<List<PlaneArea>, ReadFault>
    requires sound { IsSound d.now }
    requires head { least (head_refusals pcb.now) ≡ None }
    ensures reads { ReadsPlanes d.now pcb.now result }
    ensures planes { IfOk result (All (IsPlaneOf d.now)) }
{
    match read_head(alloc, pcb) {
        Ok(head) => {
            let s = head.scale;
            drop(head);
            planes_in(alloc, pcb, s, d)
        }
        Err(ReadFault::Memory(error)) => Err(ReadFault::Memory(error)),
        Err(ReadFault::Refused(_)) => unreachable!(),
    }
}

// Want of memory, which is the only fault of a text that has a tree.
fn wanting(fault: TreeFault) -> AllocError
    requires { IsWanting fault }
{
    match fault {
        TreeFault::Memory(error) => error,
        TreeFault::QuoteOpen { .. } => unreachable!(),
        TreeFault::BadQuoteByte { .. } => unreachable!(),
        TreeFault::Unclosed { .. } => unreachable!(),
        TreeFault::Surplus { .. } => unreachable!(),
        TreeFault::TooDeep { .. } => unreachable!(),
        TreeFault::Empty => unreachable!(),
    }
}

/// The planes of a design's text that stand on power layers. The text has a tree whose head has no refusal.
///
/// # Errors
/// The first of the refusals of their shapes, or want of memory.
pub fn read_planes(alloc: Global, text: &[u8], d: &Design) -> Result<List<PlaneArea>, ReadFault>
    requires sound { IsSound d.now }
    requires short { length text.now ≤ 2 ^ 26 }
    requires readable { HasHead text.now }
    ensures reads { (pcb : OneTree) → HasTree text.now pcb → ReadsPlanes d.now pcb result }
    ensures planes { IfOk result (All (IsPlaneOf d.now)) }
{
    one_answer();
    match read_tree(alloc, text) {
        Ok(tree) => {
            let found = planes_of_tree(alloc, &tree, d);
            drop(tree);
            found
        }
        Err(fault) => Err(ReadFault::Memory(wanting(fault))),
    }
}
