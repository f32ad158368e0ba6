//! The counts of a group before any item comes.
//! A plain node has 0 at each of its moves; all other places have 255, at which the copper is asked.

ghost use Rattle.std.specs.Prelude.{◌≡◌, ◌+◌, ◌*◌, ◌<◌, ◌≤◌, ◌++◌, ◌^◌, [], map, true, cond, length, IfOk, OnOk};
ghost use Rattle.pcb_model.specs.Sound.{IsSound};
ghost use Rattle.route_lattice.specs.Fits.{FitsDesign};
ghost use Rattle.route_lattice.specs.Mesh.{node_count};
ghost use Rattle.route_lattice.specs.Ways.{way_count};
ghost use Rattle.route_lattice.specs.Legal.{CanMove};
ghost use Rattle.move_maps.specs.Paint.{AreTallied, IsFilled};
ghost use Rattle.move_maps.specs.Starts.{AreInner, IsPlain, IsStart, AreStarts, start_of as started};

use crate::centred::is_centred;
use crate::counts::Counts;
use geo_kernel::List;
use pcb_model::Copper;
use route_lattice::LegalMoves;
use std::alloc::{AllocError, Global};

// The count of move `i` at the plain nodes of a signal layer: that of a via by its first node.
fn move_start<C: Copper>(moves: &LegalMoves<'_, C>, level: usize, i: u32) -> u8
    requires can_move { CanMove moves.now.d.now moves.now.lat.now moves.now.net moves.now.via_cost }
    requires some { 0 < node_count moves.now.lat.now }
    requires level { level < length moves.now.lat.now.layers }
    requires index { i < way_count moves.now.d.now moves.now.lat.now moves.now.net }
    ensures { IsStart moves.now.d.now moves.now.lat.now moves.now.net level i result }
{
    if i < 4 {
        return 0;
    }
    let number = (i - 4) as usize / moves.lat.layers().len();
    let padstack = moves.d.nets.as_slice()[moves.net as usize].vias.as_slice()[number];
    if !is_centred(moves.lat, moves.d, padstack) {
        return u8::MAX;
    }
    let node = level * moves.lat.ys().len() * moves.lat.xs().len();
    match moves.probe(node as u32, i) {
        Some(_) => 0,
        None => u8::MAX,
    }
}

// The counts of the moves of a plain node on a signal layer.
fn starts_on<C: Copper>(
    alloc: Global,
    moves: &LegalMoves<'_, C>,
    level: usize,
) -> Result<List<u8>, AllocError>
    requires can_move { CanMove moves.now.d.now moves.now.lat.now moves.now.net moves.now.via_cost }
    requires some { 0 < node_count moves.now.lat.now }
    requires level { level < length moves.now.lat.now.layers }
    ensures { let s = moves.now in let d = s.d.now in let m = s.lat.now in
        IfOk result (AreStarts d m s.net level (way_count d m s.net)) }
{
    let mut starts = List::new(alloc);
    for i in 0..moves.arity {
        starts.push(move_start(moves, level, i))?;
    }
    Ok(starts)
}

// The count at a place, where `n` is that of a plain node.
fn start_of(plain: bool, n: u8) -> u8
    ensures { result ≡ started plain n }
{
    if plain {
        return n;
    }
    u8::MAX
}

// Appends the counts of a node.
fn push_node(counts: &mut Counts, starts: &[u8], plain: bool) -> Result<(), AllocError>
    ensures { OnOk result (counts.new ≡ counts.old ++ map (started plain) starts.now) }
{
    if plain {
        return counts.push_all(starts);
    }
    for n in starts {
        counts.push(start_of(plain, *n))?;
    }
    Ok(())
}

// Whether a line isn't the first or the last of `n` lines.
fn is_amid(at: usize, n: usize) -> bool
    requires { at < n }
    ensures low { result ≡ true → 0 < at }
    ensures high { result ≡ true → at + 1 < n }
{
    0 < at && at + 1 < n
}

// Whether the nodes at a crossing are plain.
fn is_plain<C: Copper>(moves: &LegalMoves<'_, C>, inner: &[bool], row: usize, column: usize) -> bool
    requires row { row < length moves.now.lat.now.ys }
    requires column { column < length moves.now.lat.now.xs }
    requires small { length moves.now.lat.now.ys * length moves.now.lat.now.xs ≤ 2 ^ 24 }
    requires inner { let m = moves.now.lat.now in
        AreInner moves.now.d.now m (length m.ys * length m.xs) inner.now }
    ensures { result ≡ true → IsPlain moves.now.d.now moves.now.lat.now row column }
{
    let height = moves.lat.ys().len();
    let width = moves.lat.xs().len();
    if !is_amid(row, height) {
        return false;
    }
    if !is_amid(column, width) {
        return false;
    }
    inner[row * width + column]
}

// Appends the counts of a y line of a signal layer.
fn push_line<C: Copper>(
    moves: &LegalMoves<'_, C>,
    counts: &mut Counts,
    inner: &[bool],
    starts: &[u8],
    level: usize,
    row: usize,
) -> Result<(), AllocError>
    requires can_move { CanMove moves.now.d.now moves.now.lat.now moves.now.net moves.now.via_cost }
    requires level { level < length moves.now.lat.now.layers }
    requires row { row < length moves.now.lat.now.ys }
    requires small { length moves.now.lat.now.ys * length moves.now.lat.now.xs ≤ 2 ^ 24 }
    requires inner { let m = moves.now.lat.now in
        AreInner moves.now.d.now m (length m.ys * length m.xs) inner.now }
    requires starts { let s = moves.now in let d = s.d.now in let m = s.lat.now in
        AreStarts d m s.net level (way_count d m s.net) starts.now }
    requires filled { let s = moves.now in let d = s.d.now in let m = s.lat.now in
        IsFilled d m s.net ((level * length m.ys + row) * length m.xs * way_count d m s.net) counts.old }
    ensures { let s = moves.now in let d = s.d.now in let m = s.lat.now in
        OnOk result
        (IsFilled d m s.net ((level * length m.ys + (row + 1)) * length m.xs * way_count d m s.net) counts.new) }
{
    for column in 0..moves.lat.xs().len() {
        let plain = is_plain(moves, inner, row, column);
        push_node(counts, starts, plain)?;
    }
    Ok(())
}

// Appends the counts of a signal layer.
fn push_level<C: Copper>(
    alloc: Global,
    moves: &LegalMoves<'_, C>,
    counts: &mut Counts,
    inner: &[bool],
    level: usize,
) -> Result<(), AllocError>
    requires can_move { CanMove moves.now.d.now moves.now.lat.now moves.now.net moves.now.via_cost }
    requires some { 0 < node_count moves.now.lat.now }
    requires level { level < length moves.now.lat.now.layers }
    requires inner { let m = moves.now.lat.now in
        AreInner moves.now.d.now m (length m.ys * length m.xs) inner.now }
    requires filled { let s = moves.now in let d = s.d.now in let m = s.lat.now in
        IsFilled d m s.net (level * length m.ys * length m.xs * way_count d m s.net) counts.old }
    ensures { let s = moves.now in let d = s.d.now in let m = s.lat.now in
        OnOk result
        (IsFilled d m s.net ((level + 1) * length m.ys * length m.xs * way_count d m s.net) counts.new) }
{
    let starts = starts_on(alloc, moves, level)?;
    for row in 0..moves.lat.ys().len() {
        push_line(moves, counts, inner, starts.as_slice(), level, row)?;
    }
    Ok(())
}

/// The counts of the group of the moves' net where there is no item. `inner` says of each crossing, row by row,
/// whether it lies inside.
pub(crate) fn start_counts<C: Copper>(
    alloc: Global,
    moves: &LegalMoves<'_, C>,
    inner: &[bool],
) -> Result<Counts, AllocError>
    requires can_move { CanMove moves.now.d.now moves.now.lat.now moves.now.net moves.now.via_cost }
    requires inner { let m = moves.now.lat.now in
        AreInner moves.now.d.now m (length m.ys * length m.xs) inner.now }
    ensures { IfOk result (AreTallied moves.now.d.now moves.now.lat.now moves.now.net []) }
{
    let mut counts = Counts::new(alloc);
    if moves.lat.count() == 0 {
        return Ok(counts);
    }
    for level in 0..moves.lat.layers().len() {
        push_level(alloc, moves, &mut counts, inner, level)?;
    }
    Ok(counts)
}
