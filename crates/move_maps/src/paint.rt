//! An item painted into the counts of a group: each place in the windows of its copper is tested once.

ghost use Rattle.std.specs.Prelude.{◌≡◌, ◌+◌, ◌*◌, ◌<◌, ◌↔◌, length, slice_index, IsTrue};
ghost use Rattle.std.specs.Bool.{OnTrue};
ghost use Rattle.pcb_model.specs.Pieces.{padstack_pieces};
ghost use Rattle.route_lattice.specs.Mesh.{node_count, level as level_of};
ghost use Rattle.route_lattice.specs.Ways.{vias_of};
ghost use Rattle.move_maps.specs.Margins.{ShutsSteps};
ghost use Rattle.move_maps.specs.Maps.{place_at};
ghost use Rattle.move_maps.specs.Paint.{AreFirstClear, IsClearAtMove, IsPainted, IsStackClear, arity_of};
ghost use Rattle.move_maps.specs.Settings.{IsTable};
ghost use Rattle.move_maps.specs.Spots.{IsCrossing, IsSpotOf, join_layers as joins_layers};

use crate::brush::Brush;
use crate::counts::Counts;
use crate::joins::join_layers;
use crate::spot::{Crossing, Spot};
use geo_kernel::Point;
use route_lattice::pieces_near;

impl Brush<'_> {
    // Whether the step of a direction is clear, or there is none. `shut` says that no step from the spot is clear.
    fn is_step_clear(&self, spot: &Spot, dir: u32, shut: bool) -> bool
        requires spot { IsSpotOf self.now.group.lat spot.now }
        requires dir { dir < 4 }
        requires shut { let s = self.now in
            OnTrue shut (ShutsSteps s.margins.wires spot.now.layer s.margins.width spot.now.at s.item) }
        ensures { IsTrue result ↔ IsClearAtMove self.now spot.now.node dir }
    {
        self.told();
        let Some(to) = self.step_end(spot, dir) else {
            return true;
        };
        if shut {
            return false;
        }
        self.step_keeps(spot.layer, spot.at, to)
    }

    // Whether the vias of a padstack at a point are clear, or there is none.
    fn is_stack_clear(&self, padstack: u32, at: Point) -> bool
        ensures { IsTrue result ↔ IsStackClear self.now padstack at }
    {
        self.told();
        if !pieces_near(self.pieces(padstack), at) {
            return true;
        }
        self.via_clears(padstack, at)
    }

    // Whether a move's count is the top, which stays.
    fn is_top(&self, counts: &Counts, node: u32, i: usize) -> bool
        requires size { IsTable self.now.group counts.now }
        requires node { node < node_count self.now.group.lat }
        requires index { i < arity_of self.now }
        ensures { let s = self.now.group in
            OnTrue result (slice_index counts.now (place_at s.d s.lat s.first node i) ≡ 255) }
    {
        counts.get(self.place(node, i)) == u8::MAX
    }

    // Paints a move that isn't clear.
    fn turn(&self, counts: &mut Counts, node: u32, i: usize)
        requires size { IsTable self.now.group counts.old }
        requires node { node < node_count self.now.group.lat }
        requires index { i < arity_of self.now }
        requires shut { ¬ (IsClearAtMove self.now node i) }
        ensures { let a = arity_of self.now in
            IsPainted self.now (node * a + i) (node * a + i + 1) counts.old counts.new }
    {
        let place = self.place(node, i);
        let n = counts.get(place);
        counts.set(place, self.turned(n));
    }

    // Paints a step.
    fn paint_step(&self, counts: &mut Counts, spot: &Spot, dir: u32, shut: bool)
        requires size { IsTable self.now.group counts.old }
        requires spot { IsSpotOf self.now.group.lat spot.now }
        requires dir { dir < 4 }
        requires shut { let s = self.now in
            OnTrue shut (ShutsSteps s.margins.wires spot.now.layer s.margins.width spot.now.at s.item) }
        ensures { let p = spot.now.node * arity_of self.now + dir in
            IsPainted self.now p (p + 1) counts.old counts.new }
    {
        if self.is_top(counts, spot.node, dir as usize) {
            return;
        }
        if self.is_step_clear(spot, dir, shut) {
            return;
        }
        self.turn(counts, spot.node, dir as usize);
    }

    // Paints the steps of a node, unless they come before the first move that the item may shut.
    fn paint_steps(&self, counts: &mut Counts, spot: &Spot, first: u32)
        requires size { IsTable self.now.group counts.old }
        requires spot { IsSpotOf self.now.group.lat spot.now }
        requires clear { let s = self.now in let m = s.group.lat in
            AreFirstClear s.group.d m s.group.first s.item (level_of m spot.now.node) first }
        ensures { let p = spot.now.node * arity_of self.now in IsPainted self.now p (p + 4) counts.old counts.new }
    {
        self.told();
        if first >= 4 {
            return;
        }
        let shut = self.shuts_steps(spot.layer, spot.at);
        for dir in 0..4 {
            self.paint_step(counts, spot, dir, shut);
        }
    }

    // Paints the via to signal layer `level` of the padstack of that number. `clear` says whether its vias are clear.
    fn paint_via(&self, counts: &mut Counts, spot: &Spot, number: usize, level: usize, clear: bool)
        requires size { IsTable self.now.group counts.old }
        requires spot { IsSpotOf self.now.group.lat spot.now }
        requires number { number < length (vias_of self.now.group.d self.now.group.first) }
        requires level { level < length self.now.group.lat.layers }
        requires clear { let s = self.now.group in
            IsTrue clear ↔ IsStackClear self.now (slice_index (vias_of s.d s.first) number) spot.now.at }
        ensures { let s = self.now in
            let p = spot.now.node * arity_of s + (4 + number * length s.group.lat.layers + level) in
            IsPainted s p (p + 1) counts.old counts.new }
    {
        if clear {
            return;
        }
        let i = self.via_index(number, level);
        if self.is_top(counts, spot.node, i) {
            return;
        }
        if !self.joins(spot.layer, number, level) {
            return;
        }
        self.turn(counts, spot.node, i);
    }

    // Paints the vias of a node of the padstack of that number. Whether they are clear is asked once.
    fn paint_stack(&self, counts: &mut Counts, spot: &Spot, number: usize)
        requires size { IsTable self.now.group counts.old }
        requires spot { IsSpotOf self.now.group.lat spot.now }
        requires number { number < length (vias_of self.now.group.d self.now.group.first) }
        ensures { let s = self.now in let p = spot.now.node * arity_of s in
            IsPainted s (p + (4 + number * length s.group.lat.layers))
            (p + (4 + (number + 1) * length s.group.lat.layers)) counts.old counts.new }
    {
        self.told();
        let clear = self.is_stack_clear(self.vias()[number], spot.at);
        for level in 0..self.levels() {
            self.paint_via(counts, spot, number, level, clear);
        }
    }

    // Whether the padstack of that number joins a layer and signal layer `level`.
    fn joins(&self, from: u8, number: usize, level: usize) -> bool
        requires number { number < length (vias_of self.now.group.d self.now.group.first) }
        requires level { level < length self.now.group.lat.layers }
        ensures { let s = self.now.group in result
            ≡ joins_layers (padstack_pieces s.d (slice_index (vias_of s.d s.first) number)) from
            (slice_index s.lat.layers level) }
    {
        let padstack = self.vias()[number];
        let to = self.layer(level);
        join_layers(self.pieces(padstack), from, to)
    }

    // Paints the vias of a node.
    fn paint_vias(&self, counts: &mut Counts, spot: &Spot)
        requires size { IsTable self.now.group counts.old }
        requires spot { IsSpotOf self.now.group.lat spot.now }
        ensures { let a = arity_of self.now in let p = spot.now.node * a in
            IsPainted self.now (p + 4) (p + a) counts.old counts.new }
    {
        for number in 0..self.vias().len() {
            self.paint_stack(counts, spot, number);
        }
    }

    // Paints the moves of a node, if it is in one of the windows.
    fn paint_crossing(&self, counts: &mut Counts, crossing: Crossing, first: u32)
        requires size { IsTable self.now.group counts.old }
        requires crossing { IsCrossing self.now.group.lat crossing }
        requires clear { let s = self.now in let m = s.group.lat in
            AreFirstClear s.group.d m s.group.first s.item (level_of m crossing.node) first }
        ensures { let a = arity_of self.now in
            IsPainted self.now (crossing.node * a) ((crossing.node + 1) * a) counts.old counts.new }
    {
        self.told();
        if self.is_out(crossing.column, crossing.row) {
            return;
        }
        let spot = self.spot(crossing);
        self.paint_steps(counts, &spot, first);
        self.paint_vias(counts, &spot);
    }

    // Paints a line of nodes across: those in the columns that the windows hold there.
    fn paint_line(&self, counts: &mut Counts, level: usize, row: usize, first: u32)
        requires size { IsTable self.now.group counts.old }
        requires some { 0 < node_count self.now.group.lat }
        requires level { level < length self.now.group.lat.layers }
        requires row { row < length self.now.group.lat.ys }
        requires clear { let s = self.now in
            AreFirstClear s.group.d s.group.lat s.group.first s.item level first }
        ensures { let s = self.now in let m = s.group.lat in let a = arity_of s in
            IsPainted s ((level * length m.ys + row) * length m.xs * a)
            ((level * length m.ys + row + 1) * length m.xs * a) counts.old counts.new }
    {
        self.told();
        let width = self.columns();
        let start = (level * self.rows() + row) * width;
        let span = self.span(row);
        for column in span.left..span.right {
            let crossing = Crossing {
                node: (start + column) as u32,
                level,
                row,
                column,
            };
            self.paint_crossing(counts, crossing, first);
        }
    }

    // The first move that the item may shut at the nodes of a signal layer: where it has no copper, no step.
    fn first_move(&self, level: usize) -> u32
        requires { level < length self.now.group.lat.layers }
        ensures { let s = self.now in
            AreFirstClear s.group.d s.group.lat s.group.first s.item level result }
    {
        if self.is_on(self.layer(level)) {
            return 0;
        }
        4
    }

    // Paints the nodes of a signal layer: those in the window's rows.
    fn paint_level(&self, counts: &mut Counts, level: usize)
        requires size { IsTable self.now.group counts.old }
        requires some { 0 < node_count self.now.group.lat }
        requires level { level < length self.now.group.lat.layers }
        ensures { let s = self.now in let m = s.group.lat in let a = arity_of s in
            IsPainted s (level * length m.ys * length m.xs * a) ((level + 1) * length m.ys * length m.xs * a)
            counts.old counts.new }
    {
        self.told();
        let first = self.first_move(level);
        let window = self.window();
        for row in window.bottom..window.top {
            self.paint_line(counts, level, row, first);
        }
    }

    /// Paints the item into the counts, or takes it out of them.
    pub(crate) fn paint(&self, counts: &mut Counts)
        requires { IsTable self.now.group counts.old }
        ensures { let s = self.now in
            IsPainted s 0 (node_count s.group.lat * arity_of s) counts.old counts.new }
    {
        self.told();
        if self.count() == 0 {
            return;
        }
        for level in 0..self.levels() {
            self.paint_level(counts, level);
        }
    }

    // The index of the via to signal layer `level` of the padstack of that number.
    fn via_index(&self, number: usize, level: usize) -> usize
        requires number { number < length (vias_of self.now.group.d self.now.group.first) }
        requires level { level < length self.now.group.lat.layers }
        ensures value { result ≡ 4 + number * length self.now.group.lat.layers + level }
        ensures there { result < arity_of self.now }
    {
        let _arity = self.arity();
        4 + number * self.levels() + level
    }
}
