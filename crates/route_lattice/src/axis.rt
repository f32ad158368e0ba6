//! The lines of one direction, counted before they are listed.
//! A grid that is finer than the session unit has the lines of the unit.

ghost use Rattle.std.specs.Prelude.{◌≡◌, ℕ, ℤ, List as Seq, ◌+◌, ◌*◌, ◌<◌, ◌≤◌, ◌^◌, length, IfOk};
ghost use Rattle.route_lattice.specs.Lines.{line_list};
ghost use Rattle.route_lattice.specs.Spans.{IsAxisFit, IsAxisOf, IsRulerFit};
ghost use Rattle.route_lattice.specs.declared.lines.Ruler.{Ruler as TheRuler};

use crate::lines::{Ruler, Span, lines_of, others_of, span_len, span_of};
use geo_kernel::List;
use std::alloc::{AllocError, Global};

/// A ruler whose grid isn't finer than its unit, a span of its grid, and the anchors beside it.
#[derive(Drop)]
pub(crate) struct Axis {
    pub ruler: Ruler,
    pub span: Span,
    pub others: List<i64>,
}

/// The ruler, or one with the unit as its grid where its grid is finer.
fn coarsened(r: Ruler) -> Ruler
    requires { IsRulerFit r }
    ensures fit { IsRulerFit result }
    ensures coarse { result.unit ≤ result.grid }
    ensures same { (anchors : Seq ℤ) → line_list result.unit result.grid result.low result.high anchors
        ≡ line_list r.unit r.grid r.low r.high anchors }
{
    if r.grid < r.unit {
        return Ruler {
            unit: r.unit,
            grid: r.unit,
            low: r.low,
            high: r.high,
        };
    }
    r
}

/// The axis of a ruler and the anchors' coordinates.
pub(crate) fn axis_of(alloc: Global, r: Ruler, anchors: &[i64]) -> Result<Axis, AllocError>
    requires ruler { IsRulerFit r }
    requires few { length anchors.now ≤ 2 ^ 26 }
    ensures fit { IfOk result IsAxisFit }
    ensures axis { IfOk result (IsAxisOf r anchors.now) }
{
    let ruler = coarsened(r);
    let others = others_of(alloc, ruler, anchors)?;
    let span = span_of(ruler);
    Ok(Axis {
        ruler,
        span,
        others,
    })
}

/// How many lines there are, without a list of them.
pub(crate) fn axis_len(a: &Axis) -> u64
    requires { IsAxisFit a.now }
    ensures value { (r : TheRuler) (anchors : Seq ℤ) → IsAxisOf r anchors a.now
        → result ≡ length (line_list r.unit r.grid r.low r.high anchors) }
    ensures small { result ≤ 2 ^ 34 }
{
    span_len(a.span) + a.others.len() as u64
}

/// All lines, ascending.
pub(crate) fn axis_lines(alloc: Global, a: &Axis) -> Result<List<i64>, AllocError>
    requires { IsAxisFit a.now }
    ensures { (r : TheRuler) (anchors : Seq ℤ) → IsAxisOf r anchors a.now
        → IfOk result (λ xs. xs ≡ line_list r.unit r.grid r.low r.high anchors) }
{
    lines_of(alloc, a.ruler, a.span, a.others.as_slice())
}
