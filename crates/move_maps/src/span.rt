//! The columns that some windows hold in a row.
//! All columns beside them are out of all the windows there.

ghost use Rattle.std.specs.Prelude.{◌≡◌, ℕ, ◌<◌, ◌≤◌, ◌⊎◌, length};
ghost use Rattle.move_maps.specs.Windows.{IsPlaceOut, IsSpanOf};

use crate::window::Window;

/// Columns from `left` to below `right`.
#[derive(Clone, Copy)]
pub(crate) struct Span {
    pub left: usize,
    pub right: usize,
}

// The columns of the span and, where it holds the row, of the window.
fn spread(span: Span, window: &Window, columns: usize, row: usize) -> Span
    requires { span.right ≤ columns }
    ensures left { result.left ≤ span.left }
    ensures right { span.right ≤ result.right }
    ensures within { result.right ≤ columns }
    ensures outs { (c : ℕ) → c < columns → c < result.left ⊎ result.right ≤ c → IsPlaceOut window.now c row }
{
    if row < window.bottom {
        return span;
    }
    if window.top <= row {
        return span;
    }
    Span {
        left: span.left.min(window.left),
        right: span.right.max(window.right).min(columns),
    }
}

/// The columns of all windows that hold the row, of so many columns.
pub(crate) fn row_span(windows: &[Window], columns: usize, row: usize) -> Span
    ensures span { IsSpanOf windows.now columns row result.left result.right }
    ensures ordered { result.left ≤ result.right }
{
    let mut span = Span {
        left: columns,
        right: 0,
    };
    for window in windows {
        span = spread(span, window, columns, row);
    }
    Span {
        left: span.left.min(span.right),
        right: span.right,
    }
}
