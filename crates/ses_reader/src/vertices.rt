//! Whether a vertex of a padstack, placed at a point, has a coordinate past 2^29 nm.
//! Of each piece that is as the reader of a design's wiring has it.

ghost use Rattle.std.specs.Prelude.{◌≡◌};
ghost use Rattle.ses_reader.specs.Copper.{is_stack_past};

use dsn_wiring::spine_past;
use geo_kernel::Point;
use pcb_model::Padstack;

/// Whether a vertex of the padstack at this point is past the greatest coordinate.
pub(crate) fn is_stack_past(at: Point, padstack: &Padstack) -> bool
    ensures { result ≡ is_stack_past at padstack.now }
{
    let pieces = padstack.pieces.as_slice();
    for piece in pieces {
        if spine_past(at, &piece.spine) {
            return true;
        }
    }
    false
}
