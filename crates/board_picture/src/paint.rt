//! How layers are painted: in colours that differ in hue and in grey.
//! The hues are those of Okabe and Ito, "Color Universal Design".

ghost use Rattle.std.specs.Prelude.{◌≡◌, OnOk};
ghost use Rattle.ses_writer.specs.Words.{Appends};
ghost use Rattle.board_picture.specs.Colours.{colour_word, dash_words, paint_words, hatch_paint};

use crate::shapes::Hatch;
use crate::words::{Part, put_parts};
use std::alloc::AllocError;

/// The colour of a layer, by its number among eight.
pub(crate) fn colour(k: usize) -> &'static [u8]
    ensures { result.now ≡ colour_word k }
{
    match k {
        0 => b"#BE4B00",
        1 => b"#56B4E9",
        2 => b"#00724F",
        3 => b"#F0E442",
        4 => b"#003F7F",
        5 => b"#E0A5C8",
        6 => b"#B98000",
        _ => b"#181818",
    }
}

fn put_dash(out: &mut Vec<u8>, k: usize) -> Result<(), AllocError>
    ensures { OnOk result (Appends out.old.items out.new.items (dash_words k)) }
{
    if k == 0 {
        return Ok(());
    }
    put_parts(
        out,
        &[
            Part::Text(b" stroke-dasharray=\""),
            Part::Number(k as u128),
            Part::Text(b" 1\""),
        ],
    )
}

/// The attributes of what lies on the layer with this number.
#[tactic(auto, unfolding(crate::specs::Colours::paint_words))]
pub(crate) fn put_paint(out: &mut Vec<u8>, layer: usize) -> Result<(), AllocError>
    ensures { OnOk result (Appends out.old.items out.new.items (paint_words layer)) }
{
    let paint = Part::Text(colour(layer % 8));
    put_parts(
        out,
        &[
            Part::Text(b" fill=\""),
            paint,
            Part::Text(b"\" stroke=\""),
            paint,
            Part::Text(b"\" opacity=\"0.85\""),
        ],
    )?;
    put_dash(out, layer / 8)
}

/// The attributes of keepouts with this hatching.
pub(crate) fn hatch_paint(hatch: Hatch) -> &'static [u8]
    ensures { result.now ≡ hatch_paint hatch }
{
    match hatch {
        Hatch::Wires => b" fill=\"url(#no-wires)\" stroke=\"url(#no-wires)\"",
        Hatch::Vias => b" fill=\"url(#no-vias)\" stroke=\"url(#no-vias)\"",
        Hatch::Both => b" fill=\"url(#no-copper)\" stroke=\"url(#no-copper)\"",
    }
}
