//! Words that are angles: degrees counter-clockwise, as whole microdegrees without whole turns.
//! Source: SPECCTRA reference, rotation of a component and of a pin.

ghost use Rattle.std.specs.Prelude.{◌≡◌, ◌<◌, IfSome};
ghost use Rattle.dsn_shapes.specs.Angles.{word_angle, word_angle_refusal};
ghost use Rattle.dsn_shapes.specs.Refusals.{noted};

use crate::lists::{at_of, text_of};
use crate::refusal::{Refusal, note, refused};
use crate::table::{NO_NUMBER, OUT_OF_RANGE};
use dsn_tree::Tree;
use dsn_units::{Angle, read_decimal};

/// The word as an angle; None where it is refused: with 9 where it is no decimal, with 10 past 1,000,000 degrees.
pub fn angle_in(first: &mut Option<Refusal>, word: &Tree) -> Option<Angle>
    ensures noted { first.new ≡ noted first.old (word_angle_refusal word.now) }
    ensures value { result ≡ word_angle word.now }
    ensures reduced { IfSome result (λ a. a.microdegrees < 360000000) }
{
    let Some(decimal) = read_decimal(text_of(word)) else {
        note(first, refused(NO_NUMBER, at_of(word)));
        return None;
    };
    match Angle::of(&decimal) {
        Ok(angle) => Some(angle),
        Err(_) => {
            note(first, refused(OUT_OF_RANGE, at_of(word)));
            None
        }
    }
}
