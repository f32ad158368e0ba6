//! What the readers of a design's sections share: their plain types, their refusals, and shapes.
//! A reader names every refusal of its part and answers the one whose place comes first.
#![tactic(auto)]

mod angles;
mod area;
mod form;
mod known;
mod laws;
mod layers;
mod limits;
mod lists;
mod named;
mod names;
mod numbers;
mod part;
mod parts;
mod refusal;
mod rules;
mod shape;
pub mod table;
mod trees;

pub use angles::angle_in;
pub use area::{Bounds, Keepouts, Shapes, ban_notes, shape_notes};
pub use form::points_of;
pub use known::{ListKind, form_heads, idle_in, keepout_heads, read_in};
pub use laws::first_counts;
pub use limits::{most_of, past_limit, refuse_past};
pub use lists::{
    at_of, is_left_out, is_word, name_of, nth_word, place_of, refuse_left_out, refuse_quoted_name,
    says, text_of,
};
pub use named::{Named, first_named, names_of};
pub use names::{NameIndex, place_index};
pub use numbers::{coord_at, coord_in, extent_at, extent_in};
pub use part::{Part, read_each};
pub use parts::{
    BanShape, Head, Image, ImagePin, Layer, LayerShape, Library, Network, PinRef, Place, Placing,
    ReadClass, ReadNet, ReadWire, Split, Stack, Structure, Wiring,
};
pub use refusal::{DesignFault, ReadFault, Refusal, What, note, refused};
pub use rules::{Rules, copy_rules, read_pair_rules, read_rules};
pub use shape::{note_shape, read_shape};
pub use trees::{Trees, has_head, pass_over};
