//! The layers that a word of a shape names.
//! Source: SPECCTRA reference, layer_id: a name, or `pcb`, `signal` or `power`.

ghost use Rattle.std.specs.Prelude.{◌≡◌, ◌<◌, ◌≤◌, ◌^◌, length, take};
ghost use Rattle.std.specs.List.{list_any};
ghost use Rattle.dsn_shapes.specs.Layers.{group_of, layer_refusal, layers_of, mask, named_by, stands_for};
ghost use Rattle.dsn_shapes.specs.Lists.{name_of};
ghost use Rattle.dsn_shapes.specs.Refusals.{noted};

use crate::lists::{name_of, place_of};
use crate::parts::Layer;
use crate::refusal::{Refusal, note, refused};
use crate::table::NO_LAYER;
use dsn_tree::Tree;
use pcb_model::limits::MOST_LAYERS;

/// What a word stands for: the layers of a name, all, the signal or the power layers.
#[derive(Clone, Copy)]
pub(crate) enum Group {
    Named,
    All,
    Signal,
    Power,
}

fn group_of(word: &[u8]) -> Group
    ensures { result ≡ group_of word.now }
{
    if word.eq_ignore_ascii_case(b"pcb") {
        Group::All
    } else if word.eq_ignore_ascii_case(b"signal") {
        Group::Signal
    } else if word.eq_ignore_ascii_case(b"power") {
        Group::Power
    } else {
        Group::Named
    }
}

fn stands_for(group: Group, word: &[u8], layer: &Layer) -> bool
    ensures { result ≡ stands_for group word.now layer.now }
{
    match group {
        Group::Named => layer.name.as_slice() == word,
        Group::All => true,
        Group::Signal => !layer.power,
        Group::Power => layer.power,
    }
}

fn some_stands(group: Group, word: &[u8], layers: &[Layer]) -> bool
    ensures { result ≡ list_any (stands_for group word.now) layers.now }
{
    for layer in layers {
        if stands_for(group, word, layer) {
            return true;
        }
    }
    false
}

#[tactic(auto, unfolding(crate::specs::Layers::named_by))]
fn named_by(layers: &[Layer], word: &[u8]) -> Group
    ensures { result ≡ named_by layers.now word.now }
{
    if some_stands(Group::Named, word, layers) {
        Group::Named
    } else {
        group_of(word)
    }
}

// Bit i is set where layer i is one of those that the word stands for.
fn mask(group: Group, word: &[u8], layers: &[Layer]) -> u32
    requires { length layers.now ≤ 32 }
    ensures value { result ≡ mask (stands_for group word.now) layers.now }
    ensures within { result < 2 ^ length layers.now }
{
    match layers {
        [] => 0,
        [first, rest @ ..] => {
            let bit = if stands_for(group, word, first) { 1 } else { 0 };
            bit + 2 * mask(group, word, rest)
        }
    }
}

// As many of the first layers as there may be.
fn first_layers(layers: &[Layer]) -> &[Layer]
    ensures value { result.now ≡ take MOST_LAYERS layers.now }
    ensures few { length result.now ≤ MOST_LAYERS }
{
    if layers.len() <= MOST_LAYERS as usize {
        return layers;
    }
    let (front, _) = layers.split_at(MOST_LAYERS as usize);
    front
}

/// The layers of the layer word of a form: bit i of the answer is set for layer i.
#[tactic(auto, unfolding(crate::specs::Layers::layers_of, crate::specs::Layers::names_some))]
pub(crate) fn read_layers(first: &mut Option<Refusal>, tree: &Tree, layers: &[Layer]) -> u32
    ensures noted { first.new ≡ noted first.old (layer_refusal layers.now tree.now) }
    ensures value { result ≡ layers_of layers.now (name_of tree.now 1) }
{
    let word = name_of(tree, 1);
    let group = named_by(layers, word);
    if !some_stands(group, word, layers) {
        note(first, refused(NO_LAYER, place_of(tree, 1)));
    }
    mask(group, word, first_layers(layers))
}
