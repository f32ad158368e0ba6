//! Where the names of a design stand among its layers, padstacks and nets.
//! Each kind has an ordered map, so that a long session is read in little more than its length.

ghost use Rattle.std.specs.Prelude.{◌≡◌, map, IfOk};
ghost use Rattle.pcb_model.specs.declared.design.BoardLayer.{BoardLayer as TheLayer};
ghost use Rattle.pcb_model.specs.declared.design.Padstack.{Padstack as ThePadstack};
ghost use Rattle.pcb_model.specs.declared.design.Net.{Net as TheNet};
ghost use Rattle.dsn_shapes.specs.Names.{first_place};
ghost use Rattle.ses_reader.specs.Names.{layer_names, net_names, padstack_names};

use dsn_shapes::NameIndex;
use pcb_model::{BoardLayer, Design, Net, Padstack};
use std::alloc::{AllocError, Global};
use std::marker::Model;

/// A design, with where each of its names first stands.
#[derive(Drop)]
pub(crate) struct DesignIndex<'a> {
    design: &'a Design,
    layers: NameIndex<'a>,
    padstacks: NameIndex<'a>,
    nets: NameIndex<'a>,
}

impl<'a> Model for DesignIndex<'a> {
    ghost use Rattle.std.specs.Prelude.{◌≡◌};
    ghost use Rattle.pcb_model.specs.declared.design.Design.{Design as TheDesign};
    ghost use Rattle.ses_reader.specs.Names.{layer_names, net_names, padstack_names};

    ghost Value = { TheDesign };

    ghost view = { λ s. s.design.now };

    ghost invariant = { λ s. (s.layers ≡ layer_names s.design.now) × (s.padstacks ≡ padstack_names s.design.now)
        × (s.nets ≡ net_names s.design.now) };
}

fn layer_names<'a>(alloc: Global, layers: &'a [BoardLayer]) -> Result<NameIndex<'a>, AllocError>
    ensures { IfOk result (λ x. x ≡ map (λ (l : TheLayer). l.name) layers.now) }
{
    let mut names = Vec::new(alloc);
    for layer in layers {
        names.push(layer.name.as_slice())?;
    }
    NameIndex::of(alloc, names)
}

fn padstack_names<'a>(alloc: Global, padstacks: &'a [Padstack]) -> Result<NameIndex<'a>, AllocError>
    ensures { IfOk result (λ x. x ≡ map (λ (s : ThePadstack). s.name) padstacks.now) }
{
    let mut names = Vec::new(alloc);
    for padstack in padstacks {
        names.push(padstack.name.as_slice())?;
    }
    NameIndex::of(alloc, names)
}

fn net_names<'a>(alloc: Global, nets: &'a [Net]) -> Result<NameIndex<'a>, AllocError>
    ensures { IfOk result (λ x. x ≡ map (λ (n : TheNet). n.name) nets.now) }
{
    let mut names = Vec::new(alloc);
    for net in nets {
        names.push(net.name.as_slice())?;
    }
    NameIndex::of(alloc, names)
}

impl<'a> DesignIndex<'a> {
    /// The index of a design's names.
    pub(crate) fn of(alloc: Global, d: &'a Design) -> Result<DesignIndex<'a>, AllocError>
        ensures { IfOk result (λ x. x ≡ d.now) }
    {
        let layers = layer_names(alloc, d.layers.as_slice())?;
        let padstacks = match padstack_names(alloc, d.padstacks.as_slice()) {
            Ok(padstacks) => padstacks,
            Err(error) => {
                drop(layers);
                return Err(error);
            }
        };
        let nets = match net_names(alloc, d.nets.as_slice()) {
            Ok(nets) => nets,
            Err(error) => {
                drop((layers, padstacks));
                return Err(error);
            }
        };
        Ok(DesignIndex {
            design: d,
            layers,
            padstacks,
            nets,
        })
    }

    /// The design.
    pub(crate) fn design(&self) -> &'a Design
        ensures { result.now ≡ self.now }
    {
        self.design
    }

    /// The place of the first layer of this name.
    pub(crate) fn layer(&self, name: &[u8]) -> Option<usize>
        ensures { result ≡ first_place name.now (layer_names self.now) }
    {
        self.layers.first_place(name)
    }

    /// The place of the first padstack of this name.
    pub(crate) fn padstack(&self, name: &[u8]) -> Option<usize>
        ensures { result ≡ first_place name.now (padstack_names self.now) }
    {
        self.padstacks.first_place(name)
    }

    /// The place of the first net of this name.
    pub(crate) fn net(&self, name: &[u8]) -> Option<usize>
        ensures { result ≡ first_place name.now (net_names self.now) }
    {
        self.nets.first_place(name)
    }
}
