//! The network of a session: the wires and vias of each net.
//! Source: SPECCTRA reference, network and wiring descriptors.

ghost use Rattle.std.specs.Prelude.{◌≡◌, ◌<◌, ◌++◌, [], ℕ, OnOk, IfOk, All, filter, length, Vec};
ghost use Rattle.std.specs.Global.{Global as Memory};
ghost use Rattle.ses_writer.specs.Words.{Appends, spelled};
ghost use Rattle.ses_writer.specs.inner.Passes.{AddsLine, TellsLines};
ghost use Rattle.ses_writer.specs.Session.{padstack_word, metal_line, net_lines, is_printed, network_lines};

use crate::library::{layer_name, prints};
use crate::words::{put, put_chain, put_framed, put_placed, put_run};
use geo_kernel::Name;
use pcb_model::{Design, Item, Metal};
use std::alloc::{AllocError, Global};

// The name of a padstack, and none where there is no such padstack.
fn padstack_name(d: &Design, padstack: u32) -> &[u8]
    ensures { spelled result.now ≡ padstack_word d.now padstack }
{
    match d.padstacks.as_slice().get(padstack as usize) {
        Some(s) => s.name.as_slice(),
        None => &[],
    }
}

#[tactic(auto, unfolding(crate::specs::Session::metal_line))]
fn put_metal(out: &mut Vec<u8>, d: &Design, nm: u64, metal: &Metal) -> Result<(), AllocError>
    requires { 0 < nm }
    ensures { OnOk result (Appends out.old.items out.new.items (metal_line d.now nm metal.now)) }
{
    match metal {
        Metal::Wire {
            layer,
            width,
            chain,
        } => {
            let name = layer_name(d, *layer);
            put_run(out, nm, b"        (wire (path ", name, *width)?;
            put_chain(out, nm, chain)?;
            put(out, b"))\n")
        }
        Metal::Via { padstack, at } => {
            let name = padstack_name(d, *padstack);
            put_placed(out, nm, b"        (via ", name, at)?;
            put(out, b")\n")
        }
        Metal::Pad { .. } => Ok(()),
        Metal::Ban { .. } => Ok(()),
    }
}

#[tactic(auto, unfolding(crate::specs::Session::net_lines))]
fn put_net(out: &mut Vec<u8>, name: &Name, lines: &[u8]) -> Result<(), AllocError>
    ensures { OnOk result (Appends out.old.items out.new.items (net_lines name.now lines.now)) }
{
    if lines.is_empty() {
        return Ok(());
    }
    put_framed(out, b"      (net ", name.as_slice(), b"\n")?;
    put(out, lines)?;
    put(out, b"      )\n")
}

fn add_line(
    texts: &mut Vec<Vec<u8>>,
    d: &Design,
    nm: u64,
    net: u32,
    metal: &Metal,
) -> Result<(), AllocError>
    requires { 0 < nm }
    ensures { OnOk result (AddsLine d.now nm net metal.now texts.old.items texts.new.items) }
{
    let at = net as usize;
    if at < texts.len() {
        let text = &mut texts[at];
        put_metal(text, d, nm, metal)?;
    }
    Ok(())
}

fn empty_texts(alloc: Global, count: usize) -> Result<Vec<Vec<u8>>, AllocError>
    ensures count_is { IfOk result (λ v. length v.items ≡ count) }
    ensures all_empty { IfOk result (λ v. All (λ (t : Vec ℕ Memory). t.items ≡ []) v.items) }
{
    let mut texts = Vec::new(alloc);
    for _ in 0..count {
        texts.push(Vec::new(alloc))?;
    }
    Ok(texts)
}

// For each net, the lines of its printed items, in one pass over the items.
fn lines_by_net(
    alloc: Global,
    d: &Design,
    nm: u64,
    items: &[Item],
    omit_fixed: bool,
) -> Result<Vec<Vec<u8>>, AllocError>
    requires { 0 < nm }
    ensures { IfOk result
        (λ v. TellsLines d.now nm (filter (is_printed omit_fixed) items.now) (length d.now.nets) v.items) }
{
    let mut texts = empty_texts(alloc, d.nets.len())?;
    for a in items {
        if prints(a, omit_fixed) {
            if let Some(net) = a.net {
                add_line(&mut texts, d, nm, net, &a.metal)?;
            }
        }
    }
    Ok(texts)
}

// The nets with printed items, in the design's order.
#[tactic(auto, unfolding(crate::specs::Session::network_lines))]
pub(crate) fn put_network(
    out: &mut Vec<u8>,
    alloc: Global,
    d: &Design,
    nm: u64,
    items: &[Item],
    omit_fixed: bool,
) -> Result<(), AllocError>
    requires { 0 < nm }
    ensures { OnOk result
        (Appends out.old.items out.new.items (network_lines d.now nm (filter (is_printed omit_fixed) items.now))) }
{
    let texts = lines_by_net(alloc, d, nm, items, omit_fixed)?;
    for (i, n) in d.nets.as_slice().iter().enumerate() {
        put_net(out, &n.name, texts[i].as_slice())?;
    }
    Ok(())
}
