//! The reader of a design: tree, head, structure, library, placement, network and wiring, in this order.
//! It answers the design of a text, or the first refusal of the first phase that has one.

ghost use Rattle.std.specs.Prelude.{◌≡◌, ◌≢◌, ◌≤◌, ◌^◌, ◌∷◌, [], IfOk, alloc_error, length};
ghost use Rattle.pcb_model.specs.Sound.{IsSound};
ghost use Rattle.pcb_model.specs.Plain.{IsPlainCopper};
ghost use Rattle.dsn_shapes.specs.Tabled.{IsTabled};
ghost use Rattle.dsn_design.specs.First.{AreFirst};
ghost use Rattle.dsn_design.specs.Reading.{ReadsDesign, ReadsParts};
ghost use Rattle.dsn_design.specs.Refused.{IfRefused};
ghost use Rattle.dsn_design.specs.Sound.{ArePartsSound, weight};

use crate::board::make_design;
use crate::parts::Parts;
use dsn_library::read_library;
use dsn_network::read_network;
use dsn_placement::read_placement;
use dsn_shapes::{DesignFault, Head, Library, Placing, ReadFault, Structure};
use dsn_structure::{read_head, read_structure};
use dsn_tree::{Tree, TreeFault, read_tree};
use dsn_wiring::read_wiring;
use pcb_model::Design;
use std::alloc::Global;

// What the sections of a tree hold, where its first four hold this.
fn read_rest(
    alloc: Global,
    pcb: &Tree,
    head: Head,
    structure: Structure,
    library: Library,
    placing: Placing,
) -> Result<Parts, ReadFault>
    requires few { weight (pcb.now ∷ []) ≤ 2 ^ 26 }
    requires first { AreFirst pcb.now head structure library placing }
    ensures reads { ReadsParts pcb.now result }
    ensures sound { IfOk result ArePartsSound }
{
    let s = head.scale;
    let network = match read_network(alloc, pcb, s, &library, &placing) {
        Ok(network) => network,
        Err(fault) => {
            drop((head, structure));
            drop((library, placing));
            return Err(fault);
        }
    };
    let wiring = match read_wiring(alloc, pcb, s, &structure, &library, &placing, &network) {
        Ok(wiring) => wiring,
        Err(fault) => {
            drop((head, structure));
            drop((library, placing));
            drop(network);
            return Err(fault);
        }
    };
    Ok(Parts {
        head,
        structure,
        library,
        placing,
        network,
        wiring,
    })
}

// What the sections of a tree hold.
fn read_parts(alloc: Global, pcb: &Tree) -> Result<Parts, ReadFault>
    requires { weight (pcb.now ∷ []) ≤ 2 ^ 26 }
    ensures reads { ReadsParts pcb.now result }
    ensures sound { IfOk result ArePartsSound }
{
    let head = match read_head(alloc, pcb) {
        Ok(head) => head,
        Err(fault) => return Err(fault),
    };
    let s = head.scale;
    let structure = match read_structure(alloc, pcb, s) {
        Ok(structure) => structure,
        Err(fault) => {
            drop(head);
            return Err(fault);
        }
    };
    let library = match read_library(alloc, pcb, s, &structure.layers) {
        Ok(library) => library,
        Err(fault) => {
            drop((head, structure));
            return Err(fault);
        }
    };
    let placing = match read_placement(alloc, pcb, s, &structure, &library) {
        Ok(placing) => placing,
        Err(fault) => {
            drop((head, structure));
            drop(library);
            return Err(fault);
        }
    };
    read_rest(alloc, pcb, head, structure, library, placing)
}

/// The design of a text of at most 2^26 bytes. All lengths are in nm; indices count from 0.
/// It is sound: its numbers are within bounds, its indices in range, and each pin has its pad.
///
/// # Errors
///
/// The fault of the text's tree that is met first, or the refusal that counts in the first phase that has one:
/// head, structure, library, placement, network, wiring; or want of memory.
pub fn read_design(alloc: Global, text: &[u8]) -> Result<Design, DesignFault>
    requires { length text.now ≤ 2 ^ 26 }
    ensures reads { ReadsDesign text.now result }
    ensures tabled { IfRefused result IsTabled }
    ensures memory { result ≢ Err (DesignFault.Spelling (TreeFault.Memory alloc_error)) }
    ensures sound { IfOk result IsSound }
    ensures plain { IfOk result IsPlainCopper }
{
    let tree = match read_tree(alloc, text) {
        Ok(tree) => tree,
        Err(TreeFault::Memory(error)) => return Err(DesignFault::Memory(error)),
        Err(fault) => return Err(DesignFault::Spelling(fault)),
    };
    let parts = match read_parts(alloc, &tree) {
        Ok(parts) => parts,
        Err(ReadFault::Refused(refusal)) => {
            drop(tree);
            return Err(DesignFault::Refused(refusal));
        }
        Err(ReadFault::Memory(error)) => {
            drop(tree);
            return Err(DesignFault::Memory(error));
        }
    };
    drop(tree);
    match make_design(alloc, &parts) {
        Ok(design) => {
            drop(parts);
            Ok(design)
        }
        Err(error) => {
            drop(parts);
            Err(DesignFault::Memory(error))
        }
    }
}
