//! How a section reads its lists: one implementation of `Part` for each kind of list.
//! The loop over the lists, and its proof, stand here once.

ghost use Rattle.std.specs.Prelude.{◌≡◌, map, IfOk, OnOk};
ghost use Rattle.std.specs.List.{flat_map};
ghost use Rattle.dsn_shapes.specs.Lists.{trees_of};
ghost use Rattle.dsn_shapes.specs.Refusals.{noted};

use crate::refusal::Refusal;
use crate::trees::Trees;
use dsn_tree::Tree;
use geo_kernel::List;
use std::alloc::{AllocError, Global};

/// How lists of one kind are read.
pub trait Part<V> {
    ghost use Rattle.std.specs.Prelude.{List as Seq};
    ghost use Rattle.dsn_tree.specs.declared.tree.Tree.{Tree as TheTree};
    ghost use Rattle.dsn_shapes.specs.declared.refusal.Refusal.{Refusal as TheRefusal};

    /// All refusals of a list.
    ghost refusals: { Self → TheTree → Seq TheRefusal };

    /// The value of a list, which counts only where no refusal stands.
    ghost value: { Self → TheTree → V };

    /// Reads one list, and notes its refusals.
    fn read(&self, alloc: Global, first: &mut Option<Refusal>, tree: &Tree) -> Result<V, AllocError>
        ensures noted { OnOk result (first.new ≡ noted first.old (refusals self.now tree.now)) }
        ensures value { IfOk result (λ v. v ≡ value self.now tree.now) };
}

fn read_trees<V: Drop, P: Part<V>>(
    alloc: Global,
    part: &P,
    first: &mut Option<Refusal>,
    trees: &[&Tree],
) -> Result<List<V>, AllocError>
    ensures noted { OnOk result (first.new ≡ noted first.old (flat_map (P.refusals part.now) (trees_of trees.now))) }
    ensures values { IfOk result (λ vs. vs ≡ map (P.value part.now) (trees_of trees.now)) }
{
    let mut values = List::new(alloc);
    for tree in trees {
        let value = part.read(alloc, first, tree)?;
        values.push(value)?;
    }
    Ok(values)
}

/// Reads each of these lists, and notes their refusals.
pub fn read_each<V: Drop, P: Part<V>>(
    alloc: Global,
    part: &P,
    first: &mut Option<Refusal>,
    trees: &Trees,
) -> Result<List<V>, AllocError>
    ensures noted { OnOk result (first.new ≡ noted first.old (flat_map (P.refusals part.now) trees.now)) }
    ensures values { IfOk result (λ vs. vs ≡ map (P.value part.now) trees.now) }
{
    read_trees(alloc, part, first, trees.as_slice())
}
