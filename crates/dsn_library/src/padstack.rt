//! Padstacks: the copper of a pin or a via on each layer.
//! Source: SPECCTRA reference, padstack descriptor.

ghost use Rattle.std.specs.Prelude.{◌≡◌, map, IfOk, OnOk};
ghost use Rattle.dsn_shapes.specs.Names.{names_at};
ghost use Rattle.dsn_shapes.specs.Refusals.{noted};
ghost use Rattle.dsn_library.specs.Padstacks.{stack_of, stacks_refusals};

use dsn_shapes::{
    Layer, LayerShape, NameIndex, Part, Refusal, Shapes, Stack, Trees, name_of, read_each,
    refuse_quoted_name,
};
use dsn_tree::Tree;
use dsn_units::Scale;
use geo_kernel::List;
use std::alloc::{AllocError, Global};

// Padstacks, each a list such as `(padstack P (shape (circle F.Cu 1000)))`.
#[derive(Drop)]
struct Padstacks<'a> {
    scale: Scale,
    layers: &'a List<Layer>,
}

impl<'a> Part<Stack> for Padstacks<'a> {
    ghost use Rattle.dsn_library.specs.Padstacks.{stack_of, stack_refusals};

    ghost refusals = { λ p t. stack_refusals p.scale.nm p.layers.now t };

    ghost value = { λ p t. stack_of p.scale.nm p.layers.now t };

    #[tactic(auto, unfolding(crate::specs::Padstacks::stack_of, crate::specs::Padstacks::stack_refusals))]
    fn read(
        &self,
        alloc: Global,
        first: &mut Option<Refusal>,
        tree: &Tree,
    ) -> Result<Stack, AllocError> {
        refuse_quoted_name(first, tree, 1);
        let forms = Shapes {
            scale: self.scale,
            layers: self.layers,
        };
        let lists = Trees::in_list(alloc, tree, b"shape")?;
        let shapes = read_each(alloc, &forms, first, &lists);
        drop(lists);
        let shapes = shapes?;
        let name = List::from_slice(alloc, name_of(tree, 1))?;
        Ok(Stack { name, shapes })
    }
}

/// All padstacks of a library, whose names `names` is the index of.
#[tactic(auto, unfolding(crate::specs::Padstacks::stacks_refusals, dsn_shapes::specs::Names::same_names))]
pub(crate) fn read_stacks(
    alloc: Global,
    first: &mut Option<Refusal>,
    padstacks: &Trees,
    names: &NameIndex,
    scale: Scale,
    layers: &List<Layer>,
) -> Result<List<Stack>, AllocError>
    requires { names.now ≡ names_at 1 padstacks.now }
    ensures noted { OnOk result (first.new ≡ noted first.old (stacks_refusals scale.nm layers.now padstacks.now)) }
    ensures value { IfOk result (λ v. v ≡ map (stack_of scale.nm layers.now) padstacks.now) }
{
    names.refuse_same(first, padstacks, 1);
    read_each(alloc, &Padstacks { scale, layers }, first, padstacks)
}
