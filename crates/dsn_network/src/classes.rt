//! An index of the classes by the nets that they name.
//! A net's class is the last class list that names it.

ghost use Rattle.std.specs.Prelude.{◌≡◌, ℕ, List, Some, IfOk, OnOk, if◌then◌else◌};
ghost use Rattle.std.specs.List.{list_any};
ghost use Rattle.std.specs.Str.{bytes_eq};
ghost use Rattle.dsn_shapes.specs.Index.{place_by};
ghost use Rattle.dsn_shapes.specs.Lists.{text_of, trees_of};
ghost use Rattle.dsn_network.specs.Classes.{class_of, last_naming, stray_names};

use crate::words::{push_words, words_in};
use dsn_shapes::{NameIndex, Trees, place_index, text_of};
use dsn_tree::Tree;
use std::alloc::{AllocError, Global};
use std::collections::BTreeMap;

type NameMap<'a> = BTreeMap<&'a [u8], usize>;

fn keep_names<'a>(map: &mut NameMap<'a>, words: &[&'a Tree], class: usize) -> Result<(), AllocError>
    ensures { OnOk result ((q : List ℕ)
        → place_by map.new q ≡ (if list_any (λ w. bytes_eq (text_of w) q) (trees_of words.now) then Some class
        else place_by map.old q)) }
{
    for word in words {
        map.insert(text_of(word), class)?;
    }
    Ok(())
}

/// Which of these class lists last names a net.
#[derive(Drop)]
pub(crate) struct ClassIndex<'a, 'b> {
    lists: &'b Trees<'a>,
    last: NameMap<'a>,
    ghost by_name: { (q : List ℕ) → place_by last q ≡ last_naming q 0 lists.now },
}

impl<'a, 'b> ClassIndex<'a, 'b> {
    /// The index of these class lists.
    pub(crate) fn of(alloc: Global, lists: &'b Trees<'a>) -> Result<ClassIndex<'a, 'b>, AllocError>
        ensures { IfOk result (λ x. x.lists.now ≡ lists.now) }
    {
        let trees = lists.as_slice();
        let mut last = BTreeMap::new(alloc);
        for (k, list) in trees.iter().enumerate() {
            let mut words = Trees::new(alloc);
            push_words(&mut words, list, 2)?;
            keep_names(&mut last, words.as_slice(), k)?;
        }
        Ok(ClassIndex { lists, last })
    }

    /// The class of a net.
    #[tactic(auto, unfolding(crate::specs::Classes::class_of))]
    pub(crate) fn class_of(&self, name: &[u8]) -> Option<u32>
        ensures { result ≡ class_of name.now self.now.lists.now }
    {
        match self.last.get(name) {
            Some(class) => Some(place_index(*class)),
            None => None,
        }
    }
}

/// How many words of these class lists are names of no net, but for empty ones.
#[tactic(auto, unfolding(crate::specs::Classes::stray_names))]
pub(crate) fn stray_names(
    alloc: Global,
    nets: &NameIndex,
    classes: &Trees,
) -> Result<u64, AllocError>
    ensures { IfOk result (λ n. n ≡ stray_names nets.now classes.now) }
{
    let found = words_in(alloc, classes, 2)?;
    let words = found.as_slice();
    let mut count = 0;
    for word in words {
        let name = text_of(word);
        if name.len() != 0 && nets.first_place(name).is_none() {
            count += 1;
        }
    }
    Ok(count)
}
