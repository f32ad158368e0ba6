//! Words of lists behind their heads, and the rules in lists.
//! Groups between words are skipped.

ghost use Rattle.std.specs.Prelude.{◌≡◌, ◌∷◌, ◌++◌, [], IfOk, OnOk};
ghost use Rattle.dsn_shapes.specs.Lists.{capped};
ghost use Rattle.dsn_shapes.specs.Refusals.{noted};
ghost use Rattle.dsn_shapes.specs.Rules.{rule_notes, rule_refusals, rule_set};
ghost use Rattle.dsn_network.specs.Words.{rules_in, words_from, words_in};

use dsn_shapes::{Refusal, Rules, Trees, is_word, read_rules};
use dsn_tree::{Tree, items};
use dsn_units::Scale;
use std::alloc::{AllocError, Global};

/// Appends the words of a list from word `from` on, where its head is word 0.
pub(crate) fn push_words<'a>(
    found: &mut Trees<'a>,
    tree: &'a Tree,
    from: usize,
) -> Result<(), AllocError>
    ensures { OnOk result (found.new ≡ found.old ++ words_from from tree.now) }
{
    let mut left = from;
    for item in items(tree) {
        if is_word(item) {
            if left > 0 {
                left -= 1;
            } else {
                found.push(item)?;
            }
        }
    }
    Ok(())
}

/// The words of these lists from word `from` on, where the head of a list is word 0.
pub(crate) fn words_in<'a>(
    alloc: Global,
    lists: &Trees<'a>,
    from: usize,
) -> Result<Trees<'a>, AllocError>
    ensures { IfOk result (λ ts. ts ≡ words_in from lists.now) }
{
    let trees = lists.as_slice();
    let mut found = Trees::new(alloc);
    for tree in trees {
        push_words(&mut found, tree, from)?;
    }
    Ok(found)
}

/// The rules that stand directly in a list.
pub(crate) fn rules_of(
    alloc: Global,
    first: &mut Option<Refusal>,
    tree: &Tree,
    scale: Scale,
) -> Result<Rules, AllocError>
    ensures noted { OnOk result (first.new ≡ noted first.old (rule_refusals scale.nm (rules_in (tree.now ∷ [])))) }
    ensures set { IfOk result (λ v. v.set ≡ rule_set scale.nm (rules_in (tree.now ∷ []))) }
    ensures notes { IfOk result (λ v. v.notes ≡ capped (rule_notes (rules_in (tree.now ∷ [])))) }
{
    let rules = Trees::in_list(alloc, tree, b"rule")?;
    let read = read_rules(alloc, first, &rules, scale);
    drop(rules);
    read
}
