//! Settled moves of the items that cuts name, in order: island by island, and of each the first items by id.
//! The first that helps is kept.

ghost use Rattle.std.specs.Prelude.{◌≡◌, ◌<◌, IfOk, OnOk, length};
ghost use Rattle.closing_pass.specs.Closing.{HaveCuts};
ghost use Rattle.closing_pass.specs.Settled.{AreNamed};
ghost use Rattle.closing_pass.specs.inner.Steps.{AreReady};
ghost use Rattle.closing_pass.specs.inner.Trials.{after_trial};
ghost use Rattle.closing_pass.specs.inner.Tries.{AnswersAt, AnswersIsland, AnswersNet, AreShutOn, HasCutAt, NamesMore};

use crate::join::{Closer, SearchState, put_back};
use crate::moves::ShutIsland;
use cut_certificate::{Block, Blocker, Cut};
use geo_kernel::List;
use pcb_board::Board;
use pcb_islands::Island;
use pcb_model::Copper;
use pcb_tiles::Tiles;
use std::alloc::{AllocError, Global};

// Appends the id that a block names, if it is that of a routed item.
fn push_named(ids: &mut Vec<u64>, tiles: &Tiles, block: &Block) -> Result<(), AllocError>
    ensures { OnOk result (NamesMore tiles.now.items block.now ids.old.items ids.new.items) }
{
    let Blocker::Item(id) = block.by else {
        return Ok(());
    };
    if ids.last() == Some(&id) {
        return Ok(());
    }
    tiles.in_order();
    let Some(item) = tiles.item(id) else {
        return Ok(());
    };
    if !item.fixed {
        ids.push(id)?;
    }
    Ok(())
}

// The ids of the routed items that a cut names, ascending.
fn named_ids(alloc: Global, tiles: &Tiles, cut: &Cut) -> Result<Vec<u64>, AllocError>
    ensures { IfOk result (λ ids. AreNamed tiles.now.items cut.now ids.items) }
{
    let mut ids = Vec::new(alloc);
    for block in cut.blocked.as_slice() {
        push_named(&mut ids, tiles, block)?;
    }
    ids.sort_unstable();
    ids.dedup();
    Ok(ids)
}

impl ShutIsland<'_> {
    /// Tries the first items that the cut of the island names.
    fn try_named(&self, alloc: Global, state: &mut SearchState) -> Result<Option<Board>, AllocError>
        requires ready { AreReady self.now.lat self.now.via_cost self.now.board state.old }
        ensures answers { IfOk result (AnswersIsland self.now) }
        ensures ready { IfOk result (λ o. AreReady self.now.lat self.now.via_cost (after_trial self.now.board o)
            state.new) }
    {
        let mut ids = named_ids(alloc, self.board.items(), self.cut)?;
        ids.truncate(self.closer.tries as usize);
        for id in &ids {
            if let Some(helped) = self.try_item(alloc, state, *id)? {
                return Ok(Some(helped));
            }
        }
        Ok(None)
    }
}

impl Closer<'_> {
    /// Tries to help the island at a place among those of its net. The islands come back.
    fn help_at(
        &self,
        alloc: Global,
        state: &mut SearchState,
        board: &Board,
        found: List<Island>,
        place: usize,
        cut: &Cut,
    ) -> Result<(List<Island>, Option<Board>), AllocError>
        requires ready { AreReady self.now.lat.now self.now.via_cost board.now state.old }
        requires shut { AreShutOn self.now.lat.now self.now.via_cost board.now found }
        requires place { place < length found }
        requires cut { HasCutAt self.now.lat.now self.now.via_cost board.now found place cut.now }
        ensures found { IfOk result (λ r. r.0 ≡ found) }
        ensures answers { IfOk result (λ r. AnswersAt self.now.lat.now self.now.via_cost self.now.tries board.now found
            place cut.now r.1) }
        ensures ready { IfOk result (λ r. AreReady self.now.lat.now self.now.via_cost (after_trial board.now r.1)
            state.new) }
    {
        let mut others = found;
        let island = others.remove(place);
        let shut = ShutIsland {
            closer: *self,
            board,
            island: &island,
            others: &others,
            cut,
        };
        let helped = shut.try_named(alloc, state);
        drop(shut);
        match helped {
            Ok(helped) => match put_back(others, place, island) {
                Ok(found) => Ok((found, helped)),
                Err(error) => {
                    drop(helped);
                    Err(error)
                }
            },
            Err(error) => {
                drop((others, island));
                Err(error)
            }
        }
    }

    /// Tries to help an island of a net, each of which has its cut.
    pub(crate) fn help_net(
        &self,
        alloc: Global,
        state: &mut SearchState,
        board: &Board,
        found: List<Island>,
        cuts: &List<Cut>,
    ) -> Result<Option<Board>, AllocError>
        requires ready { AreReady self.now.lat.now self.now.via_cost board.now state.old }
        requires shut { AreShutOn self.now.lat.now self.now.via_cost board.now found }
        requires cuts { HaveCuts board.now.design self.now.lat.now self.now.via_cost board.now.items found cuts.now }
        ensures answers { IfOk result
            (AnswersNet self.now.lat.now self.now.via_cost self.now.tries board.now found cuts.now) }
        ensures ready { IfOk result (λ o. AreReady self.now.lat.now self.now.via_cost (after_trial board.now o)
            state.new) }
    {
        let mut found = found;
        for place in 0..found.len() {
            let cut = &cuts.as_slice()[place];
            let (same, helped) = self.help_at(alloc, state, board, found, place, cut)?;
            match helped {
                Some(board) => {
                    drop(same);
                    return Ok(Some(board));
                }
                None => found = same,
            }
        }
        Ok(None)
    }
}
