//! The board: it takes offers, and goes back.
//! Whatever it answers, it is legal after every entry of its history, and want of memory changes nothing.

ghost use Rattle.std.specs.Prelude.{◌≡◌, ◌↔◌, ◌+◌, ◌≤◌, ◌<◌, ◌^◌, [], ℕ, length, slice_index_or, IsTrue, IfOk, IfErr};
ghost use Rattle.std.specs.Prelude.{OnOk, OnErr, None};
ghost use Rattle.pcb_model.specs.Sound.{IsSound};
ghost use Rattle.board_offers.specs.Items.{new_items};
ghost use Rattle.board_offers.specs.Offers.{IsWellFormed};
ghost use Rattle.board_offers.specs.Troubles.{FailsLeast};
ghost use Rattle.pcb_board.specs.Boards.{given, replayed};
ghost use Rattle.pcb_board.specs.Answers.{Step, Makes, snap_of, taken_back, HasMade, IsFull, IsHeard, IsClearOn};
ghost use Rattle.pcb_board.specs.Answers.{known, joined, BlamesLast, MayLackMemory};
ghost use Rattle.pcb_board.specs.inner.Turning.{LeadBack, AreMarks};
ghost use Rattle.pcb_board.specs.Keeping.{IsBoard, IsStarted, AnswersBack};
ghost use Rattle.pcb_board.specs.inner.Loading.{AreLoaded};
ghost use Rattle.pcb_board.specs.Snaps.{AreTilesOf};
ghost use Rattle.pcb_tiles.specs.Spread.{ServesSpread};

use crate::answer::{Answer, BackFault, Entry, OfferBack, RunBack};
use crate::copy::copy_lists;
use crate::load::{Loaded, load};
use crate::marks::{mark_entry, mark_range, marked_tiles, renew_turned};
use crate::renew::{admit, count_worker, push_back, put_tiles, renew};
use crate::snap::{Snap, shares};
use board_offers::{CLOSER, Judged, Offer, gone_ids, judge, least_trouble};
use geo_kernel::List;
use pcb_model::{Copper, Design, Item, pairs_are_symmetric};
use pcb_tiles::Tiles;
use shared_value::Shared;
use std::alloc::{AllocError, Global};
use std::marker::Model;

/// A board. Contracts see its design, its start list, how many entries of workers may stand, its history and its
/// items.
pub struct Board {
    alloc: Global,
    design: Shared<Design>,
    cap: u64,
    history: List<Entry>,
    // how many entries are of workers
    workers: u64,
    // the items ever given; an item's id is its place
    given: Vec<Item>,
    // how many of them are of the start
    started: usize,
    // for each id the last entry that placed or removed it
    changed: Vec<u64>,
    tiles: Tiles,
}

// Let go by a call, where a derived `Drop` would let go field by field in each function that owns a board.
impl Drop for Board {
    fn drop(self) {
        let Board {
            alloc: _,
            design: _,
            cap: _,
            history: _,
            workers: _,
            given: _,
            started: _,
            changed: _,
            tiles: _,
        } = self;
    }
}

impl Model for Board {
    ghost use Rattle.std.specs.Prelude.{take};
    ghost use Rattle.pcb_board.specs.Boards.{BoardOf};

    ghost Value = { BoardOf };

    ghost use Rattle.pcb_board.specs.Indexing.{board_of, IsIndexed};

    ghost view = { board_of };

    ghost invariant = { IsIndexed };
}

// A design's items, and for each that no entry changed it.
fn beginning(alloc: Global, d: &Design) -> Result<(Loaded, Vec<u64>), AllocError>
    requires { IsSound d.now }
    ensures loaded { IfOk result (λ r. AreLoaded d.now [] r.0) }
    ensures size { IfOk result (λ r. length r.1.items ≡ length r.0.given.items) }
    ensures zeros { IfOk result (λ r. (x k : ℕ) → x < length r.1.items → slice_index_or r.1.items x k ≡ 0) }
{
    let loaded = load(alloc, d)?;
    let mut changed = Vec::new(alloc);
    match changed.resize(loaded.given.len(), 0) {
        Ok(()) => Ok((loaded, changed)),
        Err(error) => {
            drop((loaded, changed));
            Err(error)
        }
    }
}

// The board of what was loaded, and the places of what was dropped.
fn opened(
    alloc: Global,
    design: Shared<Design>,
    cap: u64,
    loaded: Loaded,
    changed: Vec<u64>,
) -> (Board, List<u64>)
    requires sound { IsSound design }
    requires cap { cap ≤ 2 ^ 19 }
    requires loaded { AreLoaded design [] loaded }
    requires size { length changed.items ≡ length loaded.given.items }
    requires zeros { (x k : ℕ) → x < length changed.items → slice_index_or changed.items x k ≡ 0 }
    ensures { IsStarted design cap result.0 result.1 }
{
    let Loaded {
        tiles,
        given,
        dropped,
    } = loaded;
    let started = given.len();
    let board = Board {
        alloc,
        design,
        cap,
        history: List::new(alloc),
        workers: 0,
        given,
        started,
        changed,
        tiles,
    };
    (board, dropped)
}

impl Board {
    /// The board of a design's fixed items and of those of its free items that are legal with what is loaded by then,
    /// and the places of the others. At most `cap` entries of workers may stand. `AllocError` comes only for want of
    /// memory.
    pub fn start(alloc: Global, design: Design, cap: u64) -> Result<(Board, List<u64>), AllocError>
        requires sound { IsSound design }
        requires cap { cap ≤ 2 ^ 19 }
        ensures { IfOk result (λ r. IsStarted design cap r.0 r.1) }
    {
        let design = Shared::new(alloc, design)?;
        match beginning(alloc, design.get()) {
            Ok((loaded, changed)) => Ok(opened(alloc, design, cap, loaded, changed)),
            Err(error) => {
                drop(design);
                Err(error)
            }
        }
    }

    /// What every board keeps: a call that does nothing but say so.
    pub fn keeps(&self)
        ensures { IsBoard self.now }
    {
        let _value = &self.tiles;
    }

    /// The entries, in order.
    pub fn history(&self) -> &List<Entry>
        ensures { result.now ≡ self.now.history }
    {
        &self.history
    }

    /// The items, in tiles over the least box that holds the first boundary, with the design's greatest clearance as
    /// their reach.
    pub fn items(&self) -> &Tiles
        ensures items { result.now.items ≡ self.now.items }
        ensures tiles { AreTilesOf self.now.design result.now.area result.now.reach }
        ensures serves { ServesSpread result.now self.now.design }
    {
        &self.tiles
    }

    /// The design.
    pub fn design(&self) -> &Design
        ensures { result.now ≡ self.now.design }
    {
        self.design.get()
    }

    /// A snapshot of the board as it is.
    pub fn snap(&self) -> Result<Snap, AllocError>
        ensures { IfOk result (λ s. s ≡ snap_of self.now) }
    {
        let (design, tiles) = shares(&self.design, &self.tiles)?;
        Ok(Snap {
            alloc: self.alloc,
            design,
            tiles,
            number: self.history.len() as u64,
        })
    }

    /// Answers an offer. `Full` comes before `Malformed`, and that before `Stale` or `Wrong`; only `Committed` changes
    /// the board. Where memory is wanting the offer comes back, and nothing changes; then the board isn't full, and the
    /// first three clauses of a well-formed offer hold.
    pub fn offer(&mut self, offer: Offer) -> Result<Answer, OfferBack>
        ensures ok { IfOk result (λ a. Step self.old offer a self.new) }
        ensures err { IfErr result (λ e. (e.offer ≡ offer) × (self.new ≡ self.old) × MayLackMemory self.old offer) }
    {
        match self.check(&offer) {
            Ok(Ok(new)) => self.commit(offer, new),
            Ok(Err(answer)) => {
                drop(offer);
                Ok(answer)
            }
            Err(cause) => Err(OfferBack { offer, cause }),
        }
    }

    // The new items of an offer that is to be committed, or else the answer.
    fn check(&self, offer: &Offer) -> Result<Result<List<Item>, Answer>, AllocError>
        ensures heard { IfOk result (λ r. IfOk r (λ new. IsHeard self.now offer.now)) }
        ensures clear { IfOk result (λ r. IfOk r (λ new. FailsLeast (IsClearOn self.now offer.now) None)) }
        ensures new { IfOk result (λ r. IfOk r (λ new.
            new ≡ new_items self.now.design (given self.now) offer.now)) }
        ensures refused { IfOk result (λ r. IfErr r (λ a. Step self.now offer.now a self.now)) }
        ensures err { OnErr result (MayLackMemory self.now offer.now) }
    {
        if self.is_full(offer) {
            return Ok(Err(Answer::Full));
        }
        let entries = self.history.len() as u64;
        let judged = judge(
            self.alloc,
            self.design.get(),
            self.given.as_slice(),
            entries,
            offer,
        );
        let new = match judged {
            Ok(Judged::Fine(new)) => new,
            Ok(Judged::Fault(clause)) => return Ok(Err(Answer::Malformed { clause })),
            Err(cause) => return Err(cause),
        };
        match self.least_trouble(offer, new.as_slice()) {
            Ok(None) => Ok(Ok(new)),
            Ok(Some(item)) => Ok(Err(self.trouble_at(offer.base, item))),
            Err(cause) => Err(cause),
        }
    }

    fn is_full(&self, offer: &Offer) -> bool
        ensures { IsTrue result ↔ IsFull self.now offer.now }
    {
        offer.worker < CLOSER && self.workers >= self.cap
    }

    fn least_trouble(&self, offer: &Offer, new: &[Item]) -> Result<Option<u64>, AllocError>
        requires formed { IsWellFormed (known self.now) offer.now }
        requires new { new.now ≡ new_items self.now.design (given self.now) offer.now }
        ensures { IfOk result (FailsLeast (IsClearOn self.now offer.now)) }
    {
        self.tiles.in_order();
        least_trouble(
            self.alloc,
            self.design.get(),
            &self.tiles,
            self.given.as_slice(),
            offer,
            new,
        )
    }

    // What is answered where there is trouble at an id.
    fn trouble_at(&self, base: u64, item: u64) -> Answer
        requires { item < length (given self.now) }
        ensures { BlamesLast self.now base item result }
    {
        let commit = self.changed[item as usize];
        if commit > base {
            Answer::Stale { item, commit }
        } else {
            Answer::Wrong { item, commit }
        }
    }

    // Takes an offer without trouble.
    fn commit(&mut self, offer: Offer, new: List<Item>) -> Result<Answer, OfferBack>
        requires heard { IsHeard self.old offer }
        requires clear { FailsLeast (IsClearOn self.old offer) None }
        requires new { new ≡ new_items self.old.design (given self.old) offer }
        ensures ok { IfOk result (λ a. (a ≡ Answer.Committed (length self.old.history + 1))
            × (self.new ≡ joined self.old offer)) }
        ensures err { IfErr result (λ e. (e.offer ≡ offer) × (self.new ≡ self.old)) }
    {
        pairs_are_symmetric();
        let after = self.given.len() + new.len();
        let number = self.history.as_slice().len() as u64 + 1;
        let workers = count_worker(self.workers, offer.worker);
        let (gone, tiles) = match admit(
            self.alloc,
            &mut self.given,
            &mut self.changed,
            &mut self.history,
            &self.tiles,
            offer,
            new.as_slice(),
        ) {
            Ok(entered) => entered,
            Err(back) => {
                drop(new);
                return Err(back);
            }
        };
        let mut new = new.into_vec();
        renew(&mut self.changed, gone.as_slice(), number, after);
        let _ = self.given.append(&mut new);
        self.workers = workers;
        put_tiles(&mut self.tiles, tiles);
        Ok(Answer::Committed { number })
    }

    /// Makes the items those after the first `to` entries, with their ids, by one more entry. It is refused exactly
    /// where there are fewer entries; then, and where memory is wanting, nothing changes.
    pub fn back(&mut self, to: u64) -> Result<(), BackFault>
        ensures ok { OnOk result ((to ≤ length self.old.history) × (self.new ≡ taken_back self.old to)) }
        ensures err { IfErr result (λ f. (self.new ≡ self.old) × AnswersBack self.old to f) }
    {
        let entries = self.history.len() as u64;
        if to > entries {
            return Err(BackFault::Later { entries });
        }
        match self.go_back(to) {
            Ok(()) => Ok(()),
            Err(cause) => Err(BackFault::Memory(cause)),
        }
    }

    fn go_back(&mut self, to: u64) -> Result<(), AllocError>
        requires { to ≤ length self.old.history }
        ensures ok { OnOk result (self.new ≡ taken_back self.old to) }
        ensures err { OnErr result (self.new ≡ self.old) }
    {
        let marks = self.marks_after(to as usize)?;
        self.turn_to(to, marks.as_slice())
    }

    // Makes the items those that stood after the first `to` entries, which are marked.
    fn turn_to(&mut self, to: u64, marks: &[bool]) -> Result<(), AllocError>
        requires to { to ≤ length self.old.history }
        requires long { length marks.now ≡ length (given self.old) }
        requires marks { AreMarks marks.now (replayed self.old to) }
        ensures ok { OnOk result (self.new ≡ taken_back self.old to) }
        ensures err { OnErr result (self.new ≡ self.old) }
    {
        let number = self.history.as_slice().len() as u64 + 1;
        let tiles = marked_tiles(self.alloc, self.design.get(), self.given.as_slice(), marks)?;
        match push_back(&mut self.history, to) {
            Ok(()) => {
                renew_turned(&mut self.changed, &self.tiles, marks, number);
                put_tiles(&mut self.tiles, tiles);
                Ok(())
            }
            Err(error) => {
                drop(tiles);
                Err(error)
            }
        }
    }

    // The joins that lead to the items after the first `to` entries, the last first.
    fn joins_to(&self, to: usize) -> Result<Vec<usize>, AllocError>
        requires { to ≤ length self.now.history }
        ensures { IfOk result (λ joins. LeadBack self.now to joins.items 0) }
    {
        let mut joins = Vec::new(self.alloc);
        let mut k = to;
        while k > 0 {
            match &self.history.as_slice()[k - 1] {
                Entry::Join { .. } => {
                    k -= 1;
                    joins.push(k)?;
                }
                Entry::Back { to } => k = *to as usize,
            }
        }
        Ok(joins)
    }

    // Which of the ids stand after the first `to` entries.
    fn marks_after(&self, to: usize) -> Result<Vec<bool>, AllocError>
        requires { to ≤ length self.now.history }
        ensures long { IfOk result (λ marks. length marks.items ≡ length (given self.now)) }
        ensures marks { IfOk result (λ marks. AreMarks marks.items (replayed self.now to)) }
    {
        let mut joins = self.joins_to(to)?;
        let mut marks = Vec::new(self.alloc);
        marks.resize(self.given.len(), false)?;
        mark_range(&mut marks, 0, self.started);
        while let Some(k) = joins.pop() {
            mark_entry(&mut marks, self.history.as_slice(), k);
        }
        Ok(marks)
    }

    /// An equal board.
    pub fn copy(&self) -> Result<Board, AllocError>
        ensures { IfOk result (λ c. c ≡ self.now) }
    {
        let (design, tiles) = shares(&self.design, &self.tiles)?;
        let copied = copy_lists(
            self.alloc,
            self.history.as_slice(),
            self.given.as_slice(),
            self.changed.as_slice(),
        );
        match copied {
            Ok(lists) => Ok(Board {
                alloc: self.alloc,
                design,
                cap: self.cap,
                history: lists.history,
                workers: self.workers,
                given: lists.given,
                started: self.started,
                changed: lists.changed,
                tiles,
            }),
            Err(error) => {
                drop((design, tiles));
                Err(error)
            }
        }
    }
}

/// A board that comes back for want of memory.
#[derive(Drop)]
pub struct PassBack {
    pub board: Board,
    pub cause: AllocError,
}

// The answers so far, and the other offers, which come back.
fn run_back(done: Vec<Answer>, left: Vec<Offer>, cause: AllocError) -> RunBack
    ensures done { result.done ≡ done.items }
    ensures left { result.left ≡ left.items }
{
    RunBack {
        done: List::from_vec(done),
        left: List::from_vec(left),
        cause,
    }
}

/// Makes offers, in order. Where memory is wanting, the answers so far stand in `done`, and the other offers come
/// back.
pub fn run_offers(
    alloc: Global,
    board: &mut Board,
    offers: Vec<Offer>,
) -> Result<Vec<Answer>, RunBack>
    ensures ok { IfOk result (λ answers. Makes board.old offers.items answers.items board.new) }
    ensures err { IfErr result (λ e. HasMade board.old offers.items e.left e.done board.new) }
{
    let mut left = offers;
    let mut done = Vec::new(alloc);
    if let Err(cause) = done.reserve(left.len()) {
        return Err(run_back(done, left, cause));
    }
    left.reverse();
    while let Some(offer) = left.pop() {
        match board.offer(offer) {
            Ok(answer) => done.push_reserved(answer),
            Err(OfferBack { offer, cause }) => {
                left.push_reserved(offer);
                left.reverse();
                return Err(run_back(done, left, cause));
            }
        }
    }
    Ok(done)
}
