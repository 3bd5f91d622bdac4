//! The ledger that threads share, without a lock.

ghost use Rattle.std.specs.Prelude.{◌≡◌, ◌⊎◌, ◌<◌, ◌≤◌, ℕ, true, false, All, map, set, length};
ghost use Rattle.std.specs.Prelude.{slice_index_or, IfOk, IfErr, OnErr, Ok, Err, Some, None};
ghost use Rattle.std.specs.Option.{option_map};
ghost use Rattle.fault_ledger.specs.declared.Call.TheVariants as call;
ghost use Rattle.fault_ledger.specs.declared.Event.{Event};
ghost use Rattle.fault_ledger.specs.declared.Reply.TheVariants.{Done};
ghost use Rattle.fault_ledger.specs.History.{History, ContinuesWithout, block_count, block_of};
ghost use Rattle.fault_ledger.specs.History.{entry, held_by, piece_at, piece_count};
ghost use Rattle.fault_ledger.specs.Answer.{answer, claim_reply_of, done_reply_of, has_earlier_hit};
ghost use Rattle.fault_ledger.specs.Answer.{is_hit};
ghost use Rattle.fault_ledger.specs.Settled.{status, finish, AreClear};
ghost use Rattle.fault_ledger.specs.Face.{shape_fault, shape_of};
ghost use Rattle.fault_ledger.specs.Seats.{Closes, EndsClear, FindsNoHit, IsSitter, Keeps, Makes};
ghost use Rattle.fault_ledger.specs.Seats.{Meets, Sees, Stays, class_and_block, newcomers};
ghost use Rattle.fault_ledger.specs.Seats.{nothing_seen};
ghost use Rattle.fault_ledger.specs.Words.{newcomer_posts, post_of};

use crate::rows::BlockRow;
use crate::words::{Group, Token, Words};
use crate::{Claim, Closed, Finish, LedgerFault, PieceState, Refusal, Shape, Status};
use patterns::{BLOCK_SIZE, Outcome};
use std::alloc::{AllocError, Global};
use std::marker::Model;

/// The number of first classes whose seen blocks a seat remembers, at 8 bytes a class.
const REMEMBERED_CLASSES: u32 = 65_536;

/// A ledger that threads share.
///
/// The n-th claim over all workers, counted from 0, is for the piece of class `n % classes` and
/// block `n / classes`. Each worker calls with its [`Seat`]. Each accepted claim, report and drop
/// takes effect at one atomic step. So the calls of all workers are one legal history of the
/// sequential ledger. No call takes a lock or tries a step again. Only [`SharedLedger::new`] and
/// [`SharedLedger::close`] take memory.
///
/// Contracts see a seat as its ledger, its worker, the history that it has seen, and whether it has
/// got [`Claim::Exhausted`]. Seats come from the ledger that they are used with.
#[derive(Drop)]
pub struct SharedLedger {
    words: Words,
    shape: Shape,
}

impl Model for SharedLedger {
    ghost use Rattle.std.specs.Prelude.{◌≡◌};
    ghost use Rattle.fault_ledger.specs.Seats.{Place};

    ghost Value = { Place };

    ghost view = { λ l. l.words };

    ghost invariant = { λ l. l.words.shape ≡ l.shape };
}

/// A worker's seat at a [`SharedLedger`]. It moves into the worker's thread and comes back at the
/// join. If a seat is dropped, the piece that it holds stays open.
#[derive(Drop)]
pub struct Seat {
    token: Token,
    worker: u32,
    exhausted: bool,
    // The row of the piece that was claimed last.
    row: BlockRow,
    piece: Option<u32>,
    // For each of the first classes the blocks that the seat has seen. What it has seen stays so.
    remembered: Vec<Remembered>,
}

/// The blocks that a seat has seen of a class.
#[derive(Clone, Copy)]
pub(crate) struct Remembered {
    /// The number of its first blocks that are clear.
    pub(crate) clear: u32,
    /// True if the block after them is known to be a hit.
    pub(crate) hit: bool,
}

/// The memory of a class of which a seat has seen nothing.
const NOTHING_SEEN: Remembered = Remembered {
    clear: 0,
    hit: false,
};

impl Model for Seat {
    ghost use Rattle.fault_ledger.specs.Seats.{Sitter, IsSeated};

    ghost Value = { Sitter };

    ghost view = { λ s. s.token };

    ghost invariant = { λ s. IsSeated s.token s.worker s.exhausted s.row s.piece
        s.remembered.items };
}

impl Seat {
    /// Returns the number of the seat's worker, counted from 0.
    pub fn worker(&self) -> u32
        ensures worker { result ≡ self.now.worker }
        ensures sitter { IsSitter self.now }
    {
        self.worker
    }

    /// Returns the class and the block of the piece that the seat holds.
    pub fn held(&self) -> Option<(u32, u32)>
        ensures held { result ≡ option_map (class_and_block self.now.place.shape)
            (held_by self.now.worker self.now.seen) }
        ensures sitter { IsSitter self.now }
    {
        let piece = self.piece?;
        let place = self.row.class_and_block(piece);
        Some(place)
    }
}

impl SharedLedger {
    /// Makes a ledger of these numbers of fault classes, tests and workers, without claims, and a
    /// seat for each worker, worker w at place w.
    ///
    /// It takes a byte a piece, twice for a moment. For each seat it takes 8 bytes a class that has
    /// a piece, for the first 65,536 classes.
    ///
    /// # Errors
    ///
    /// The first that applies: [`LedgerFault::NoWorkers`]; [`LedgerFault::TooManyWorkers`] above 64
    /// workers; [`LedgerFault::TooManyPieces`] above 16,777,216 pieces; [`LedgerFault::Memory`].
    #[tactic(auto, using(crate::proofs::AllSeats::newcomers_placed))]
    pub fn new(
        alloc: Global,
        classes: u32,
        tests: u32,
        workers: u32,
    ) -> Result<(SharedLedger, Vec<Seat>), LedgerFault>
        ensures ledger { IfOk result (λ made. made.0.shape ≡ shape_of classes tests workers) }
        ensures seats { IfOk result (λ made. made.1.items ≡ newcomers made.0) }
        ensures places { IfOk result (λ made. All (λ seat. seat.place ≡ made.0) made.1.items) }
        ensures refused { (fault : LedgerFault)
            → shape_fault (shape_of classes tests workers) ≡ Some fault → result ≡ Err fault }
        ensures memory { shape_fault (shape_of classes tests workers) ≡ None
            → IfErr result (λ fault. fault ≡ LedgerFault.Memory) }
    {
        let shape = Shape {
            classes,
            tests,
            workers,
        };
        if let Some(fault) = shape.fault() {
            return Err(fault);
        }
        let (words, group) = Words::new(alloc, shape)?;
        let seats = seats_of(alloc, &words, group, shape)?;
        Ok((SharedLedger { words, shape }, seats))
    }

    /// Claims the next piece for a seat that holds none, or returns [`Claim::Exhausted`] if all are
    /// claimed. It is one atomic step. A seat that has got [`Claim::Exhausted`] before gets it
    /// again without a step.
    ///
    /// Each piece moves two cache lines between cores, the cursor's and its word's, which takes 80
    /// to 120 nanoseconds. A claim still takes only one piece, because that fixes the order of
    /// pieces.
    ///
    /// # Errors
    ///
    /// [`Refusal::Holding`], without a step.
    pub fn claim(&self, seat: &mut Seat) -> Result<Claim, Refusal>
        requires { seat.old.place ≡ self.now }
        ensures kept { (seat.new.place ≡ seat.old.place) × (seat.new.worker ≡ seat.old.worker) }
        ensures piece { (class block : ℕ) → result ≡ Ok (Claim.Piece class block)
            → (seat.old.exhausted ≡ false)
            × Makes seat.old (Event.Claim seat.old.worker) (claim_reply_of result) seat.new }
        ensures exhausted { result ≡ Ok Claim.Exhausted → seat.old.exhausted ≡ false
            → Sees seat.old true seat.new
            × (claim_reply_of result
            ≡ answer self.now.shape seat.new.seen (call.Claim seat.old.worker)) }
        ensures marked { result ≡ Ok Claim.Exhausted → seat.new.exhausted ≡ true }
        ensures again { seat.old.exhausted ≡ true
            → (result ≡ Ok Claim.Exhausted)
            × Stays seat.old (call.Claim seat.old.worker) (claim_reply_of result) seat.new }
        ensures refused { OnErr result
            (Stays seat.old (call.Claim seat.old.worker) (claim_reply_of result) seat.new) }
        ensures refusal { IfErr result (λ refusal. refusal ≡ Refusal.Holding) }
    {
        if seat.piece.is_some() {
            return Err(Refusal::Holding);
        }
        if seat.exhausted {
            return Ok(Claim::Exhausted);
        }
        let piece = self.words.claim(&mut seat.token);
        if piece >= self.shape.pieces() {
            seat.exhausted = true;
            return Ok(Claim::Exhausted);
        }
        let piece = piece as u32;
        seat.piece = Some(piece);
        let (class, block) = seat.row.turn_to(piece);
        Ok(Claim::Piece { class, block })
    }

    /// Reports a seat's outcome of the piece that it holds; the seat then holds no piece. It is one
    /// atomic step.
    ///
    /// # Errors
    ///
    /// Without a step, [`Refusal::NothingHeld`], else [`Refusal::BadOutcome`] if the outcome names
    /// a test that the piece's block doesn't have; the seat then still holds the piece.
    pub fn report(&self, seat: &mut Seat, outcome: Outcome) -> Result<(), Refusal>
        requires { seat.old.place ≡ self.now }
        ensures kept { Keeps seat.old seat.new }
        ensures accepted { IfOk result
            (λ _. Makes seat.old (Event.Report seat.old.worker outcome) Done seat.new) }
        ensures refused { OnErr result
            (Stays seat.old (call.Report seat.old.worker outcome) (done_reply_of result) seat.new) }
        ensures refusal { IfErr result
            (λ refusal. (refusal ≡ Refusal.NothingHeld) ⊎ (refusal ≡ Refusal.BadOutcome)) }
    {
        let Some(piece) = seat.piece else {
            return Err(Refusal::NothingHeld);
        };
        let (_class, block) = seat.row.class_and_block(piece);
        if !self.shape.takes(block, outcome) {
            return Err(Refusal::BadOutcome);
        }
        self.words.report(&mut seat.token, piece, outcome);
        seat.piece = None;
        Ok(())
    }

    /// Skips the piece that a seat holds; the seat then holds no piece. It looks at the earlier
    /// blocks of the piece's class until it sees a hit, and then drops the piece in one atomic
    /// step.
    ///
    /// The looks begin at the first block that the seat hasn't seen clear. The seat remembers it
    /// for the first 65,536 classes; for any other class the looks begin at block 0. If it
    /// remembers that block as a hit, it takes no look. It takes at most the time of two looks at
    /// each block from there to the piece's. So it takes constant time if the seat has seen all
    /// earlier blocks clear, or all up to a hit.
    ///
    /// # Errors
    ///
    /// [`Refusal::NothingHeld`], without a step. After the looks [`Refusal::NoEarlierHit`], if no
    /// earlier block of the class was a hit at the first look; the seat then still holds the piece.
    /// A drop of a piece of block 0 always fails, without a look.
    pub fn drop_piece(&self, seat: &mut Seat) -> Result<(), Refusal>
        requires { seat.old.place ≡ self.now }
        ensures kept { Keeps seat.old seat.new }
        ensures accepted { IfOk result
            (λ _. Makes seat.old (Event.Drop seat.old.worker) Done seat.new) }
        ensures refusal { IfErr result
            (λ refusal. (refusal ≡ Refusal.NothingHeld) ⊎ (refusal ≡ Refusal.NoEarlierHit)) }
        ensures nothing_held { result ≡ Err Refusal.NothingHeld
            → Stays seat.old (call.Drop seat.old.worker) (done_reply_of result) seat.new }
        ensures no_earlier_hit { result ≡ Err Refusal.NoEarlierHit → FindsNoHit seat.old seat.new }
        ensures block_zero { (piece : ℕ) → held_by seat.old.worker seat.old.seen ≡ Some piece
            → block_of self.now.shape piece ≡ 0
            → (result ≡ Err Refusal.NoEarlierHit) × (seat.new ≡ seat.old) }
    {
        let Some(piece) = seat.piece else {
            return Err(Refusal::NothingHeld);
        };
        if !self.finds_earlier_hit(seat, piece) {
            return Err(Refusal::NoEarlierHit);
        }
        self.words.drop_piece(&mut seat.token, piece);
        seat.piece = None;
        Ok(())
    }

    /// Looks at the earlier blocks of a piece's class, from the first that isn't remembered as
    /// clear, until it sees a hit.
    fn finds_earlier_hit(&self, seat: &mut Seat, piece: u32) -> bool
        requires place { seat.old.place ≡ self.now }
        requires piece { piece < piece_count self.now.shape }
        ensures sees { Sees seat.old seat.old.exhausted seat.new }
        ensures block_zero { block_of self.now.shape piece ≡ 0
            → (result ≡ false) × (seat.new ≡ seat.old) }
        ensures found { result ≡ true → has_earlier_hit self.now.shape seat.new.seen piece ≡ true }
        ensures missed { result ≡ false → (at : History)
            × ContinuesWithout seat.old.worker at seat.old.seen
            × ContinuesWithout seat.old.worker seat.new.seen at
            × (has_earlier_hit self.now.shape at piece ≡ false) }
    {
        let (class, end) = seat.row.class_and_block(piece);
        let known = remembered_of(&seat.remembered, class);
        if known.hit && known.clear < end {
            return true;
        }
        let head = self.passes_clear(seat, class, end);
        let Some(next) = head.next else {
            return false;
        };
        if let PieceState::Hit(_) = next {
            return true;
        }
        self.finds_hit(&mut seat.token, class, head.clear + 1, end)
    }

    /// Looks at blocks of a class, from this one up and below an end, until it sees a hit.
    fn finds_hit(&self, token: &mut Token, class: u32, from: u32, end: u32) -> bool
        requires place { token.old.place ≡ self.now }
        requires sitter { IsSitter token.old }
        requires range { (class < self.now.shape.classes) × (end ≤ block_count self.now.shape) }
        ensures sees { Sees token.old token.old.exhausted token.new }
        ensures unmoved { end ≡ 0 → token.new ≡ token.old }
        ensures found { result ≡ true → (block : ℕ) × (block < end)
            × (is_hit (entry (piece_at self.now.shape class block) token.new.seen) ≡ true) }
        ensures missed { result ≡ false → (block : ℕ) → from ≤ block → block < end
            → is_hit (entry (piece_at self.now.shape class block) token.old.seen) ≡ false }
    {
        for block in from..end {
            let piece = class + self.shape.classes * block;
            if let PieceState::Hit(_) = self.words.look(token, piece) {
                return true;
            }
        }
        false
    }

    /// Returns the clear blocks at the head of a class, below an end. It looks at the blocks that
    /// the seat doesn't remember as clear, and remembers them. If the seat remembers all as clear,
    /// it takes no look, and its memory stays the same.
    fn passes_clear(&self, seat: &mut Seat, class: u32, end: u32) -> ClearHead
        requires place { seat.old.place ≡ self.now }
        requires range { (class < self.now.shape.classes) × (end ≤ block_count self.now.shape) }
        ensures sitter { IsSitter seat.old }
        ensures sees { Sees seat.old seat.old.exhausted seat.new }
        ensures unmoved { end ≡ 0 → seat.new ≡ seat.old }
        ensures head { EndsClear self.now.shape seat.new.seen class end result.clear result.next }
    {
        let known = remembered_of(&seat.remembered, class);
        if end <= known.clear {
            return ClearHead {
                clear: known.clear,
                next: None,
            };
        }
        let head = self.passes_clear_from(&mut seat.token, class, known.clear, end);
        let clear = head.clear;
        let hit = ends_in_hit(head);
        remember(&mut seat.remembered, class, Remembered { clear, hit });
        head
    }

    /// Returns the clear blocks at the head of a class, below an end, if the blocks below `from`
    /// are known.
    fn passes_clear_from(&self, token: &mut Token, class: u32, from: u32, end: u32) -> ClearHead
        requires place { token.old.place ≡ self.now }
        requires sitter { IsSitter token.old }
        requires range { (class < self.now.shape.classes) × (end ≤ block_count self.now.shape) }
        requires known { AreClear self.now.shape token.old.seen class from }
        ensures sees { Sees token.old token.old.exhausted token.new }
        ensures unmoved { end ≡ 0 → token.new ≡ token.old }
        ensures head { EndsClear self.now.shape token.new.seen class end result.clear result.next }
    {
        for block in from..end {
            match self.words.look(token, class + self.shape.classes * block) {
                PieceState::Clear => {}
                state => {
                    return ClearHead {
                        clear: block,
                        next: Some(state),
                    };
                }
            }
        }
        ClearHead {
            clear: from.max(end),
            next: None,
        }
    }

    /// Returns the state of a piece. It is one atomic step.
    pub fn look(&self, seat: &mut Seat, class: u32, block: u32) -> PieceState
        requires place { seat.old.place ≡ self.now }
        requires range { (class < self.now.shape.classes) × (block < block_count self.now.shape) }
        ensures kept { Keeps seat.old seat.new }
        ensures seen { Sees seat.old seat.old.exhausted seat.new }
        ensures state { result ≡ entry (piece_at self.now.shape class block) seat.new.seen }
    {
        self.words
            .look(&mut seat.token, class + self.shape.classes * block)
    }

    /// Returns at which test a class is settled, else the block that it waits for. It looks at the
    /// blocks of the class up to the first that isn't clear, and takes effect at its last look. The
    /// looks begin as in [`SharedLedger::drop_piece`]. If there is no block, it takes no look.
    pub fn status(&self, seat: &mut Seat, class: u32) -> Status
        requires place { seat.old.place ≡ self.now }
        requires range { class < self.now.shape.classes }
        ensures kept { Keeps seat.old seat.new }
        ensures seen { Sees seat.old seat.old.exhausted seat.new }
        ensures status { result ≡ status self.now.shape seat.new.seen class }
        ensures no_block { block_count self.now.shape ≡ 0 → seat.new ≡ seat.old }
    {
        let head = self.passes_clear(seat, class, self.shape.blocks());
        match head.next {
            None => Status::Settled(None),
            Some(PieceState::Hit(test)) => Status::Settled(Some(BLOCK_SIZE * head.clear + test)),
            Some(PieceState::Open) => Status::Waiting(head.clear),
            // The block isn't clear.
            Some(PieceState::Clear) => unreachable!(),
            // A skipped piece comes after a hit of its class.
            Some(PieceState::Skipped) => unreachable!(),
        }
    }

    /// Returns `Finished` if all classes are settled, else the lowest class that isn't, with the
    /// block that it waits for. It takes the looks of [`SharedLedger::status`] for that class and
    /// each lower one, and takes effect at its last look. If there is no piece, it takes no look,
    /// and constant time.
    pub fn finished(&self, seat: &mut Seat) -> Finish
        requires { seat.old.place ≡ self.now }
        ensures kept { Keeps seat.old seat.new }
        ensures seen { Sees seat.old seat.old.exhausted seat.new }
        ensures finish { result ≡ finish self.now.shape seat.new.seen }
        ensures no_piece { (self.now.shape.classes ≡ 0) ⊎ (block_count self.now.shape ≡ 0)
            → seat.new ≡ seat.old }
    {
        let classes = seat.row.classes();
        if self.shape.pieces() == 0 {
            return Finish::Finished;
        }
        for class in 0..classes {
            if let Status::Waiting(block) = self.status(seat, class) {
                return Finish::Waiting { class, block };
            }
        }
        Finish::Finished
    }

    /// Joins the knowledge of two seats: afterwards both have seen all that either had seen or
    /// done. It takes three looks at the cursor.
    pub fn meet(&self, first: &mut Seat, second: &mut Seat)
        requires { (first.old.place ≡ self.now) × (second.old.place ≡ self.now) }
        ensures first { Keeps first.old first.new }
        ensures second { Keeps second.old second.new }
        ensures met { Meets first.old second.old first.new second.new }
    {
        self.words.meet(&mut first.token, &mut second.token);
    }

    /// Closes the ledger, and returns the state of each piece. Seats may be missing. The states
    /// then include their reports, but the contract ties the states only to the histories of the
    /// given seats.
    ///
    /// # Errors
    ///
    /// Only [`LedgerFault::Memory`]; the ledger and the seats are gone then, too.
    pub fn close(self, alloc: Global, seats: Vec<Seat>) -> Result<Closed, LedgerFault>
        requires some { 0 < length seats.items }
        requires places { All (λ seat. seat.place ≡ self) seats.items }
        ensures closed { IfOk result (λ closed. Closes self.shape seats.items closed) }
        ensures refused { IfErr result (λ fault. fault ≡ LedgerFault.Memory) }
    {
        let SharedLedger { words, shape } = self;
        let group = group_of(&words, seats);
        let codes = words.close(alloc, group, shape.pieces() as usize)?;
        let closed = Closed::of(alloc, shape, codes)?;
        Ok(closed)
    }
}

/// The clear blocks at the head of a class.
#[derive(Clone, Copy)]
struct ClearHead {
    /// Their number.
    clear: u32,
    /// The state of the block after them, if a look was made at it: it isn't clear.
    next: Option<PieceState>,
}

/// Returns what a seat remembers of a class.
fn remembered_of(remembered: &[Remembered], class: u32) -> Remembered
    ensures { result ≡ slice_index_or remembered.now class nothing_seen }
{
    match remembered.get(class as usize) {
        Some(known) => *known,
        None => NOTHING_SEEN,
    }
}

/// Remembers these blocks of a class, if it is one of the first.
fn remember(remembered: &mut Vec<Remembered>, class: u32, known: Remembered)
    ensures { remembered.new.items ≡ set remembered.old.items class known }
{
    if let Some(kept) = remembered.get_mut(class as usize) {
        kept.clear = known.clear;
        kept.hit = known.hit;
    }
}

/// Returns whether the block after the clear ones is a hit.
fn ends_in_hit(head: ClearHead) -> bool
    ensures { result ≡ true → (test : ℕ) × (head.next ≡ Some (PieceState.Hit test)) }
{
    match head.next {
        Some(PieceState::Hit(_)) => true,
        _ => false,
    }
}

/// Makes a seat for each worker of a group of newcomers.
fn seats_of(
    alloc: Global,
    words: &Words,
    mut group: Group,
    shape: Shape,
) -> Result<Vec<Seat>, AllocError>
    requires shape { (words.now.shape ≡ shape) × (shape_fault shape ≡ None) }
    requires group { (group.place ≡ words.now) × (group.posts ≡ newcomer_posts 0 shape.workers) }
    ensures { IfOk result (λ seats. seats.items ≡ newcomers words.now) }
{
    let mut seats = Vec::new(alloc);
    for worker in 0..shape.workers {
        let (token, rest) = words.part(group);
        group = rest;
        let count = shape.classes_with_pieces().min(REMEMBERED_CLASSES);
        let remembered = vec![in alloc; NOTHING_SEEN; count as usize]?;
        seats.push(Seat {
            token,
            worker,
            exhausted: false,
            row: BlockRow::of_block_0(shape.classes),
            piece: None,
            remembered,
        })?;
    }
    Ok(seats)
}

/// Puts the workers of all seats into one group.
fn group_of(words: &Words, mut seats: Vec<Seat>) -> Group
    requires some { 0 < length seats.items }
    requires places { All (λ seat. seat.place ≡ words.now) seats.items }
    ensures { (result.place ≡ words.now) × (result.posts ≡ map post_of seats.items) }
{
    let Some(last) = seats.pop() else {
        unreachable!()
    };
    let mut group = Group::of(token_of(last));
    while let Some(seat) = seats.pop() {
        group = words.join(group, token_of(seat));
    }
    group
}

/// Returns the token of a seat.
fn token_of(seat: Seat) -> Token
    ensures { result ≡ seat }
{
    let Seat {
        token,
        worker: _,
        exhausted: _,
        row: _,
        piece: _,
        remembered: _,
    } = seat;
    token
}
