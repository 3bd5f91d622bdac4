//! The words of a shared ledger, and the tokens that step on them.
//!
//! Word 0 is the cursor, which counts the claims that were tried. The pieces follow it, eight in
//! each word: piece p, counted from 0, has eight bits of word p / 8 + 1, from bit 8 * (p % 8) on.
//!
//! ```text
//! bit      63    56    48    40    32    24    16     8     0
//!          +-----+-----+-----+-----+-----+-----+-----+-----+
//! word 0   |            claims that were tried             |
//!          +-----+-----+-----+-----+-----+-----+-----+-----+
//! word 1   |  7  |  6  |  5  |  4  |  3  |  2  |  1  |  0  |   the piece of each field
//!          +-----+-----+-----+-----+-----+-----+-----+-----+
//! word 2   | 15  | 14  | 13  | 12  | 11  | 10  |  9  |  8  |
//!          +-----+-----+-----+-----+-----+-----+-----+-----+
//!
//! field    0 open   1 clear   2 skipped   128 + k a hit at test k of the block, k from 0 to 63
//! ```
//!
//! Each step is one atomic operation on one word. A field goes from 0 to one code, once, and only
//! the worker that holds the piece changes it. So the code is added, and no carry leaves the field.
//! No step is ever tried again; a compare and swap would be, after a change of a neighbour's field.
//! There are 67 codes, so a field is wider than it has to be, but eight fill a word.
//!
//! Views and events exist only in the proof: no value of [`View`] or [`Post`] is made.

ghost use Rattle.std.specs.Prelude.{◌≡◌, ◌<◌, ◌≤◌, ◌+◌, ◌*◌, ◌/◌, ◌%◌, true, false, [], ◌∷◌, map};
ghost use Rattle.std.specs.Prelude.{IfOk, Some, None};
ghost use Rattle.patterns.specs.Tests.{size_of};
ghost use Rattle.fault_ledger.specs.declared.Event.{Event};
ghost use Rattle.fault_ledger.specs.declared.words.View.{View};
ghost use Rattle.fault_ledger.specs.declared.Claim.TheVariants as claim_is;
ghost use Rattle.fault_ledger.specs.declared.Reply.TheVariants.{Claimed, Done};
ghost use Rattle.fault_ledger.specs.History.{History, ContinuesWithout, block_of, claims, class_of};
ghost use Rattle.fault_ledger.specs.History.{entry, held_by, piece_count, state_of, states_of};
ghost use Rattle.fault_ledger.specs.Answer.{fits_size, has_earlier_hit, IsLegal};
ghost use Rattle.fault_ledger.specs.Face.{shape_fault};
ghost use Rattle.fault_ledger.specs.Seats.{Sees, Makes, Meets};
ghost use Rattle.fault_ledger.specs.Words.{newcomer_posts, post_of, ForEach};
ghost use Rattle.fault_ledger.specs.Words as rule;
ghost use Rattle.patterns.specs.Least.{below};
ghost use Rattle.std.specs.Mem.Slots.{slots_items, slots_len, IsFull};

use crate::{Event, PieceState, Shape};
use atomic_table::{Badge, Closed as ClosedTable, Join, Play, Split, Table, TableRule};
use patterns::Outcome;
use std::alloc::{AllocError, Global};
use std::collections::LinkedList;
use std::marker::Model;
use std::mem;

/// The number of pieces in a word, each with the code of its state in a field of its own.
const PIECES_PER_WORD: usize = 8;

/// The number of bits of a field.
const FIELD_BITS: u32 = 8;

/// The code of an open piece, and the cursor before any claim.
const OPEN: u64 = 0;

/// The code of a clear piece.
const CLEAR: u64 = 1;

/// The code of a skipped piece.
pub(crate) const SKIPPED: u64 = 2;

/// The code of a hit at test 0 of its block; a hit at test k has `HIT + k`.
const HIT: u64 = 128;

/// A worker that a token represents: whether it has seen that all pieces are claimed, and the
/// history that it has seen, the newest event first.
pub(crate) struct Post {
    pub(crate) worker: u32,
    pub(crate) exhausted: bool,
    pub(crate) seen: LinkedList<Event>,
}

/// The knowledge of a token: the shape of its ledger, and the workers that it represents.
pub(crate) struct View {
    pub(crate) shape: Shape,
    pub(crate) posts: LinkedList<Post>,
}

/// The rule: the words represent one legal history.
struct OneHistory;

impl TableRule<u8, View, Shape> for OneHistory {
    ghost use Rattle.fault_ledger.specs.Words.{IsKept, everybody};

    ghost holds = { λ shape. IsKept shape };

    ghost first = { everybody };
}

/// The step of a claim: the piece of the returned number is the worker's, or all are claimed.
struct Claiming;

impl Play<u8, View> for Claiming {
    ghost use Rattle.fault_ledger.specs.Words.{Claims};

    ghost then = { Claims };
}

/// The step of a report: the outcome with the code that was added is the worker's last event.
struct Reporting;

impl Play<u8, View> for Reporting {
    ghost use Rattle.fault_ledger.specs.Words.{Reports};

    ghost then = { Reports };
}

/// The step of a drop, which is the worker's last event.
struct Dropping;

impl Play<u8, View> for Dropping {
    ghost use Rattle.fault_ledger.specs.Words.{Drops};

    ghost then = { Drops };
}

/// A look: the fields of the returned word are true in a legal history, which all workers of the
/// token have seen.
struct Looking;

impl Play<u8, View> for Looking {
    ghost use Rattle.fault_ledger.specs.Words.{Looks};

    ghost then = { Looks };
}

/// The first worker, and the others.
struct Apart;

impl Split<View> for Apart {
    ghost use Rattle.fault_ledger.specs.Words.{front_of, others_of};

    ghost left = { front_of };

    ghost right = { others_of };
}

/// The workers of both.
struct Together;

impl Join<View> for Together {
    ghost use Rattle.fault_ledger.specs.Words.{both_of, nobody};

    ghost both = { both_of };

    ghost spent = { nobody };
}

/// The words of a ledger.
#[derive(Drop)]
pub(crate) struct Words {
    table: Table<u8, View, Shape, OneHistory, Global>,
}

impl Model for Words {
    ghost use Rattle.std.specs.Prelude.{◌≡◌, None};
    ghost use Rattle.fault_ledger.specs.Face.{shape_fault};
    ghost use Rattle.fault_ledger.specs.Seats.{Place};
    ghost use Rattle.fault_ledger.specs.Words.{place_of, word_count};

    ghost Value = { Place };

    ghost view = { λ w. place_of w.table.shared.table_id w.table.shared.key };

    ghost invariant = { λ w. (w.table.shared.table_id.words ≡ word_count w.table.shared.key)
        × (w.table.shared.table_id.slots ≡ 0)
        × (shape_fault w.table.shared.key ≡ None) };
}

/// A token with which one worker steps. It has no bytes.
#[derive(Drop)]
pub(crate) struct Token {
    badge: Badge<View>,
}

impl Model for Token {
    ghost use Rattle.fault_ledger.specs.Seats.{Sitter};
    ghost use Rattle.fault_ledger.specs.Words.{sitter, StandsAlone};

    ghost Value = { Sitter };

    ghost view = { λ t. sitter t.badge.table_id t.badge.views };

    ghost invariant = { λ t. StandsAlone t.badge.views (sitter t.badge.table_id t.badge.views) };
}

/// A token that represents several workers.
#[derive(Drop)]
pub(crate) struct Group {
    seat: atomic_table::Seat<u8, View>,
}

impl Model for Group {
    ghost use Rattle.std.specs.Prelude.{◌≡◌, []};
    ghost use Rattle.fault_ledger.specs.Words.{Crowd, crowd};

    ghost Value = { Crowd };

    ghost view = { λ g. crowd g.seat.table_id g.seat.me.0 };

    ghost invariant = { λ g. g.seat.me.1 ≡ [] };
}

impl Group {
    /// Makes a group of one worker.
    pub(crate) fn of(token: Token) -> Group
        ensures { (result.place ≡ token.place) × (result.posts ≡ post_of token ∷ []) }
    {
        let Token { badge } = token;
        Group {
            seat: badge.into_seat::<u8>(),
        }
    }
}

impl Words {
    /// Makes words without claims, and a token for all workers.
    pub(crate) fn new(alloc: Global, shape: Shape) -> Result<(Words, Group), AllocError>
        requires { shape_fault shape ≡ None }
        ensures words { IfOk result (λ made. made.0.shape ≡ shape) }
        ensures group { IfOk result (λ made. (made.1.place ≡ made.0)
            × (made.1.posts ≡ newcomer_posts 0 shape.workers)) }
    {
        let pieces = shape.pieces() as usize;
        let zeros = vec![in alloc; OPEN; pieces.div_ceil(PIECES_PER_WORD) + 1]?;
        let (table, seat) = Table::of_words(alloc, zeros.as_slice(), &shape)?;
        Ok((Words { table }, Group { seat }))
    }

    /// Splits the first worker of a group from the others, by one load.
    pub(crate) fn part(&self, group: Group) -> (Token, Group)
        requires place { group.place ≡ self.now }
        requires worker { (first : _) × (rest : _) × (group.posts ≡ first ∷ rest) }
        ensures place { (result.0.place ≡ self.now) × (result.1.place ≡ self.now) }
        ensures posts { group.posts ≡ post_of result.0 ∷ result.1.posts }
    {
        let Group { mut seat } = group;
        let others = self.table.shared.split_seat::<Apart>(&mut seat);
        (
            Token {
                badge: seat.into_badge(),
            },
            Group { seat: others },
        )
    }

    /// Adds a worker to a group, as its first, by one load.
    pub(crate) fn join(&self, group: Group, token: Token) -> Group
        requires { (group.place ≡ self.now) × (token.place ≡ self.now) }
        ensures { (result.place ≡ self.now) × (result.posts ≡ post_of token ∷ group.posts) }
    {
        let Group { mut seat } = group;
        let Token { badge } = token;
        self.table
            .shared
            .join_seat::<Together>(&mut seat, badge.into_seat::<u8>());
        Group { seat }
    }

    /// Claims the next piece: adds 1 to the cursor, in one atomic step. The piece of the returned
    /// number is the worker's, if there is one, and else all are claimed.
    pub(crate) fn claim(&self, token: &mut Token) -> u64
        requires place { token.old.place ≡ self.now }
        requires free { (token.old.exhausted ≡ false)
            × (held_by token.old.worker token.old.seen ≡ None) }
        ensures piece { result < piece_count self.now.shape
            → Makes token.old (Event.Claim token.old.worker)
            (Claimed (claim_is.Piece (class_of self.now.shape result)
            (block_of self.now.shape result)))
            token.new }
        ensures held { result < piece_count self.now.shape
            → held_by token.old.worker token.new.seen ≡ Some result }
        ensures none { piece_count self.now.shape ≤ result
            → Sees token.old true token.new × (claims token.new.seen ≡ piece_count self.now.shape) }
    {
        let mut seat = take_seat(&mut token.badge);
        // The cursor also counts claims that find no piece. A look, and an addition only if a piece
        // is left, would be two steps, and another claim could come between them.
        let piece = self.table.shared.fetch_add::<Claiming>(&mut seat, 0, 1);
        token.badge = seat.into_badge();
        piece
    }

    /// Adds the outcome's code to the field of the worker's piece, which was 0, in one atomic step.
    /// The other seven pieces of the word stay.
    pub(crate) fn report(&self, token: &mut Token, piece: u32, outcome: Outcome)
        requires place { token.old.place ≡ self.now }
        requires piece { piece < piece_count self.now.shape }
        requires held { held_by token.old.worker token.old.seen ≡ Some piece }
        requires fits { fits_size (size_of self.now.shape.tests (block_of self.now.shape piece))
            outcome ≡ true }
        ensures { Makes token.old (Event.Report token.old.worker outcome) Done token.new }
    {
        let mut seat = take_seat(&mut token.badge);
        // No load comes before it: the field is 0, because the worker holds the piece.
        self.table.shared.fetch_add::<Reporting>(
            &mut seat,
            word_with(piece as usize),
            in_field(piece as usize, code_of(outcome)),
        );
        token.badge = seat.into_badge();
    }

    /// Adds the code of a skipped piece to the field of the worker's piece, which was 0, in one
    /// atomic step. The other seven pieces of the word stay. The worker has seen a hit at an
    /// earlier block of the piece's class.
    pub(crate) fn drop_piece(&self, token: &mut Token, piece: u32)
        requires place { token.old.place ≡ self.now }
        requires piece { piece < piece_count self.now.shape }
        requires held { held_by token.old.worker token.old.seen ≡ Some piece }
        requires hit { has_earlier_hit self.now.shape token.old.seen piece ≡ true }
        ensures { Makes token.old (Event.Drop token.old.worker) Done token.new }
    {
        let mut seat = take_seat(&mut token.badge);
        self.table.shared.fetch_add::<Dropping>(
            &mut seat,
            word_with(piece as usize),
            in_field(piece as usize, SKIPPED),
        );
        token.badge = seat.into_badge();
    }

    /// Loads the word of a piece, in one atomic step.
    pub(crate) fn look(&self, token: &mut Token, piece: u32) -> PieceState
        requires place { token.old.place ≡ self.now }
        requires piece { piece < piece_count self.now.shape }
        ensures seen { Sees token.old token.old.exhausted token.new }
        ensures state { result ≡ entry piece token.new.seen }
    {
        let mut seat = take_seat(&mut token.badge);
        let word = self
            .table
            .shared
            .load::<Looking>(&mut seat, word_with(piece as usize));
        token.badge = seat.into_badge();
        state_at(field_of(piece as usize, word))
    }

    /// Loads the cursor three times: both workers on one token, a look, and apart again.
    pub(crate) fn meet(&self, first: &mut Token, second: &mut Token)
        requires { (first.old.place ≡ self.now) × (second.old.place ≡ self.now) }
        ensures { Meets first.old second.old first.new second.new }
    {
        let joining = take_seat(&mut first.badge);
        let mut both = take_seat(&mut second.badge);
        self.table.shared.join_seat::<Together>(&mut both, joining);
        self.table.shared.load::<Looking>(&mut both, 0);
        let parted = self.table.shared.split_seat::<Apart>(&mut both);
        first.badge = both.into_badge();
        second.badge = parted.into_badge();
    }

    /// Returns the code of the state of each piece.
    pub(crate) fn close(
        self,
        alloc: Global,
        group: Group,
        pieces: usize,
    ) -> Result<Vec<u8>, AllocError>
        requires place { group.place ≡ self }
        requires pieces { pieces ≡ piece_count self.shape }
        ensures { IfOk result (λ codes. (h : History) × IsLegal self.shape h
            × ForEach (λ p. ContinuesWithout p.worker h p.seen) group.posts
            × (map rule.state_at codes.items ≡ states_of self.shape h)) }
    {
        let Words { table } = self;
        let Group { seat } = group;
        let closed = table.close_with(seat);
        let codes = read_codes(alloc, &closed, pieces);
        closed.free();
        codes
    }
}

/// Takes the seat of the table out of a badge, which is blank afterwards.
fn take_seat(badge: &mut Badge<View>) -> atomic_table::Seat<u8, View>
    requires { (view : View) × (badge.old.views ≡ view ∷ []) }
    ensures place { (result.table_id ≡ badge.old.table_id) × (result.id ≡ badge.old.id) }
    ensures view { (badge.old.views ≡ result.me.0 ∷ []) × (result.me.1 ≡ []) }
{
    mem::replace(badge, Badge::blank()).into_seat()
}

/// Returns the fields of all pieces in the words of a closed table.
fn read_codes(
    alloc: Global,
    closed: &ClosedTable<u8, Global>,
    pieces: usize,
) -> Result<Vec<u8>, AllocError>
    requires { (slots_len closed.now.words ≡ (pieces + 7) / 8 + 1) × IsFull closed.now.words }
    ensures { IfOk result (λ codes. codes.items
        ≡ map (rule.field_in (slots_items closed.now.words)) (below pieces)) }
{
    let mut codes = vec![in alloc; 0; pieces]?;
    for piece in 0..pieces {
        codes[piece] = field_of(piece, closed.word(word_with(piece))) as u8;
    }
    Ok(codes)
}

/// Returns the number of the word of a piece.
fn word_with(piece: usize) -> usize
    ensures { result ≡ rule.word_with piece }
{
    piece / PIECES_PER_WORD + 1
}

/// Returns the lowest bit of the field of a piece.
fn lowest_bit(piece: usize) -> u32
    ensures { result ≡ 8 * (piece % 8) }
{
    FIELD_BITS * (piece % PIECES_PER_WORD) as u32
}

/// Returns a word with this code in the field of a piece, and 0 in the others.
fn in_field(piece: usize, code: u64) -> u64
    requires { code < 256 }
    ensures { result ≡ rule.in_field piece code }
{
    code << lowest_bit(piece)
}

/// Returns the field of a piece in a word.
fn field_of(piece: usize, word: u64) -> u64
    ensures { result ≡ rule.field word (piece % 8) }
{
    (word >> lowest_bit(piece)) % (1 << FIELD_BITS)
}

/// Returns the code of a piece that was reported with this outcome.
fn code_of(outcome: Outcome) -> u64
    ensures { result ≡ rule.code_of (state_of outcome) }
{
    match outcome {
        Outcome::Clear => CLEAR,
        Outcome::Hit(test) => HIT + u64::from(test),
    }
}

/// Returns the state of a piece by its code.
pub(crate) fn state_at(code: u64) -> PieceState
    ensures { result ≡ rule.state_at code }
{
    match code {
        OPEN => PieceState::Open,
        CLEAR => PieceState::Clear,
        SKIPPED => PieceState::Skipped,
        // HIT is a multiple of 64, and a test of a block is below 64.
        _ => PieceState::Hit((code % 64) as u32),
    }
}
