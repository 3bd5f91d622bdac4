//! The pieces in rows of one block.

ghost use Rattle.std.specs.Prelude.{◌≡◌, ◌<◌, ◌%◌, ◌/◌, Some};

use std::marker::Model;

/// The row of the pieces of one block. It gives the class and the block of a piece without a
/// division.
///
/// Contracts see it as the number of classes, which is the number of pieces in a row.
#[derive(Drop)]
pub(crate) struct BlockRow {
    classes: u32,
    block: u32,
    // The number of its first piece, which is of class 0.
    first: u32,
}

impl Model for BlockRow {
    ghost use Rattle.std.specs.Prelude.{◌≡◌, ◌*◌, ℕ};

    ghost Value = { ℕ };

    ghost view = { λ r. r.classes };

    ghost invariant = { λ r. r.first ≡ r.classes * r.block };
}

impl BlockRow {
    /// Returns the row of block 0.
    pub(crate) fn of_block_0(classes: u32) -> BlockRow
        ensures { result ≡ classes }
    {
        BlockRow {
            classes,
            block: 0,
            first: 0,
        }
    }

    /// Returns the number of classes.
    pub(crate) fn classes(&self) -> u32
        ensures { result ≡ self.now }
    {
        self.classes
    }

    /// Returns the class and the block of a piece of this row, and none of any other.
    fn in_row(&self, piece: u32) -> Option<(u32, u32)>
        ensures { (place : _) → result ≡ Some place
            → place ≡ (piece % self.now, piece / self.now) }
    {
        match piece.checked_sub(self.first) {
            Some(class) if class < self.classes => Some((class, self.block)),
            _ => None,
        }
    }

    /// Returns the class and the block of a piece. It divides only if the piece is in another row.
    pub(crate) fn class_and_block(&self, piece: u32) -> (u32, u32)
        requires { 0 < self.now }
        ensures { result ≡ (piece % self.now, piece / self.now) }
    {
        match self.in_row(piece) {
            Some(place) => place,
            None => (piece % self.classes, piece / self.classes),
        }
    }

    /// Goes to the row of a piece. Returns its class and its block.
    pub(crate) fn turn_to(&mut self, piece: u32) -> (u32, u32)
        requires { 0 < self.old }
        ensures classes { self.new ≡ self.old }
        ensures place { result ≡ (piece % self.old, piece / self.old) }
    {
        if let Some(place) = self.in_row(piece) {
            return place;
        }
        let class = piece % self.classes;
        self.block = piece / self.classes;
        self.first = piece - class;
        (class, self.block)
    }
}
