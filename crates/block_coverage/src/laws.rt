//! Laws of blocks.

ghost use Rattle.std.specs.Prelude.{ℕ};
ghost use Rattle.block_coverage.specs.Blocks.{HoldsByName, HoldsInner};

/// States that a fault is in a block exactly if its name is the block, the separator and any rest.
pub fn block_holds()
    ensures { (separator : ℕ) → HoldsByName separator }
{}

/// States that a block has all faults of the blocks inside it: if a block's name has another block,
/// each of its faults is in that one, too.
pub fn inner_block()
    ensures { (separator : ℕ) → HoldsInner separator }
{}
