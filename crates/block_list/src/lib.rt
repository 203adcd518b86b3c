// The block list: an array of blocks with its own count, by value. A block is its start and its end, the end excluded, in nanoseconds from one instant.
#![tactic(auto)]

ghost use Rattle.std.specs.Prelude.{◌≡◌, []};
ghost use Rattle.block_list.specs.Listed.{list_of};

// How many blocks a list holds at most.
pub const CAPACITY: usize = 672;

// A block: [start, end).
#[derive(Clone, Copy, Default)]
pub struct Block {
    pub start: u64,
    pub end: u64,
}

// The first `len` items are the list.
#[derive(Clone, Copy)]
pub struct Blocks {
    pub items: [Block; CAPACITY],
    pub len: usize,
}

// No block: one block value repeated, of which none is used.
pub fn empty() -> Blocks
    ensures { (list_of result ≡ []) × (result.len ≡ 0) }
{
    Blocks {
        items: [Block::default(); CAPACITY],
        len: 0,
    }
}
