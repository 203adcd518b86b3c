// The memory that a walk needs for the blocks of one window: three arrays of numbers, for the work, for what is taken from it, and for what is left. A
// walk has them once, of the size that is chosen here by how many records the book has: a small book then has little to set to zero.
#![tactic(auto)]

ghost use Rattle.std.specs.Prelude.{◌≤◌};
ghost use Rattle.window_memory.specs.Sizes.{most_rules, SizeFor, IsClear};

// Two numbers for each of the 14 dates of a record, and two more.
const OF_RECORD: usize = 28;

const MORE: usize = 2;

// So many records have a size of their own; all others have that for as many as a book may have: 16 work, 16 break and 8 holiday records.
const FEW_RECORDS: usize = 4;

const MOST_RECORDS: usize = 40;

// The numbers of an array for one record, for a few, and for all.
pub const ONE: usize = OF_RECORD + MORE;

pub const FOUR: usize = FEW_RECORDS * OF_RECORD + MORE;

pub const ALL: usize = MOST_RECORDS * OF_RECORD + MORE;

// A size for which a walk makes its memory. Each walk has a `match` of its own over the sizes, because a closure cannot be generic over a const parameter.
#[derive(Clone, Copy)]
pub enum Size {
    One,
    Four,
    All,
}

// The size for so many records: the least that has room.
pub fn size_for(records: usize) -> Size
    requires { records ≤ most_rules }
    ensures { SizeFor records result }
{
    if records <= 1 {
        return Size::One;
    }
    if records <= FEW_RECORDS {
        return Size::Four;
    }
    Size::All
}

// The memory for one window: `on` for the work, `off` for what is taken from it, and `out` for what is left.
#[derive(Drop)]
pub struct Memory<const N: usize> {
    pub on: [u64; N],
    pub off: [u64; N],
    pub out: [u64; N],
}

impl<const N: usize> Memory<N> {
    // Memory of which each number is 0.
    pub fn new() -> Memory<N>
        ensures { IsClear result.on × IsClear result.off × IsClear result.out }
    {
        Memory {
            on: [0; N],
            off: [0; N],
            out: [0; N],
        }
    }
}
