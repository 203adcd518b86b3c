// Whether a schedule has work at all: in two weeks of 2001, without breaks, holidays ignored. The blocks of work and those of breaks go into a block list
// each, which is sorted and merged in its own array. Then the two lists are gone through together, until a block of work is found that is not taken whole.
// Where there are no breaks, any block of work will do, and no list is made.
#![tactic(auto)]

ghost use Rattle.std.specs.Prelude.{◌≡◌, ◌&&◌, leb, map};
ghost use Rattle.laws_blocks.specs.Members.{Normal};
ghost use Rattle.model.specs.Build.{works_in_2001};
ghost use Rattle.rule.specs.Rules.{schedule_is, ScheduleFits};
ghost use Rattle.build_blocks.specs.Shown.{RulesIn};
ghost use Rattle.block_list.specs.Listed.{block_is};
ghost use Rattle.build_check.specs.Left.{leaves, UnionOf};

use block_list::{Block, Blocks};
use instant::Instant;
use rule::{Rule, Schedule};

// The second of 2001-01-01T00:00:00Z, which is 978,307,200 after that of 1970-01-01T00:00:00Z.
const FROM: u64 = 391337827200;

// The second 14 days later.
const UPTO: u64 = 391339036800;

// The union of the blocks that the first n rules have in the window. It is a function of its own, so that the list is copied once.
fn union_of(
    rules: [Rule; book::MOST_WORK],
    n: usize,
    pack: &[u8],
    lo: Instant,
    hi: Instant,
) -> Blocks
    requires { RulesIn pack.now rules n lo hi }
    ensures { UnionOf pack.now rules n lo hi result }
{
    block_union::union(build_blocks::shift_blocks(rules, n, pack, lo, hi))
}

// Does y cover x?
fn covers(y: Block, x: Block) -> bool
    ensures { result ≡ (leb y.start x.start && leb x.end y.end) }
{
    y.start <= x.start && x.end <= y.end
}

// Is anything of `on` left without `off`? The blocks of either list are apart, so a block is taken whole only by one that covers it.
fn any_left(on: &[Block], off: &[Block]) -> bool
    requires { Normal (map block_is on.now) × Normal (map block_is off.now) }
    ensures { result ≡ leaves (map block_is on.now) (map block_is off.now) }
{
    let mut i = 0;
    let mut j = 0;
    while i < on.len() {
        if off.len() <= j {
            return true;
        }
        let x = on[i];
        let y = off[j];
        if y.end <= x.start {
            j += 1;
        } else if covers(y, x) {
            i += 1;
        } else {
            return true;
        }
    }
    false
}

// Is there work without breaks, holidays ignored, in the first 14 days of 2001?
pub fn has_work(book: &[u8], pack: &[u8], s: Schedule) -> bool
    requires { ScheduleFits book.now pack.now s }
    ensures { result ≡ works_in_2001 (schedule_is book.now pack.now s) }
{
    let lo = Instant { sec: FROM, ns: 0 };
    let hi = Instant { sec: UPTO, ns: 0 };
    let work = s.work;
    if s.pauses == 0 {
        return build_blocks::any_shows(work, s.works, pack, lo, hi);
    }
    let on = union_of(work, s.works, pack, lo, hi);
    let breaks = s.breaks;
    let off = union_of(breaks, s.pauses, pack, lo, hi);
    any_left(&on.items[..on.len], &off.items[..off.len])
}
