// A search's look at the blocks of one window, which are pairs of numbers in lent memory: how far working time reaches along them, on from the window's
// start or back from its end. Nothing is copied.
#![tactic(auto)]

ghost use Rattle.std.specs.Prelude.{◌≡◌, ◌+◌, ◌-◌, ltb};
ghost use Rattle.walk_search_week.specs.Steps.{WindowBlocks, search_in_window, Looks};

use refusal::SearchError;

// What a window leaves: the distance that answers, or time left to find with the distance where work last ended.
#[derive(Clone, Copy)]
pub enum WeekStep {
    Found(u64),
    Left(u64, u64),
}

// The gap between two distances is longer than the limit.
fn exceeds(limit: u64, from: u64, to: u64) -> bool
    ensures { result ≡ ltb limit (to - from) }
{
    limit < to.saturating_sub(from)
}

// Looks for d more of working time in the first n blocks of a window of the length w, on from its start, or back from its end. Work last ended g before
// that border, and all distances of the answer are from there. There is no work where a gap is longer than the limit.
pub fn search(
    l: &[u64],
    n: usize,
    back: bool,
    limit: u64,
    g: u64,
    w: u64,
    d: u64,
) -> Result<WeekStep, SearchError>
    requires { WindowBlocks back n w g l.now }
    ensures { Looks result (search_in_window back n limit g w d l.now) }
{
    let mut left = d;
    let mut end: u64 = 0;
    for i in 0..n {
        let block = walk_distance::nearest(l, n, back, w, i);
        let from = block.from + g;
        let to = block.to + g;
        if exceeds(limit, end, from) {
            return Err(SearchError::NoWork);
        }
        let len = to.saturating_sub(from);
        if left <= len {
            return Ok(WeekStep::Found(from + left));
        }
        left -= len;
        end = to;
    }
    if exceeds(limit, end, w + g) {
        return Err(SearchError::NoWork);
    }
    Ok(WeekStep::Left(left, end))
}
