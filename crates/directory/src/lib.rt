// The directory at the front of a book or a zone pack: a count (4 bytes), then for each record its start from the front and its length (4 bytes each).
#![tactic(auto)]

ghost use Rattle.std.specs.Prelude.{◌≡◌, ◌+◌, ◌*◌, ◌<◌};
ghost use Rattle.model.specs.Directory.{parts_of};
ghost use Rattle.big_endian.specs.Be.{four_bytes};
ghost use Rattle.big_endian.specs.Maybe.{is_some};
ghost use Rattle.directory.specs.Directory.{entry_count, start_at, len_at, record_ok, entries_ok};

// The most bytes of a zone name, which stands in each record of a book or a pack.
pub const LONGEST_NAME: usize = 64;

// The bytes of the count and of an entry, and where the first entry's length stands.
const COUNT_SIZE: usize = 4;

const ENTRY_SIZE: usize = 8;

const LENGTH_AT: usize = 8;

// How many records the directory says to have.
#[tactic(auto, unfolding(crate::specs::Directory::entry_count))]
pub fn count_of(s: &[u8]) -> usize
    ensures { (result ≡ entry_count s.now) × (result < four_bytes) }
{
    big_endian::size_at(s, 0)
}

// Where the record of entry i starts.
#[tactic(auto, unfolding(crate::specs::Directory::start_at))]
pub fn start_at(s: &[u8], i: usize) -> usize
    requires { i < four_bytes }
    ensures { (result ≡ start_at s.now i) × (result < four_bytes) }
{
    big_endian::size_at(s, COUNT_SIZE + ENTRY_SIZE * i)
}

// How long it is.
#[tactic(auto, unfolding(crate::specs::Directory::len_at))]
pub fn len_at(s: &[u8], i: usize) -> usize
    requires { i < four_bytes }
    ensures { (result ≡ len_at s.now i) × (result < four_bytes) }
{
    big_endian::size_at(s, LENGTH_AT + ENTRY_SIZE * i)
}

// Does a record of len bytes at start begin at lo or later, and end inside?
#[tactic(auto, unfolding(crate::specs::Directory::record_ok))]
fn record_ok(s: &[u8], lo: usize, start: usize, len: usize) -> bool
    requires { (start < four_bytes) × (len < four_bytes) }
    ensures { result ≡ record_ok s.now lo start len }
{
    lo <= start && start + len <= s.len()
}

// Are the records of the n entries in order, behind the directory and inside?
fn entries_ok(s: &[u8], n: usize) -> bool
    requires { n < four_bytes }
    ensures { result ≡ entries_ok s.now (4 + 8 * n) 0 n }
{
    let mut lo = COUNT_SIZE + ENTRY_SIZE * n;
    for i in 0..n {
        let start = start_at(s, i);
        let len = len_at(s, i);
        if !record_ok(s, lo, start, len) {
            return false;
        }
        lo = start + len;
    }
    true
}

// Does the file keep the layout of its directory?
pub fn dir_ok(s: &[u8]) -> bool
    ensures { result ≡ is_some (parts_of s.now) }
{
    if s.len() < COUNT_SIZE {
        return false;
    }
    let n = count_of(s);
    COUNT_SIZE + ENTRY_SIZE * n <= s.len() && entries_ok(s, n)
}
