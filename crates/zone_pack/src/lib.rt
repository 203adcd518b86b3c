// The zone pack, and the finder of a zone's file by its name.
// A pack is a directory (crate `directory`) and its records: the length of a name (1 byte), the name, and the zone file.
#![tactic(auto)]

ghost use Rattle.std.specs.Prelude.{◌≡◌, true, ◌<◌};
ghost use Rattle.model.specs.Pack.{same_name};
ghost use Rattle.big_endian.specs.Be.{four_bytes};
ghost use Rattle.big_endian.specs.Walk.{all_from};
ghost use Rattle.zone_pack.specs.Pack.{named_at, name_ok, name_at_ok, is_pack, IsFileOf, FindsEntry, FindsZone};

// Document 01's limit: the most zones of a pack.
pub const MOST_ZONES: usize = 1024;

// ---- the layout

// Has a record of len bytes at start a whole name, neither empty nor too long?
#[tactic(auto, unfolding(crate::specs::Pack::name_ok))]
fn name_ok(s: &[u8], start: usize, len: usize) -> bool
    ensures { result ≡ name_ok s.now start len }
{
    let n = big_endian::small_at(s, start);
    (1..=directory::LONGEST_NAME).contains(&n) && n < len
}

// The same of the record of entry i.
fn name_at_ok(s: &[u8], i: usize) -> bool
    requires { i < four_bytes }
    ensures { result ≡ name_at_ok s.now i }
{
    name_ok(s, directory::start_at(s, i), directory::len_at(s, i))
}

// The same of all n.
fn names_ok(s: &[u8], n: usize) -> bool
    requires { n < four_bytes }
    ensures { result ≡ all_from (name_at_ok s.now) 0 n }
{
    (0..n).all(|i| name_at_ok(s, i))
}

// Does the pack keep its layout? Refusal 3 where not.
pub fn pack_ok(p: &[u8]) -> bool
    ensures { result ≡ is_pack p.now }
{
    let n = directory::count_of(p);
    n <= MOST_ZONES && directory::dir_ok(p) && names_ok(p, n)
}

// ---- the finder

// A zone file in a pack: where it begins, and the part of the lent pack itself.
#[derive(Clone, Copy)]
pub struct Found<'a> {
    pub at: usize,
    pub file: &'a [u8],
}

// Is the record of entry i named so, but for the case of ASCII letters?
fn is_named(p: &[u8], i: usize, name: &[u8]) -> bool
    requires { i < four_bytes }
    ensures { result ≡ same_name (named_at p.now i).name name.now }
{
    let start = directory::start_at(p, i);
    let own = big_endian::part(p, start + 1, big_endian::small_at(p, start));
    own.eq_ignore_ascii_case(name)
}

// The file of entry i.
fn file_of(p: &[u8], i: usize) -> Found
    requires { i < four_bytes }
    ensures { IsFileOf p.now i result }
{
    let start = directory::start_at(p, i);
    let at = start + 1 + big_endian::small_at(p, start);
    let end = start + directory::len_at(p, i);
    let file = big_endian::part(p, at, end.saturating_sub(at));
    Found { at, file }
}

// The first of n records with that name.
fn find_in(p: &[u8], name: &[u8], n: usize) -> Option<usize>
    requires { n < four_bytes }
    ensures { FindsEntry p.now name.now n result }
{
    (0..n).find(|&i| is_named(p, i, name))
}

// The finder: the zone file of a name in a pack that keeps its layout. None where the pack has not got the name, so that an absent name is told
// from an empty file.
#[tactic(auto, using(crate::proofs::Ends::looks))]
pub fn look_in<'a>(p: &'a [u8], name: &[u8]) -> Option<Found<'a>>
    requires { is_pack p.now ≡ true }
    ensures { FindsZone p.now name.now result }
{
    let i = find_in(p, name, directory::count_of(p))?;
    Some(file_of(p, i))
}
