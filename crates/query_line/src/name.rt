// The first word of a line, as far as it is read.

ghost use Rattle.std.specs.Prelude.{◌≡◌, ◌≤◌, length};

// The bytes of the longest word, `previous`.
pub const LONGEST_WORD: usize = 8;

// The bytes that the word has so far, `len` of them.
#[derive(Clone, Copy)]
pub struct Name {
    pub bytes: [u8; LONGEST_WORD],
    pub len: usize,
    ghost fits: { len ≤ 8 },
    ghost room: { length bytes ≡ 8 },
}
