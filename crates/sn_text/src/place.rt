//! A place in a text, and what stands there.
ghost use Rattle.std.specs.Prelude.{◌≡◌, ◌+◌, ◌≤◌, ◌^◌, length};

/// What a scan finds at a place.
#[derive(Clone, Copy)]
pub enum Piece<'a> {
    /// A word that begins with a letter or `_`.
    Word(&'a [u8]),
    /// A number of at most 64 bits.
    Number(u64),
    /// A symbol by its place in the list that `sn_text_rules::symbols` names.
    Symbol(u8),
    /// The end of the text.
    End,
    /// No token begins here, or a number is past 64 bits.
    Bad,
}

/// A place in a text, from which its tokens are read one by one.
///
/// It is a plain value: a copy is a place to come back to.
#[derive(Clone, Copy)]
pub struct Lexer<'a> {
    pub(crate) rest: &'a [u8],
    pub(crate) start: u32,
    pub(crate) line: u32,
    pub(crate) column: u32,
    ghost inside: { start + length rest.now ≤ 2 ^ 30 },
    ghost lines: { line ≤ start + 1 },
    ghost columns: { column ≤ start + 1 },
}
