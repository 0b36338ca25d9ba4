//! A place in the bytes of a list of calls.
ghost use Rattle.std.specs.Prelude.{◌≤◌, length};

use crate::trouble::Trouble;
use std::str;

/// What is still to be read of a list of calls.
#[derive(Drop)]
pub struct Cursor<'a> {
    rest: &'a [u8],
}

impl<'a> Cursor<'a> {
    /// The whole list.
    pub fn new(bytes: &'a [u8]) -> Cursor<'a> {
        Cursor { rest: bytes }
    }

    /// Whether nothing is left.
    pub fn is_at_end(&self) -> bool {
        self.rest.is_empty()
    }

    /// The next bytes of this number, which a line feed ends that is none of them.
    pub fn piece(&mut self, length: usize) -> Result<&'a [u8], Trouble> {
        if length >= self.rest.len() {
            return Err(Trouble::Form);
        }
        let (piece, rest) = self.rest.split_at(length);
        match rest {
            [b'\n', rest @ ..] => {
                self.rest = rest;
                Ok(piece)
            }
            _ => Err(Trouble::Form),
        }
    }

    /// The next line, without its line feed.
    pub fn line(&mut self) -> Result<&'a str, Trouble> {
        let Some(end) = self.rest.iter().position(|byte| *byte == b'\n') else {
            return Err(Trouble::Form);
        };
        let line = self.piece(end)?;
        str::from_utf8(line).map_err(|_| Trouble::Form)
    }

    /// The next bytes of this number, as a text.
    pub fn text(&mut self, length: usize) -> Result<&'a str, Trouble> {
        let piece = self.piece(length)?;
        str::from_utf8(piece).map_err(|_| Trouble::Form)
    }
}
