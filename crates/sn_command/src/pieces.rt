//! A line printed piece by piece, without memory.
ghost use Rattle.std.specs.Prelude.{◌≡◌};
ghost use Rattle.std.specs.Fmt.{decimal};
ghost use Rattle.sn_command.specs.Desks.{sunk};
ghost use Rattle.sn_command.specs.Reported.{Tells, piece_text, pieces_text};

use itoa::Buffer;
use sn_io::sink::{Sink, write_all_to};

/// A piece of a line.
#[derive(Clone, Copy)]
pub enum Piece<'a> {
    Text(&'a [u8]),
    /// In decimal digits.
    Number(u64),
}

/// Prints a text, and says whether all of it went out.
pub fn tell_text<E: Sink>(text: &[u8], err: &mut E) -> bool
    ensures { Tells text.now result (sunk E.Sink err.old) (sunk E.Sink err.new) }
{
    match write_all_to(err, text) {
        Ok(()) => true,
        Err(_) => false,
    }
}

fn tell_number<E: Sink>(number: u64, err: &mut E) -> bool
    ensures { Tells (decimal number) result (sunk E.Sink err.old) (sunk E.Sink err.new) }
{
    let mut buffer = Buffer::new();
    tell_text(buffer.format(number).as_bytes(), err)
}

fn tell_piece<E: Sink>(piece: Piece<'_>, err: &mut E) -> bool
    ensures { Tells (piece_text piece.entry) result (sunk E.Sink err.old) (sunk E.Sink err.new) }
{
    match piece {
        Piece::Text(text) => tell_text(text, err),
        Piece::Number(number) => tell_number(number, err),
    }
}

/// Prints the pieces in order, up to one that doesn't go out whole.
pub fn tell_pieces<E: Sink>(pieces: &[Piece<'_>], err: &mut E) -> bool
    ensures { Tells (pieces_text pieces.now) result (sunk E.Sink err.old) (sunk E.Sink err.new) }
{
    for i in 0..pieces.len() {
        if !tell_piece(pieces[i], err) {
            return false;
        }
    }
    true
}
