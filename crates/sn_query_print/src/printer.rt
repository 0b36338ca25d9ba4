//! Tokens written one after the other, each with the blanks before it.
ghost use Rattle.std.specs.Prelude.{◌≡◌, ◌++◌, OnOk};
ghost use Rattle.sn_text_rules.specs.Tokens.{plain, number, symbol, finish, word_lexeme};
ghost use Rattle.sn_text_rules.specs.Words.{same};
ghost use Rattle.sn_text.specs.Writing.{symbol_text};
ghost use Rattle.sn_query_print.specs.Layout.{word_gap, symbol_gap, gap, last_of, put, start};
ghost use Rattle.sn_query_print.specs.Printing.{state};

use sn_base::bytes::push_bytes;
use sn_base::memory::Memory;
use std::alloc::Global;

/// What stands last in a text, as far as the blanks after it depend on it.
#[derive(Clone, Copy, Debug, PartialEq, Eq)]
pub enum Last {
    /// Nothing.
    Begin,
    /// The symbol `(`.
    Opening,
    /// The word `at`.
    At,
    /// Any other token.
    Other,
}

/// A text that is written token by token.
#[derive(Drop)]
pub struct Printer {
    text: Vec<u8>,
    last: Last,
}

fn is_same(word: &[u8], text: &[u8]) -> bool
    ensures { result ≡ same word.now text.now }
{
    word == text
}

fn gap_of_word(word: &[u8]) -> &'static [u8]
    ensures { result.now ≡ word_gap word.now }
{
    if is_same(word, b"query") {
        b"\n"
    } else if is_same(word, b"refine") || is_same(word, b"packets") || is_same(word, b"join") {
        b"\n  "
    } else {
        b" "
    }
}

fn gap_before_word(last: Last, word: &[u8]) -> &'static [u8]
    ensures { result.now ≡ gap last (word_lexeme word.now) }
{
    match last {
        Last::Begin => b"",
        Last::Opening => b"",
        Last::At => gap_of_word(word),
        Last::Other => gap_of_word(word),
    }
}

fn gap_of_symbol(place: u8) -> &'static [u8]
    ensures { result.now ≡ symbol_gap Last.Other place }
{
    match place {
        1 => b"\n",
        4 => b"\n    ",
        2 => b"",
        3 => b"",
        5 => b"",
        6 => b"",
        7 => b"",
        _ => b" ",
    }
}

fn gap_before_symbol(last: Last, place: u8) -> &'static [u8]
    ensures { result.now ≡ gap last (symbol place) }
{
    match last {
        Last::Begin => b"",
        Last::Opening => b"",
        Last::At => b" ",
        Last::Other => gap_of_symbol(place),
    }
}

fn gap_before_number(last: Last) -> &'static [u8]
    ensures { result.now ≡ gap last (number 0) }
{
    match last {
        Last::Begin => b"",
        Last::Opening => b"",
        Last::At => b" ",
        Last::Other => b" ",
    }
}

fn gap_before_end(last: Last) -> &'static [u8]
    ensures { result.now ≡ gap last finish }
{
    match last {
        Last::Begin => b"",
        Last::Opening => b"",
        Last::At => b"\n",
        Last::Other => b"\n",
    }
}

fn text_of_symbol(place: u8) -> &'static [u8]
    ensures { result.now ≡ symbol_text place }
{
    match place {
        0 => b"{",
        1 => b"}",
        2 => b";",
        3 => b",",
        4 => b"|",
        5 => b"(",
        6 => b")",
        7 => b":",
        8 => b"&",
        9 => b"+",
        10 => b"*",
        11 => b"/",
        12 => b"==",
        13 => b"!=",
        14 => b"<",
        15 => b"<=",
        16 => b">",
        17 => b">=",
        _ => b">>",
    }
}

fn last_word(word: &[u8]) -> Last
    ensures { result ≡ last_of (word_lexeme word.now) }
{
    if is_same(word, b"at") {
        Last::At
    } else {
        Last::Other
    }
}

fn last_symbol(place: u8) -> Last
    ensures { result ≡ last_of (symbol place) }
{
    if place == 5 {
        Last::Opening
    } else {
        Last::Other
    }
}

fn add(text: &mut Vec<u8>, gap: &[u8], token: &[u8]) -> Result<(), Memory>
    ensures { OnOk result (text.new.items ≡ text.old.items ++ gap.now ++ token.now) }
{
    push_bytes(text, gap)?;
    push_bytes(text, token)
}

impl Printer {
    /// An empty text.
    pub fn new(alloc: Global) -> Printer
        ensures { state result ≡ start }
    {
        Printer {
            text: Vec::new(alloc),
            last: Last::Begin,
        }
    }

    /// Writes a word.
    pub fn word(&mut self, word: &[u8]) -> Result<(), Memory>
        ensures { OnOk result (state self.new ≡ put (state self.old) (plain (word_lexeme word.now))) }
    {
        add(&mut self.text, gap_before_word(self.last, word), word)?;
        self.last = last_word(word);
        Ok(())
    }

    /// Writes a number.
    pub fn number(&mut self, alloc: Global, value: u64) -> Result<(), Memory>
        ensures { OnOk result (state self.new ≡ put (state self.old) (plain (number value))) }
    {
        let Ok(text) = value.to_string(alloc) else {
            return Err(Memory);
        };
        add(
            &mut self.text,
            gap_before_number(self.last),
            text.as_bytes(),
        )?;
        self.last = Last::Other;
        Ok(())
    }

    /// Writes a symbol, by its place in the list of symbols.
    pub fn symbol(&mut self, place: u8) -> Result<(), Memory>
        ensures { OnOk result (state self.new ≡ put (state self.old) (plain (symbol place))) }
    {
        add(
            &mut self.text,
            gap_before_symbol(self.last, place),
            text_of_symbol(place),
        )?;
        self.last = last_symbol(place);
        Ok(())
    }

    /// Ends the last line.
    pub fn end(&mut self) -> Result<(), Memory>
        ensures { OnOk result (state self.new ≡ put (state self.old) (plain finish)) }
    {
        add(&mut self.text, gap_before_end(self.last), b"")?;
        self.last = Last::Other;
        Ok(())
    }

    /// The text that was written.
    pub fn into_text(self) -> Vec<u8>
        ensures { result.items ≡ (state self).text }
    {
        self.text
    }
}
