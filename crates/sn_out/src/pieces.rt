//! The pieces of a text.
ghost use Rattle.std.specs.Prelude.{◌≡◌, ◌<◌, ◌++◌, ◌∷◌, ◌/◌, ◌%◌, ◌^◌, OnOk};
ghost use Rattle.std.specs.Fmt.{decimal};
ghost use Rattle.sn_out.specs.Text.{address_text, dotted, emitted_words, emitted_text, group_text, grouped, half_text, hex_digit};

use itoa::Buffer;
use sn_base::bytes::push_bytes;
use sn_base::memory::Memory;

const WORD: u128 = 1 << 64;

/// Adds a number in decimal.
pub fn push_number(text: &mut Vec<u8>, number: u64) -> Result<(), Memory>
    ensures { OnOk result (text.new.items ≡ text.old.items ++ decimal number) }
{
    let mut buffer = Buffer::new();
    push_bytes(text, buffer.format(number).as_bytes())
}

/// Adds a number of at most 128 bits in decimal.
pub(crate) fn push_whole(text: &mut Vec<u8>, number: u128) -> Result<(), Memory>
    ensures { OnOk result (text.new.items ≡ text.old.items ++ decimal number) }
{
    match u64::try_from(number) {
        Ok(word) => push_number(text, word),
        Err(_) => push_long(text, number),
    }
}

fn push_long(text: &mut Vec<u8>, number: u128) -> Result<(), Memory>
    ensures { OnOk result (text.new.items ≡ text.old.items ++ decimal number) }
{
    let mut buffer = Buffer::new();
    push_bytes(text, buffer.format(number).as_bytes())
}

fn push_dot(text: &mut Vec<u8>, number: u64) -> Result<(), Memory>
    ensures { OnOk result (text.new.items ≡ text.old.items ++ 46 ∷ decimal number) }
{
    push_bytes(text, b".")?;
    push_number(text, number)
}

/// Adds an address of 32 bits, dotted.
fn push_dotted(text: &mut Vec<u8>, address: u128) -> Result<(), Memory>
    ensures { OnOk result (text.new.items ≡ text.old.items ++ dotted address) }
{
    push_number(text, ((address >> 24) % 256) as u64)?;
    push_dot(text, ((address >> 16) % 256) as u64)?;
    push_dot(text, ((address >> 8) % 256) as u64)?;
    push_dot(text, (address % 256) as u64)
}

/// The hexadecimal digit of a number below 16.
fn hex_digit(number: u16) -> u8
    requires { number < 16 }
    ensures { result ≡ hex_digit number }
{
    let digit = number as u8;
    if digit < 10 {
        b'0' + digit
    } else {
        b'a' - 10 + digit
    }
}

/// Adds a group of 16 bits: four hexadecimal digits.
#[tactic(auto, unfolding(crate::specs::Text::group_text))]
fn push_group(text: &mut Vec<u8>, group: u16) -> Result<(), Memory>
    ensures { OnOk result (text.new.items ≡ text.old.items ++ group_text group) }
{
    let digits = [
        hex_digit((group >> 12) % 16),
        hex_digit((group >> 8) % 16),
        hex_digit((group >> 4) % 16),
        hex_digit(group % 16),
    ];
    push_bytes(text, &digits)
}

fn push_next_group(text: &mut Vec<u8>, group: u16) -> Result<(), Memory>
    ensures { OnOk result (text.new.items ≡ text.old.items ++ 58 ∷ group_text group) }
{
    push_bytes(text, b":")?;
    push_group(text, group)
}

fn push_half(text: &mut Vec<u8>, half: u64) -> Result<(), Memory>
    ensures { OnOk result (text.new.items ≡ text.old.items ++ half_text half) }
{
    push_group(text, ((half >> 48) % 65536) as u16)?;
    push_next_group(text, ((half >> 32) % 65536) as u16)?;
    push_next_group(text, ((half >> 16) % 65536) as u16)?;
    push_next_group(text, (half % 65536) as u16)
}

/// Adds an address of 128 bits in eight groups.
fn push_grouped(text: &mut Vec<u8>, address: u128) -> Result<(), Memory>
    ensures { OnOk result (text.new.items ≡ text.old.items ++ grouped address) }
{
    push_half(text, (address / WORD) as u64)?;
    push_bytes(text, b":")?;
    push_half(text, (address % WORD) as u64)
}

/// Adds an address of a width: one of 128 bits in groups, another dotted.
pub(crate) fn push_address(text: &mut Vec<u8>, width: u32, address: u128) -> Result<(), Memory>
    ensures { OnOk result (text.new.items ≡ text.old.items ++ address_text width address) }
{
    if width == 128 {
        push_grouped(text, address)
    } else {
        push_dotted(text, address)
    }
}

#[tactic(auto, unfolding(crate::specs::Text::emitted_words))]
fn push_emitted_words(text: &mut Vec<u8>) -> Result<(), Memory>
    ensures { OnOk result (text.new.items ≡ text.old.items ++ emitted_words) }
{
    push_bytes(text, b" emitted ")
}

/// Adds how many tuples were emitted, where that is counted.
pub(crate) fn push_emitted(text: &mut Vec<u8>, emitted: Option<u64>) -> Result<(), Memory>
    ensures { OnOk result (text.new.items ≡ text.old.items ++ emitted_text emitted) }
{
    match emitted {
        Some(emitted) => {
            push_emitted_words(text)?;
            push_number(text, emitted)
        }
        None => Ok(()),
    }
}
