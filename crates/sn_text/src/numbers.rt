//! Bytes of words, and numbers.
ghost use Rattle.std.specs.Prelude.{◌≡◌, ◌≤◌, length, option_map, IfSome};
ghost use Rattle.sn_text.specs.Cutting.{is_digit, is_name_start, is_word_byte, run, digit, with_digit, digits, part, dot_part, address, has_dot, is_hex};
ghost use Rattle.sn_text.specs.Cutting.{number_of};

pub fn is_digit_byte(b: u8) -> bool
    ensures { result ≡ is_digit b }
{
    b >= b'0' && b <= b'9'
}

pub fn is_name_byte(b: u8) -> bool
    ensures { result ≡ is_name_start b }
{
    (b >= b'A' && b <= b'Z') || (b >= b'a' && b <= b'z') || b == b'_'
}

fn is_in_word(b: u8) -> bool
    ensures { result ≡ is_word_byte b }
{
    is_name_byte(b) || is_digit_byte(b) || b == b'.'
}

pub fn word_len(bytes: &[u8]) -> usize
    ensures value { result ≡ run is_word_byte bytes.now }
    ensures within { result ≤ length bytes.now }
{
    for (i, b) in bytes.iter().enumerate() {
        if !is_in_word(*b) {
            return i;
        }
    }
    bytes.len()
}

fn digits_len(bytes: &[u8]) -> usize
    ensures value { result ≡ run is_digit bytes.now }
    ensures within { result ≤ length bytes.now }
{
    for (i, b) in bytes.iter().enumerate() {
        if !is_digit_byte(*b) {
            return i;
        }
    }
    bytes.len()
}

fn digit_of(base: u64, b: u8) -> Option<u64>
    ensures { result ≡ digit base b }
{
    if is_digit_byte(b) {
        Some(u64::from(b - b'0'))
    } else if base == 10 {
        None
    } else if b >= b'a' && b <= b'f' {
        Some(u64::from(b - 87))
    } else if b >= b'A' && b <= b'F' {
        Some(u64::from(b - 55))
    } else {
        None
    }
}

fn more_digits(base: u64, number: u64, b: u8) -> Option<u64>
    requires { base ≤ 16 }
    ensures { result ≡ with_digit base number (digit base b) }
{
    let digit = digit_of(base, b)?;
    number.checked_mul(base)?.checked_add(digit)
}

fn digits_value(base: u64, word: &[u8]) -> Option<u64>
    requires { base ≤ 16 }
    ensures { result ≡ digits base word.now }
{
    if word.is_empty() {
        return None;
    }
    let mut number = 0;
    for b in word {
        match more_digits(base, number, *b) {
            None => return None,
            Some(next) => number = next,
        }
    }
    Some(number)
}

#[tactic(auto, unfolding(crate::specs::Cutting::part))]
fn part_at(word: &[u8]) -> Option<(u64, &[u8])>
    ensures value { option_map (λ x. (x.0, x.1.now)) result ≡ part word.now }
    ensures most { IfSome result (λ x. x.0 ≤ 255) }
{
    let count = digits_len(word);
    if count > 3 {
        return None;
    }
    let (front, after) = word.split_at(count);
    let number = digits_value(10, front)?;
    if number <= 255 {
        Some((number, after))
    } else {
        None
    }
}

#[tactic(auto, unfolding(crate::specs::Cutting::dot_part))]
fn dot_part_at(word: &[u8]) -> Option<(u64, &[u8])>
    ensures value { option_map (λ x. (x.0, x.1.now)) result ≡ dot_part word.now }
    ensures most { IfSome result (λ x. x.0 ≤ 255) }
{
    match word {
        [] => None,
        [b, after @ ..] => { if *b == b'.' { part_at(after) } else { None } }
    }
}

fn has_a_dot(word: &[u8]) -> bool
    ensures { result ≡ has_dot word.now }
{
    for b in word {
        if *b == b'.' {
            return true;
        }
    }
    false
}

fn is_hex_word(word: &[u8]) -> bool
    ensures { result ≡ is_hex word.now }
{
    match word {
        [a, b, ..] => *a == b'0' && *b == b'x',
        _ => false,
    }
}

#[tactic(auto, unfolding(crate::specs::Cutting::address))]
fn address_in(word: &[u8]) -> Option<u64>
    ensures { result ≡ address word.now }
{
    let (a, rest) = part_at(word)?;
    let (b, rest) = dot_part_at(rest)?;
    let (c, rest) = dot_part_at(rest)?;
    let (d, rest) = dot_part_at(rest)?;
    if rest.is_empty() {
        Some(a * 16777216 + b * 65536 + c * 256 + d)
    } else {
        None
    }
}

/// The number of a word that begins with a digit. `None` where it is none, or past 64 bits.
#[tactic(auto, unfolding(crate::specs::Cutting::number_of))]
pub fn number_in(word: &[u8]) -> Option<u64>
    ensures { result ≡ number_of word.now }
{
    if is_hex_word(word) {
        digits_value(16, word.split_at(2).1)
    } else if has_a_dot(word) {
        address_in(word)
    } else {
        digits_value(10, word)
    }
}
