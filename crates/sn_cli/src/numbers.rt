//! Numbers among the words.
ghost use Rattle.std.specs.Prelude.{◌≡◌};
ghost use Rattle.sn_cli.specs.Reading.{value_within, number_of};

/// The number that decimal digits stand for, if they all are digits and it is at most this large.
fn value_of(digits: &[u8], most: u32) -> Option<u32>
    ensures { result ≡ value_within most digits.now }
{
    let mut value = 0;
    for digit in digits {
        if *digit < b'0' || *digit > b'9' {
            return None;
        }
        value = value * 10 + u64::from(*digit - b'0');
        if value > u64::from(most) {
            return None;
        }
    }
    Some(value as u32)
}

/// The number of a word of one to ten decimal digits, if it is in the range.
pub fn number(word: &str, least: u32, most: u32) -> Option<u32>
    ensures { result ≡ number_of least most word.now }
{
    let digits = word.as_bytes();
    if digits.is_empty() || digits.len() > 10 {
        return None;
    }
    let value = value_of(digits, most)?;
    if value < least { None } else { Some(value) }
}
