// One line of a plain key file.

ghost use Rattle.std.specs.Prelude.{◌≡◌, ℕ, ◌<◌, ◌≤◌, length, take, MatchOption, Ok};
ghost use Rattle.std.specs.Char.{is_ascii_digit};
ghost use Rattle.std.specs.List.{AllPass, prefix_len};
ghost use Rattle.std.specs.Str.Parse.{digits_value};
ghost use Rattle.hex.specs.Hex.{decode_of, is_hex_digit};
ghost use Rattle.key_file.specs.Line.{IsId, IsKeyDigits, is_blank, line_says};

use crate::fault::KeyFault;
use crate::keys::KeyItem;
use key_ring::KeyBytes;

// Past the largest id.
const PAST_IDS: u64 = 4_294_967_296;

// How many blanks a line begins with.
fn count_blanks(line: &[u8]) -> usize
    ensures count { result ≡ prefix_len is_blank line.now }
    ensures within { result ≤ length line.now }
{
    line.iter()
        .take_while(|b| **b == b' ' || **b == b'\t' || **b == b'\r')
        .count()
}

// How many decimal digits a text begins with.
fn count_digits(text: &[u8]) -> usize
    ensures count { result ≡ prefix_len is_ascii_digit text.now }
    ensures within { result ≤ length text.now }
    ensures digits { AllPass is_ascii_digit (take result text.now) }
{
    text.iter().take_while(|b| b.is_ascii_digit()).count()
}

// How many hex digits a text begins with.
fn count_hex_digits(text: &[u8]) -> usize
    ensures count { result ≡ prefix_len is_hex_digit text.now }
    ensures within { result ≤ length text.now }
    ensures digits { AllPass is_hex_digit (take result text.now) }
{
    text.iter().take_while(|b| b.is_ascii_hexdigit()).count()
}

// The id that digits spell, if it is one.
fn id_of(digits: &[u8]) -> Option<u32>
    requires { AllPass is_ascii_digit digits.now }
    ensures { MatchOption result (¬ IsId (digits_value 10 digits.now)) (λ id. (id ≡ digits_value 10 digits.now) × IsId (digits_value 10 digits.now)) }
{
    let mut value = 0;
    for digit in digits {
        value = (value * 10 + u64::from(*digit - b'0')).min(PAST_IDS);
    }
    if value == 0 || value >= PAST_IDS {
        return None;
    }
    Some(value as u32)
}

// The key of 32, 48 or 64 hex digits.
fn key_of(digits: &[u8]) -> Option<KeyBytes>
    requires { AllPass is_hex_digit digits.now }
    ensures { MatchOption result (¬ IsKeyDigits (length digits.now)) (λ key. (decode_of digits.now ≡ Ok key) × IsKeyDigits (length digits.now)) }
{
    let n = digits.len();
    if n != 32 && n != 48 && n != 64 {
        return None;
    }
    let mut bytes = [0; 32];
    let Ok(()) = hex::decode_to_slice(digits, &mut bytes[..n / 2]) else {
        unreachable!()
    };
    KeyBytes::new(&bytes[..n / 2])
}

/// Reads a line, whose number is counted from 1: its id and its key, or `None` where the line is
/// empty or a comment.
pub(crate) fn read_line(line: &[u8], number: usize) -> Result<Option<KeyItem>, KeyFault>
    ensures { result ≡ line_says number line.now }
{
    let text = &line[count_blanks(line)..];
    if text.is_empty() || text[0] == b'#' {
        return Ok(None);
    }
    let digits = count_digits(text);
    if digits == 0 {
        return Err(KeyFault::NoDigits(number));
    }
    let Some(id) = id_of(&text[..digits]) else {
        return Err(KeyFault::IdRange(number));
    };
    let rest = &text[digits..];
    if rest.is_empty() || rest[0] != b';' {
        return Err(KeyFault::NoSemicolon(number));
    }
    let rest = &rest[1..];
    let hex_digits = count_hex_digits(rest);
    match key_of(&rest[..hex_digits]) {
        Some(key) => Ok(Some(KeyItem { id, key })),
        None => Err(KeyFault::KeyLength(number, hex_digits)),
    }
}
