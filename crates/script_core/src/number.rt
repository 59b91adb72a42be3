// Numbers as a script writes them.
ghost use Rattle.std.specs.Prelude.{◌≡◌, IsTrue, ◌↔◌, IfErr, IfOk};
ghost use Rattle.script_core.specs.Words.{IsNumeral, IsNumber, NotNumber};

use crate::fault::LineFault;

// Whether a word is decimal digits without a leading zero (a lone 0 is fine).
fn is_numeral(word: &[u8]) -> bool
    ensures { IsTrue result ↔ IsNumeral word.now }
{
    !word.is_empty()
        && (word[0] != b'0' || word.len() == 1)
        && word.iter().all(|&digit| b'0' <= digit && digit <= b'9')
}

// The number from low to high that a word writes.
pub(crate) fn number_of(word: &[u8], low: u32, high: u32) -> Result<u32, LineFault>
    ensures ok { IfOk result (IsNumber word.now low high) }
    ensures err { IfErr result (NotNumber word.now low high) }
{
    let Ok(text) = str::from_utf8(word) else {
        return Err(LineFault::Number);
    };
    if !is_numeral(word) {
        return Err(LineFault::Number); // A sign and a leading zero too.
    }
    let Ok(number) = text.parse::<u32>() else {
        return Err(LineFault::Range);
    };
    if number < low || high < number {
        return Err(LineFault::Range);
    }
    Ok(number)
}
