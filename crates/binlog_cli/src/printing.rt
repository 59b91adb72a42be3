// Text that is gathered, and given in pieces.

ghost use Rattle.std.specs.Prelude.{◌≡◌, ◌≢◌, ◌≤◌, ◌++◌, [], Err, ℕ, List, Option, IfErr, MatchResult, OnOk, OnErr, string_bytes};
ghost use Rattle.io_core.specs.Stream.{IsPartlyGiven, extended};
ghost use Rattle.binlog_cli.specs.Printed.{IsPrinted};
ghost use Rattle.binlog_cli.specs.Stops.{IsListStop, PrintCauses, list_status_of};

use crate::ListStatus;
use crate::status::print_stop;
use io_core::Sink;

/// As many bytes of text are gathered before they are given.
const GATHERED: usize = 65_536;

/// Gives a text to the sink, which isn't called for an empty one.
pub(crate) fn give_text<K: Sink>(out: &mut K, text: &str) -> Result<(), ListStatus>
    ensures ok { OnOk result (K.given out.new ≡ extended text.now (K.given out.old)) }
    ensures err { OnErr result (IsPartlyGiven text.now (K.given out.old) (K.given out.new)) }
    ensures stop { IfErr result IsListStop }
    ensures cause { PrintCauses (K.faults out.old) (K.faults out.new) result }
    ensures no_out_fault { list_status_of result ≢ ListStatus.OutFault → K.faults out.new ≡ K.faults out.old }
    ensures refusals_later { K.memory_refusals out.old ≤ K.memory_refusals out.new }
    ensures no_refusal { OnOk result (K.memory_refusals out.new ≡ K.memory_refusals out.old) }
    ensures inside { result ≢ Err ListStatus.FileFault }
    ensures some { result ≡ Err ListStatus.OutFault → text.now ≢ [] }
    ensures spoken { OnErr result (text.now ≢ []) }
{
    if text.is_empty() {
        return Ok(());
    }
    match out.give(text.as_bytes()) {
        Ok(()) => Ok(()),
        Err(e) => Err(print_stop(e)),
    }
}

/// Puts lines behind the text that isn't given yet, and gives it once it is long.
pub(crate) fn print_lines<K: Sink>(
    text: &mut String,
    lines: &str,
    out: &mut K,
) -> Result<(), ListStatus>
    ensures printed { (before : Option (List ℕ)) (front : List ℕ) → IsPrinted front before (K.given out.old) (string_bytes text.old)
        → MatchResult result (λ _. IsPrinted (front ++ lines.now) before (K.given out.new) (string_bytes text.new))
        (λ _. IsPartlyGiven (front ++ lines.now) before (K.given out.new)) }
    ensures stop { IfErr result IsListStop }
    ensures cause { PrintCauses (K.faults out.old) (K.faults out.new) result }
    ensures no_out_fault { list_status_of result ≢ ListStatus.OutFault → K.faults out.new ≡ K.faults out.old }
    ensures refusals_later { K.memory_refusals out.old ≤ K.memory_refusals out.new }
    ensures no_refusal { OnOk result (K.memory_refusals out.new ≡ K.memory_refusals out.old) }
    ensures inside { result ≢ Err ListStatus.FileFault }
    ensures some { result ≡ Err ListStatus.OutFault → string_bytes text.old ++ lines.now ≢ [] }
{
    text.push_str(lines)?;
    if text.len() < GATHERED {
        return Ok(());
    }
    give_text(out, text.as_str())?;
    text.clear();
    Ok(())
}
