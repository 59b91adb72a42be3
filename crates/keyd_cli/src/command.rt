// The command `drill`, from its words to its output.
ghost use Rattle.std.specs.Prelude.{◌≡◌, ◌≢◌, ◌⊎◌, ◌≤◌, ◌<◌, ◌∷◌, [], ℕ, Err, length, drop, map, string_bytes, IfOk, IfErr, OnOk};
ghost use Rattle.io_core.specs.Told.{Told};
ghost use Rattle.io_core.specs.Stream.{extended, IsPartlyGiven};
ghost use Rattle.cause_core.specs.Counts.{Rose};
ghost use Rattle.keyd_cli.specs.declared.status.Status.TheVariants as status;
ghost use Rattle.keyd_cli.specs.Words.{IsDrill, IsUsage, AreOptions};
ghost use Rattle.keyd_cli.specs.Reads.{IsSchedule, IsNotBuilt};
ghost use Rattle.keyd_cli.specs.Ends.{load_status, IsKeyed, IsKeyEnd, IsInput, IsInputEnd, IsInputDrilled, IsCommandDrilled, IsDrillDone, IsEnd, NoneRose, IsComplete, drill_text};
ghost use Rattle.keyd_cli.specs.PlanOf.{IsFitting};
ghost use Rattle.keyd_cli.specs.Schedule.{schedule_bytes};

use crate::act::DrillStatement;
use crate::drill::{Drilled, drill, report_after};
use crate::keys::load_keys;
use crate::outcome::{Drills, Ended, Replies};
use crate::plan::{DrillPlan, plan_of};
use crate::print::session_lines;
use crate::schedule::{ScheduleFault, read_schedule};
use crate::status::Status;
use crate::words::{SpaceWords, check_words};
use cause_core::OutOfMemory;
use disk_model::Disk;
use io_core::{IoError, Library, Sink, Source, SourceContents, read_all};
use key_file::LoadFault;
use plain_engine::Journal;
use rand_core::Rng;
use std::alloc::Global;

// The status of key files that don't load.
fn key_status(fault: LoadFault) -> Status
    ensures { result ≡ load_status fault }
{
    match fault {
        LoadFault::Missing(name) => Status::Missing(name),
        LoadFault::FileFault => Status::FileFault,
        LoadFault::KeyFile { index, fault } => Status::KeyFile { index, fault },
        LoadFault::OutOfMemory => Status::OutOfMemory,
    }
}

// Whether the key files that the options name load.
fn check_keys<L: Library>(alloc: Global, files: &mut L, options: &[String]) -> Result<(), Status>
    requires { AreOptions (map string_bytes options.now) }
    ensures ok { OnOk result (IsKeyed (map string_bytes options.now) (L.files files.old)) }
    ensures err { IfErr result (IsKeyEnd (map string_bytes options.now) (L.files files.old) (L.faults files.old) (L.faults files.new) (L.absences files.old) (L.absences files.new)) }
    ensures same { L.files files.new ≡ L.files files.old }
{
    match load_keys(alloc, files, options) {
        Ok(_) => Ok(()),
        Err(fault) => Err(key_status(fault)),
    }
}

// The whole input, of at most 1,048,576 bytes.
fn read_input<S: Source>(alloc: Global, input: &mut S) -> Result<Vec<u8>, Status>
    ensures ok { IfOk result (λ text. IsInput (S.left input.old) text.items) }
    ensures err { (plan : _) → IfErr result (IsInputEnd plan (S.left input.old) (S.faults input.old) (S.faults input.new)) }
{
    match read_all(alloc, input, 1_048_576) {
        Ok(SourceContents::Whole(text)) => Ok(text),
        Ok(SourceContents::TooLarge) => Err(Status::ScriptTooLarge),
        Err(IoError::Failed) => Err(Status::InputFault),
        Err(IoError::NoMemory) => Err(Status::OutOfMemory),
    }
}

// The statements of a schedule.
fn statements_of(
    alloc: Global,
    text: &[u8],
    space: &SpaceWords,
) -> Result<Vec<DrillStatement>, Status>
    requires pages { 2 ≤ space.now.pages }
    requires size { length text.now ≤ schedule_bytes }
    ensures ok { IfOk result (λ s. IsSchedule space.now.space space.now.pages text.now s.items) }
    ensures err { IfErr result (λ s. (s ≡ status.OutOfMemory) ⊎ ((line : ℕ) × (s ≡ status.NotBuilt line) × IsNotBuilt space.now.space space.now.pages text.now line)) }
{
    match read_schedule(alloc, text, space) {
        Ok(statements) => Ok(statements),
        Err(ScheduleFault::NotBuilt(line)) => Err(Status::NotBuilt(line)),
        Err(ScheduleFault::OutOfMemory) => Err(Status::OutOfMemory),
    }
}

// What a drill prints.
fn printed(alloc: Global, plan: &DrillPlan, drilled: &Drilled) -> Result<Vec<u8>, OutOfMemory>
    requires { drilled.now.end.kept ≤ length drilled.now.journal }
    ensures { IfOk result (λ text. text.items ≡ drill_text plan.now drilled.now) }
{
    let end = &drilled.end;
    let mut text = session_lines(
        alloc,
        end.stopped,
        &plan.choices,
        end.journal,
        end.acked,
        end.kept,
    )?;
    let report = report_after(alloc, &plan.space, &drilled.journal, end.kept)?;
    text.extend_from_slice(&report)?;
    Ok(text)
}

fn print<K: Sink>(out: &mut K, text: &[u8]) -> Result<(), Status>
    ensures ok { OnOk result (K.given out.new ≡ extended text.now (K.given out.old)) }
    ensures err { IfErr result (λ s. IsPartlyGiven text.now (K.given out.old) (K.given out.new) × ((s ≡ status.OutOfMemory) ⊎ ((s ≡ status.OutFault) × Rose (K.faults out.old) (K.faults out.new)))) }
{
    match out.give(text) {
        Ok(()) => Ok(()),
        Err(IoError::Failed) => Err(Status::OutFault),
        Err(IoError::NoMemory) => Err(Status::OutOfMemory),
    }
}

// Drills the schedule of the input.
fn drill_input<S: Source>(alloc: Global, plan: &DrillPlan, input: &mut S) -> Result<Drilled, Status>
    requires fits { IsFitting plan.now }
    ensures ok { IfOk result (IsInputDrilled plan.now (S.left input.old)) }
    ensures err { IfErr result (IsInputEnd plan.now (S.left input.old) (S.faults input.old) (S.faults input.new)) }
{
    let text = read_input(alloc, input)?;
    let statements = statements_of(alloc, &text, &plan.space)?;
    Ok(drill(alloc, plan, statements)?)
}

// What a command that is done ends with, but for the disk.
#[derive(Drop)]
struct Finished {
    journal: Journal,
    replies: Replies,
    drill: Drills,
}

fn finish(alloc: Global, drilled: Drilled) -> Result<Finished, OutOfMemory>
    ensures journal { IfOk result (λ f. f.journal ≡ drilled.journal) }
    ensures replies { IfOk result (λ f. f.replies ≡ drilled.replies.items) }
    ensures drill { IfOk result (λ f. f.drill.ends.items ≡ drilled.end ∷ []) }
{
    let drill = Drills::of(vec![in alloc; drilled.end]?);
    Ok(Finished {
        journal: drilled.journal,
        replies: Replies::of(drilled.replies),
        drill,
    })
}

// The options behind the word of the command.
fn options_of(words: &[String]) -> &[String]
    requires { 1 ≤ length words.now }
    ensures { map string_bytes result.now ≡ drop 1 (map string_bytes words.now) }
{
    &words[1..]
}

// The command, and its status where it isn't done.
fn run_command<L: Library, S: Source, K: Sink>(
    alloc: Global,
    words: &[String],
    files: &mut L,
    input: &mut S,
    out: &mut K,
) -> Result<Finished, Status>
    ensures ok { IfOk result (λ f. IsDrillDone (map string_bytes words.now) (L.files files.old) (S.left input.old) (K.given out.old) (K.given out.new) f.journal f.replies f.drill.ends.items) }
    ensures err { IfErr result (IsEnd (map string_bytes words.now) (L.files files.old) (S.left input.old) (K.given out.old) (K.given out.new) (record { library = L.faults files.old; absences = L.absences files.old; input = S.faults input.old; output = K.faults out.old }) (record { library = L.faults files.new; absences = L.absences files.new; input = S.faults input.new; output = K.faults out.new })) }
    ensures same { L.files files.new ≡ L.files files.old }
{
    if let Err(index) = check_words(words) {
        return Err(Status::Usage(index));
    }
    let options = options_of(words);
    check_keys(alloc, files, options)?;
    let plan = plan_of(alloc, options)?;
    let drilled = drill_input(alloc, &plan, input)?;
    let text = printed(alloc, &plan, &drilled)?;
    let finished = finish(alloc, drilled)?;
    print(out, &text)?;
    Ok(finished)
}

fn ended<D>(alloc: Global, status: Status, disk: D) -> Ended<D>
    ensures status { result.status ≡ status }
    ensures disk { result.disk ≡ disk }
    ensures journal { result.journal ≡ [] }
    ensures replies { result.replies ≡ [] }
    ensures drill { result.drill.ends.items ≡ [] }
{
    Ended {
        status,
        disk,
        journal: Journal::empty(alloc),
        replies: Replies::of(Vec::new(alloc)),
        drill: Drills::of(Vec::new(alloc)),
    }
}

/// Does the command that the words name, without the program's name. It always returns.
pub fn keyd_now<D, L, S, K, R>(
    alloc: Global,
    words: &[String],
    disk: D,
    files: &mut L,
    input: &mut S,
    out: &mut K,
    rng: &mut R,
) -> Ended<D>
where
    D: Disk,
    L: Library,
    S: Source,
    K: Sink,
    R: Rng,
    ensures done { result.status ≡ status.Done → IsDrillDone (map string_bytes words.now) (L.files files.old) (S.left input.old) (K.given out.old) (K.given out.new) result.journal result.replies result.drill.ends.items }
    ensures ends { result.status ≢ status.Done → IsEnd (map string_bytes words.now) (L.files files.old) (S.left input.old) (K.given out.old) (K.given out.new) (record { library = L.faults files.old; absences = L.absences files.old; input = S.faults input.old; output = K.faults out.old }) (record { library = L.faults files.new; absences = L.absences files.new; input = S.faults input.new; output = K.faults out.new }) result.status }
    ensures complete { IsComplete (map string_bytes words.now) (L.files files.old) (S.left input.old) → NoneRose (record { library = L.faults files.old; absences = L.absences files.old; input = S.faults input.old; output = K.faults out.old }) (record { library = L.faults files.new; absences = L.absences files.new; input = S.faults input.new; output = K.faults out.new }) → (result.status ≡ status.Done) ⊎ (result.status ≡ status.OutOfMemory) }
    ensures empty { result.status ≢ status.Done → (result.journal ≡ []) × (result.replies ≡ []) × (result.drill.ends.items ≡ []) }
    ensures disk { result.disk ≡ disk }
    ensures same { L.files files.new ≡ L.files files.old }
{
    match run_command(alloc, words, files, input, out) {
        Ok(finished) => Ended {
            status: Status::Done,
            disk,
            journal: finished.journal,
            replies: finished.replies,
            drill: finished.drill,
        },
        Err(status) => ended(alloc, status, disk),
    }
}
