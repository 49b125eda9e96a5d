//! The top call: the commands by workers, and all others.

ghost use Rattle.std.specs.Prelude.{◌≡◌, ℕ, ◌≤◌, ◌⊎◌, Bool, false, true, List, [], Ok, None, IfSome, IfOk, OnOk, IfErr, MatchOption};
ghost use Rattle.std.specs.Option.{option_map};
ghost use Rattle.io_ends.specs.Ends.{Rose, given, taken_after};
ghost use Rattle.surface_text.specs.Spelling.{Content, text as file_text};
ghost use Rattle.answer_text.specs.declared.status.Status.{Status as Answer};
ghost use Rattle.answer_text.specs.declared.status.Status.TheVariants.{Done, ReadFault};
ghost use Rattle.answer_text.specs.Lines.{status_line};
ghost use Rattle.command_words.specs.declared.command.Command.{Command as CommandValue};
ghost use Rattle.command_words.specs.Commands.{Names, AreTaken, NameGroup};
ghost use Rattle.report_text.specs.Reports.{report_text};
ghost use Rattle.family_gen.specs.Families.{family_of};
ghost use Rattle.veech_cli.specs.SurfaceFiles.{IsAccepted};
ghost use Rattle.veech_cli.specs.Writings.{summary_text, trial_text};
ghost use Rattle.veech_cli.specs.Owed.{ReadsInput, Owes, IsOptional};
ghost use Rattle.veech_cli.specs.Headline.{IsClosed};
ghost use Rattle.veech_cli.specs.Runs.{IsCommand, IsPlainCommand, SettlesOn, Settles, Delivers, IsInput, SomeInput, IsReadWhole, SaysNothing};
ghost use Rattle.veech_cli.specs.Surfaces.{IsRefusal};

use super::group::group;
use super::laws::reports_are_closed;
use super::one_thread::{INPUT_LIMIT, deliver, refuse, run_plain};
use super::refusal::Refusal;
use super::{Status, WordList};
use command_words::{ClassLimit, Command, WorkerNumber, read_command};
use io_ends::{Gate, Sink, Source, read_all};
use std::alloc::{AllocError, Global};
use std::sync::Wait;
use std::thread::Threads;

/// Runs the command that the words name on the bytes of the source, and writes its text to the sink. The workers of `group` start on
/// threads of `rt`, and each asks the gate before each of its steps. All other commands are those of `run_plain`.
///
/// The words are checked before anything is read. The source is read to its end, or to one byte past the limit,
/// before the input is looked at. All output is composed before the first byte is written, and a refusal writes
/// its one line in place of it.
pub fn run<R: Threads + Wait + Sync, S: Source, K: Sink, G: Gate>(
    rt: &R,
    alloc: Global,
    words: &WordList,
    source: &mut S,
    sink: &mut K,
    gate: &G,
) -> Status
    // What the words and the input settle is what is answered and written, whole, or up to where the sink failed:
    // the status and the text that the command owes the input, a failure with its line, or the refusal of the words.
    ensures outcome { (input : List ℕ) × (status : Answer) × (text : List ℕ)
        × IsInput (S.left source.old) input
        × Settles IsCommand words.now input status text
        × Delivers status text result (K.taken sink.old) (K.taken sink.new) }

    // The headline: where `group` answers Done, the input is a surface file with a base, and what was written is the report of exactly the
    // classes that crossings reach from the base, and of matrices that generate exactly the derivatives of crossing paths that return to
    // an image of the base.
    ensures headline { (flips limit workers : ℕ) → Names words.now (CommandValue.Group flips limit workers) → result ≡ Status.Done
        → IfSome (S.left source.old) (λ input. (written : List ℕ) × IsClosed (IsAccepted input) flips limit report_text written
        × (K.taken sink.new ≡ taken_after (K.taken sink.old) written)) }
    // `plain` writes the same without workers.
    ensures headline_plain { (flips limit : ℕ) → Names words.now (CommandValue.Plain flips limit false) → result ≡ Status.Done
        → IfSome (S.left source.old) (λ input. (written : List ℕ) × IsClosed (IsAccepted input) flips limit report_text written
        × (K.taken sink.new ≡ taken_after (K.taken sink.old) written)) }
    // Where it is asked for the summary, what was written is how many these classes and matrices are.
    ensures summary { (flips limit : ℕ) → Names words.now (CommandValue.Plain flips limit true) → result ≡ Status.Done
        → IfSome (S.left source.old) (λ input. (written : List ℕ) × IsClosed (IsAccepted input) flips limit summary_text written
        × (K.taken sink.new ≡ taken_after (K.taken sink.old) written)) }
    // `trial` writes its number and that summary, for the file of the number, whatever the source has.
    ensures trial { (flips limit number : ℕ) → Names words.now (CommandValue.Trial flips limit number) → result ≡ Status.Done
        → (written : List ℕ) × IsClosed (λ file. file ≡ family_of number) flips limit (trial_text number) written
        × (K.taken sink.new ≡ taken_after (K.taken sink.old) written) }
    // `make` writes the text of that file.
    ensures made { (number : ℕ) → Names words.now (CommandValue.Make number) → result ≡ Status.Done
        → K.taken sink.new ≡ taken_after (K.taken sink.old) (file_text (family_of number)) }

    // The other way round: where no end failed and the source tells its bytes, what the command owes the input is answered,
    // but for want of memory. A wide formula that the answer may do without needn't be answered, and may be where it is owed.
    ensures complete { (command : CommandValue) → Names words.now command
        → ¬ (Rose (S.faults source.old) (S.faults source.new))
        → ¬ (Rose (K.faults sink.old) (K.faults sink.new))
        → IfSome (S.left source.old) (λ input. (status : Answer) (text : List ℕ) → Owes command input status text
        → (result ≡ status) ⊎ (result ≡ Status.Memory) ⊎ IsOptional status ⊎ (IsOptional result × ((line : List ℕ) × Owes command input result line))) }
    // So `check` answers Done where the input is accepted.
    ensures accepted { Names words.now Command.Check
        → ¬ (Rose (S.faults source.old) (S.faults source.new))
        → ¬ (Rose (K.faults sink.old) (K.faults sink.new))
        → IfSome (S.left source.old) (λ input. (file : Content) → IsAccepted input file
        → (result ≡ Status.Done) ⊎ (result ≡ Status.Memory)) }

    // `make` and `trial` need no source for it: what they owe, they owe whatever the input.
    ensures complete_unread { (command : CommandValue) → Names words.now command → ¬ (ReadsInput command)
        → ¬ (Rose (K.faults sink.old) (K.faults sink.new))
        → (input : List ℕ) (status : Answer) (text : List ℕ) → Owes command input status text
        → (result ≡ status) ⊎ (result ≡ Status.Memory) ⊎ IsOptional status ⊎ (IsOptional result × ((line : List ℕ) × Owes command input result line)) }
    // So `make` answers Done.
    ensures makes { (number : ℕ) → Names words.now (CommandValue.Make number)
        → ¬ (Rose (K.faults sink.old) (K.faults sink.new))
        → (result ≡ Status.Done) ⊎ (result ≡ Status.Memory) }

    // Words outside the grammar are refused as such, and then nothing is read.
    ensures words { AreTaken words.now → ¬ (result ≡ Status.Words) }
    ensures refused { ¬ (AreTaken words.now) → (result ≡ Status.Words) ⊎ (result ≡ Status.WriteFault) }
    ensures unread { ¬ (AreTaken words.now) → source.new ≡ source.old }
    // Nor do `make` and `trial` read, so they never blame the source.
    ensures unread_by_number { (command : CommandValue) → Names words.now command → ¬ (ReadsInput command)
        → (source.new ≡ source.old) × ¬ (result ≡ Status.ReadFault) }

    // What is read by the others: all of the input, or one byte past the limit, before anything is said of it.
    ensures all_read { (command : CommandValue) → Names words.now command → ReadsInput command
        → result ≡ Status.Done → S.left source.new ≡ option_map (λ _. []) (S.left source.old) }
    ensures read_whole { (command : CommandValue) → Names words.now command → ReadsInput command
        → SaysNothing result ⊎ IsReadWhole (S.left source.old) (S.left source.new) }
    ensures reads { (n : ℕ) × (n ≤ 1048577) × (S.left source.new ≡ given n (S.left source.old)) }

    // An end is blamed only where its count of faults rose.
    ensures read_fault { result ≡ Status.ReadFault → Rose (S.faults source.old) (S.faults source.new) }
    ensures write_fault { result ≡ Status.WriteFault → Rose (K.faults sink.old) (K.faults sink.new) }
    ensures source_never_falls { S.faults source.old ≤ S.faults source.new }
    ensures sink_never_falls { K.faults sink.old ≤ K.faults sink.new }
{
    reports_are_closed();
    run_words(rt, alloc, words, source, sink, gate)
}

/// Hands out what the words and the input settle. All that a run promises follows.
fn run_words<R: Threads + Wait + Sync, S: Source, K: Sink, G: Gate>(
    rt: &R,
    alloc: Global,
    words: &WordList,
    source: &mut S,
    sink: &mut K,
    gate: &G,
) -> Status
    ensures outcome { (input : List ℕ) × (status : Answer) × (text : List ℕ)
        × IsInput (S.left source.old) input
        × Settles IsCommand words.now input status text
        × Delivers status text result (K.taken sink.old) (K.taken sink.new) }
    ensures words { AreTaken words.now → ¬ (result ≡ Status.Words) }
    ensures refused { ¬ (AreTaken words.now) → (result ≡ Status.Words) ⊎ (result ≡ Status.WriteFault) }
    ensures unread { ¬ (AreTaken words.now) → source.new ≡ source.old }
    ensures unread_by_number { (command : CommandValue) → Names words.now command → ¬ (ReadsInput command)
        → (source.new ≡ source.old) × ¬ (result ≡ Status.ReadFault) }
    ensures all_read { (command : CommandValue) → Names words.now command → ReadsInput command
        → result ≡ Status.Done → S.left source.new ≡ option_map (λ _. []) (S.left source.old) }
    ensures read_whole { (command : CommandValue) → Names words.now command → ReadsInput command
        → SaysNothing result ⊎ IsReadWhole (S.left source.old) (S.left source.new) }
    ensures reads { (n : ℕ) × (n ≤ 1048577) × (S.left source.new ≡ given n (S.left source.old)) }
    ensures read_fault { result ≡ Status.ReadFault → Rose (S.faults source.old) (S.faults source.new) }
    ensures write_fault { result ≡ Status.WriteFault → Rose (K.faults sink.old) (K.faults sink.new) }
    ensures source_never_falls { S.faults source.old ≤ S.faults source.new }
    ensures sink_never_falls { K.faults sink.old ≤ K.faults sink.new }
{
    match read_group(alloc, words) {
        Ok(Some(asked)) => answer(rt, alloc, &asked, source, sink, gate),
        Ok(None) => run_plain(alloc, words, source, sink),
        Err(AllocError) => deliver(sink, Status::Memory, b"fault memory\n"),
    }
}

/// What the words of `group` ask for: so many flips and classes at most, and so many workers.
#[derive(Drop)]
struct Asked {
    flips: u32,
    limit: ClassLimit,
    workers: WorkerNumber,
}

/// What the words ask for where they name `group`: none exactly where they don't.
fn read_group(alloc: Global, words: &WordList) -> Result<Option<Asked>, AllocError>
    ensures named { IfOk result (λ found. MatchOption found (¬ (NameGroup words.now)) (λ asked. Names words.now (CommandValue.Group asked.flips asked.limit asked.workers))) }
    ensures refused { ¬ (AreTaken words.now) → result ≡ Ok None }
{
    match read_command(alloc, words)? {
        Some(command) => Ok(asked_of(command)),
        None => Ok(None),
    }
}

/// What a command asks for where it is `group`: none exactly where it isn't.
fn asked_of(command: Command) -> Option<Asked>
    ensures { MatchOption result (IsPlainCommand command) (λ asked. command ≡ CommandValue.Group asked.flips asked.limit asked.workers) }
{
    match command {
        Command::Group {
            flips,
            limit,
            workers,
        } => Some(Asked {
            flips,
            limit,
            workers,
        }),
        _other => None,
    }
}

/// Reads the input, and hands out what `group` says to it.
fn answer<R: Threads + Wait + Sync, S: Source, K: Sink, G: Gate>(
    rt: &R,
    alloc: Global,
    asked: &Asked,
    source: &mut S,
    sink: &mut K,
    gate: &G,
) -> Status
    ensures outcome { (input : List ℕ) × (status : Answer) × (text : List ℕ)
        × IsInput (S.left source.old) input
        × SettlesOn (CommandValue.Group asked.now.flips asked.now.limit asked.now.workers) input status text
        × Delivers status text result (K.taken sink.old) (K.taken sink.new) }
    ensures words { ¬ (result ≡ Status.Words) }
    ensures all_read { result ≡ Status.Done → S.left source.new ≡ option_map (λ _. []) (S.left source.old) }
    ensures read_whole { SaysNothing result ⊎ IsReadWhole (S.left source.old) (S.left source.new) }
    ensures reads { (n : ℕ) × (n ≤ 1048577) × (S.left source.new ≡ given n (S.left source.old)) }
    ensures read_fault { result ≡ Status.ReadFault → Rose (S.faults source.old) (S.faults source.new) }
    ensures write_fault { result ≡ Status.WriteFault → Rose (K.faults sink.old) (K.faults sink.new) }
    ensures source_never_falls { S.faults source.old ≤ S.faults source.new }
    ensures sink_never_falls { K.faults sink.old ≤ K.faults sink.new }
{
    match settle(rt, alloc, asked, source, gate) {
        Ok(text) => deliver(sink, Status::Done, text.as_slice()),
        Err(refusal) => refuse(alloc, sink, refusal.status),
    }
}

/// What `group` writes for the input of the source, or why there is nothing to write.
fn settle<R: Threads + Wait + Sync, S: Source, G: Gate>(
    rt: &R,
    alloc: Global,
    asked: &Asked,
    source: &mut S,
    gate: &G,
) -> Result<Vec<u8>, Refusal>
    ensures owed { IfOk result (λ text. SomeInput (S.left source.old) (λ input. Owes (CommandValue.Group asked.now.flips asked.now.limit asked.now.workers) input Done text.items)) }
    ensures refused { IfErr result (λ refusal. SomeInput (S.left source.old)
        (λ input. SettlesOn (CommandValue.Group asked.now.flips asked.now.limit asked.now.workers) input refusal.status (status_line refusal.status))) }
    ensures refusal { IfErr result (λ refusal. IsRefusal refusal.status) }
    ensures all_read { OnOk result (S.left source.new ≡ option_map (λ _. []) (S.left source.old)) }
    ensures read_whole { IfErr result (λ refusal. SaysNothing refusal.status ⊎ IsReadWhole (S.left source.old) (S.left source.new)) }
    ensures reads { (n : ℕ) × (n ≤ 1048577) × (S.left source.new ≡ given n (S.left source.old)) }
    ensures read_fault { IfErr result (λ refusal. refusal.status ≡ ReadFault → Rose (S.faults source.old) (S.faults source.new)) }
    ensures never_falls { S.faults source.old ≤ S.faults source.new }
{
    let input = read_all(alloc, source, INPUT_LIMIT)?;
    let limit = asked.limit.number();
    let workers = asked.workers.number();
    group(
        rt,
        alloc,
        input.as_slice(),
        asked.flips,
        limit,
        workers,
        gate,
    )
}
