//! The top call on one thread.

ghost use Rattle.std.specs.Prelude.{◌≡◌, ◌↔◌, ℕ, ◌≤◌, ◌⊎◌, Bool, false, true, IsTrue, List, [], length, Ok, None, IfSome, IfOk, OnOk, IfErr, MatchOption};
ghost use Rattle.std.specs.Option.{option_map};
ghost use Rattle.io_ends.specs.Ends.{Rose, given, taken_after};
ghost use Rattle.surface_text.specs.Spelling.{Content, text as file_text};
ghost use Rattle.answer_text.specs.declared.status.Status.{Status as Answer};
ghost use Rattle.answer_text.specs.declared.status.Status.TheVariants.{Done, ReadFault};
ghost use Rattle.answer_text.specs.Lines.{status_line};
ghost use Rattle.command_words.specs.declared.command.Command.{Command as CommandValue};
ghost use Rattle.command_words.specs.Commands.{Names, AreTaken, NameGroup};
ghost use Rattle.report_text.specs.Reports.{report_text};
ghost use Rattle.family_gen.specs.Families.{family_of};
ghost use Rattle.veech_cli.specs.SurfaceFiles.{IsAccepted};
ghost use Rattle.veech_cli.specs.Writings.{summary_text, trial_text};
ghost use Rattle.veech_cli.specs.Owed.{ReadsInput, Owes, IsOptional};
ghost use Rattle.veech_cli.specs.Headline.{IsClosed};
ghost use Rattle.veech_cli.specs.Runs.{IsPlainCommand, NameOne, SettlesOn, Settles, Delivers, IsInput, SomeInput, IsReadWhole, SaysNothing};
ghost use Rattle.veech_cli.specs.Surfaces.{IsRefusal, IsRefusalOf};

use super::base::base;
use super::check::check;
use super::laws::reports_are_closed;
use super::make::make;
use super::path::path;
use super::plain::plain;
use super::refusal::Refusal;
use super::region::region;
use super::trial::trial;
use super::{Status, WordList};
use answer_text::fault_line;
use command_words::{Command, read_command};
use io_ends::{Sink, Source, WriteFault, read_all, write_all};
use std::alloc::{AllocError, Global};

/// The most bytes that an input may have.
pub(crate) const INPUT_LIMIT: usize = 1_048_576;

/// Runs the command that the words name on the bytes of the source, and writes its text to the sink. It has no workers, and waits for
/// nobody: `group` it refuses, as it does words that name nothing.
///
/// The words are checked before anything is read. The source is read to its end, or to one byte past the limit,
/// before the input is looked at. All output is composed before the first byte is written, and a refusal writes
/// its one line in place of it.
pub fn run_plain<S: Source, K: Sink>(
    alloc: Global,
    words: &WordList,
    source: &mut S,
    sink: &mut K,
) -> Status
    // What the words and the input settle is what is answered and written, whole, or up to where the sink failed:
    // the status and the text that the command owes the input, a failure with its line, or the refusal of the words.
    ensures outcome { (input : List ℕ) × (status : Answer) × (text : List ℕ)
        × IsInput (S.left source.old) input
        × Settles IsPlainCommand words.now input status text
        × Delivers status text result (K.taken sink.old) (K.taken sink.new) }

    // The headline: where `plain` answers Done, the input is a surface file with a base, and what was written is the report of exactly the
    // classes that crossings reach from the base, and of matrices that generate exactly the derivatives of crossing paths that return to
    // an image of the base.
    ensures headline { (flips limit : ℕ) → Names words.now (CommandValue.Plain flips limit false) → result ≡ Status.Done
        → IfSome (S.left source.old) (λ input. (written : List ℕ) × IsClosed (IsAccepted input) flips limit report_text written
        × (K.taken sink.new ≡ taken_after (K.taken sink.old) written)) }
    // Where it is asked for the summary, what was written is how many these classes and matrices are.
    ensures summary { (flips limit : ℕ) → Names words.now (CommandValue.Plain flips limit true) → result ≡ Status.Done
        → IfSome (S.left source.old) (λ input. (written : List ℕ) × IsClosed (IsAccepted input) flips limit summary_text written
        × (K.taken sink.new ≡ taken_after (K.taken sink.old) written)) }
    // `trial` writes its number and that summary, for the file of the number, whatever the source has.
    ensures trial { (flips limit number : ℕ) → Names words.now (CommandValue.Trial flips limit number) → result ≡ Status.Done
        → (written : List ℕ) × IsClosed (λ file. file ≡ family_of number) flips limit (trial_text number) written
        × (K.taken sink.new ≡ taken_after (K.taken sink.old) written) }
    // `make` writes the text of that file.
    ensures made { (number : ℕ) → Names words.now (CommandValue.Make number) → result ≡ Status.Done
        → K.taken sink.new ≡ taken_after (K.taken sink.old) (file_text (family_of number)) }

    // The other way round: where no end failed and the source tells its bytes, what the command owes the input is answered,
    // but for want of memory. A wide formula that the answer may do without needn't be answered, and may be where it is owed.
    ensures complete { (command : CommandValue) → Names words.now command → IsPlainCommand command
        → ¬ (Rose (S.faults source.old) (S.faults source.new))
        → ¬ (Rose (K.faults sink.old) (K.faults sink.new))
        → IfSome (S.left source.old) (λ input. (status : Answer) (text : List ℕ) → Owes command input status text
        → (result ≡ status) ⊎ (result ≡ Status.Memory) ⊎ IsOptional status ⊎ (IsOptional result × ((line : List ℕ) × Owes command input result line))) }
    // So `check` answers Done where the input is accepted.
    ensures accepted { Names words.now Command.Check
        → ¬ (Rose (S.faults source.old) (S.faults source.new))
        → ¬ (Rose (K.faults sink.old) (K.faults sink.new))
        → IfSome (S.left source.old) (λ input. (file : Content) → IsAccepted input file
        → (result ≡ Status.Done) ⊎ (result ≡ Status.Memory)) }

    // `make` and `trial` need no source for it: what they owe, they owe whatever the input.
    ensures complete_unread { (command : CommandValue) → Names words.now command → ¬ (ReadsInput command)
        → ¬ (Rose (K.faults sink.old) (K.faults sink.new))
        → (input : List ℕ) (status : Answer) (text : List ℕ) → Owes command input status text
        → (result ≡ status) ⊎ (result ≡ Status.Memory) ⊎ IsOptional status ⊎ (IsOptional result × ((line : List ℕ) × Owes command input result line)) }
    // So `make` answers Done.
    ensures makes { (number : ℕ) → Names words.now (CommandValue.Make number)
        → ¬ (Rose (K.faults sink.old) (K.faults sink.new))
        → (result ≡ Status.Done) ⊎ (result ≡ Status.Memory) }

    // Words outside the grammar are refused as such, and so are those that name `group`. Then nothing is read.
    ensures words { NameOne IsPlainCommand words.now → ¬ (result ≡ Status.Words) }
    ensures refused { ¬ (AreTaken words.now) → (result ≡ Status.Words) ⊎ (result ≡ Status.WriteFault) }
    ensures refused_group { NameGroup words.now → (result ≡ Status.Words) ⊎ (result ≡ Status.WriteFault) ⊎ (result ≡ Status.Memory) }
    ensures unread { ¬ (NameOne IsPlainCommand words.now) → source.new ≡ source.old }
    // Nor do `make` and `trial` read, so they never blame the source.
    ensures unread_by_number { (command : CommandValue) → Names words.now command → ¬ (ReadsInput command)
        → (source.new ≡ source.old) × ¬ (result ≡ Status.ReadFault) }

    // What is read by the others: all of the input, or one byte past the limit, before anything is said of it.
    ensures all_read { (command : CommandValue) → Names words.now command → ReadsInput command
        → result ≡ Status.Done → S.left source.new ≡ option_map (λ _. []) (S.left source.old) }
    ensures read_whole { (command : CommandValue) → Names words.now command → ReadsInput command
        → SaysNothing result ⊎ IsReadWhole (S.left source.old) (S.left source.new) }
    ensures reads { (n : ℕ) × (n ≤ 1048577) × (S.left source.new ≡ given n (S.left source.old)) }

    // An end is blamed only where its count of faults rose.
    ensures read_fault { result ≡ Status.ReadFault → Rose (S.faults source.old) (S.faults source.new) }
    ensures write_fault { result ≡ Status.WriteFault → Rose (K.faults sink.old) (K.faults sink.new) }
    ensures source_never_falls { S.faults source.old ≤ S.faults source.new }
    ensures sink_never_falls { K.faults sink.old ≤ K.faults sink.new }
{
    reports_are_closed();
    run_words(alloc, words, source, sink)
}

/// Hands out what the words and the input settle. All that a run promises follows.
fn run_words<S: Source, K: Sink>(
    alloc: Global,
    words: &WordList,
    source: &mut S,
    sink: &mut K,
) -> Status
    ensures outcome { (input : List ℕ) × (status : Answer) × (text : List ℕ)
        × IsInput (S.left source.old) input
        × Settles IsPlainCommand words.now input status text
        × Delivers status text result (K.taken sink.old) (K.taken sink.new) }
    ensures words { NameOne IsPlainCommand words.now → ¬ (result ≡ Status.Words) }
    ensures refused { ¬ (AreTaken words.now) → (result ≡ Status.Words) ⊎ (result ≡ Status.WriteFault) }
    ensures refused_group { NameGroup words.now → (result ≡ Status.Words) ⊎ (result ≡ Status.WriteFault) ⊎ (result ≡ Status.Memory) }
    ensures unread { ¬ (NameOne IsPlainCommand words.now) → source.new ≡ source.old }
    ensures unread_by_number { (command : CommandValue) → Names words.now command → ¬ (ReadsInput command)
        → (source.new ≡ source.old) × ¬ (result ≡ Status.ReadFault) }
    ensures all_read { (command : CommandValue) → Names words.now command → ReadsInput command
        → result ≡ Status.Done → S.left source.new ≡ option_map (λ _. []) (S.left source.old) }
    ensures read_whole { (command : CommandValue) → Names words.now command → ReadsInput command
        → SaysNothing result ⊎ IsReadWhole (S.left source.old) (S.left source.new) }
    ensures reads { (n : ℕ) × (n ≤ 1048577) × (S.left source.new ≡ given n (S.left source.old)) }
    ensures read_fault { result ≡ Status.ReadFault → Rose (S.faults source.old) (S.faults source.new) }
    ensures write_fault { result ≡ Status.WriteFault → Rose (K.faults sink.old) (K.faults sink.new) }
    ensures source_never_falls { S.faults source.old ≤ S.faults source.new }
    ensures sink_never_falls { K.faults sink.old ≤ K.faults sink.new }
{
    match read_plain_command(alloc, words) {
        Ok(Some(command)) => answer(alloc, command, source, sink),
        Ok(None) => deliver(sink, Status::Words, b"fault words\n"),
        Err(AllocError) => deliver(sink, Status::Memory, b"fault memory\n"),
    }
}

/// The command that the words name, where it needs no workers: none exactly where they name no such command.
fn read_plain_command(alloc: Global, words: &WordList) -> Result<Option<Command>, AllocError>
    ensures named { IfOk result (λ found. MatchOption found (¬ (NameOne IsPlainCommand words.now)) (λ command. Names words.now command × IsPlainCommand command)) }
    ensures refused { ¬ (AreTaken words.now) → result ≡ Ok None }
{
    match read_command(alloc, words)? {
        Some(Command::Group { .. }) => Ok(None),
        found => Ok(found),
    }
}

/// Reads the input, where the command works on it, and hands out what the command says to it.
fn answer<S: Source, K: Sink>(
    alloc: Global,
    command: Command,
    source: &mut S,
    sink: &mut K,
) -> Status
    requires { IsPlainCommand command }
    ensures outcome { (input : List ℕ) × (status : Answer) × (text : List ℕ)
        × IsInput (S.left source.old) input
        × SettlesOn command input status text
        × Delivers status text result (K.taken sink.old) (K.taken sink.new) }
    ensures words { ¬ (result ≡ Status.Words) }
    ensures unread { ¬ (ReadsInput command) → (source.new ≡ source.old) × ¬ (result ≡ Status.ReadFault) }
    ensures all_read { ReadsInput command → result ≡ Status.Done → S.left source.new ≡ option_map (λ _. []) (S.left source.old) }
    ensures read_whole { ReadsInput command → SaysNothing result ⊎ IsReadWhole (S.left source.old) (S.left source.new) }
    ensures reads { (n : ℕ) × (n ≤ 1048577) × (S.left source.new ≡ given n (S.left source.old)) }
    ensures read_fault { result ≡ Status.ReadFault → Rose (S.faults source.old) (S.faults source.new) }
    ensures write_fault { result ≡ Status.WriteFault → Rose (K.faults sink.old) (K.faults sink.new) }
    ensures source_never_falls { S.faults source.old ≤ S.faults source.new }
    ensures sink_never_falls { K.faults sink.old ≤ K.faults sink.new }
{
    match settle(alloc, command, source) {
        Ok(text) => deliver(sink, Status::Done, text.as_slice()),
        Err(refusal) => refuse(alloc, sink, refusal.status),
    }
}

/// Writes the line of a refusal, or of want of memory where there is none for it.
pub(crate) fn refuse<K: Sink>(alloc: Global, sink: &mut K, status: Status) -> Status
    requires { IsRefusal status }
    ensures delivered { (settled : Answer) × ((settled ≡ status) ⊎ (settled ≡ Answer.Memory))
        × Delivers settled (status_line settled) result (K.taken sink.old) (K.taken sink.new) }
    ensures fault { result ≡ Status.WriteFault → Rose (K.faults sink.old) (K.faults sink.new) }
    ensures never_falls { K.faults sink.old ≤ K.faults sink.new }
{
    match fault_line(alloc, &status) {
        Ok(line) => deliver(sink, status, line.as_slice()),
        Err(AllocError) => deliver(sink, Status::Memory, b"fault memory\n"),
    }
}

/// What the command writes, for the input of the source where it works on it, or why there is nothing to write.
fn settle<S: Source>(alloc: Global, command: Command, source: &mut S) -> Result<Vec<u8>, Refusal>
    requires { IsPlainCommand command }
    ensures owed { IfOk result (λ text. SomeInput (S.left source.old) (λ input. Owes command input Done text.items)) }
    ensures refused { IfErr result (λ refusal. SomeInput (S.left source.old)
        (λ input. SettlesOn command input refusal.status (status_line refusal.status))) }
    ensures refusal { IfErr result (λ refusal. IsRefusal refusal.status) }
    ensures unread { ¬ (ReadsInput command) → source.new ≡ source.old }
    ensures blameless { IfErr result (λ refusal. ¬ (ReadsInput command) → ¬ (refusal.status ≡ ReadFault)) }
    ensures all_read { OnOk result (ReadsInput command → S.left source.new ≡ option_map (λ _. []) (S.left source.old)) }
    ensures read_whole { IfErr result (λ refusal. ReadsInput command → SaysNothing refusal.status ⊎ IsReadWhole (S.left source.old) (S.left source.new)) }
    ensures reads { (n : ℕ) × (n ≤ 1048577) × (S.left source.new ≡ given n (S.left source.old)) }
    ensures read_fault { IfErr result (λ refusal. refusal.status ≡ ReadFault → Rose (S.faults source.old) (S.faults source.new)) }
    ensures never_falls { S.faults source.old ≤ S.faults source.new }
{
    if !reads_input(&command) {
        return output(alloc, command, b"");
    }
    let input = read_all(alloc, source, INPUT_LIMIT)?;
    output(alloc, command, input.as_slice())
}

/// Whether a command reads the input.
fn reads_input(command: &Command) -> bool
    ensures { IsTrue result ↔ ReadsInput command.now }
{
    match command {
        Command::Make { .. } | Command::Trial { .. } => false,
        _ => true,
    }
}

/// What the command writes for an input, or why there is nothing to write.
fn output(alloc: Global, command: Command, input: &[u8]) -> Result<Vec<u8>, Refusal>
    requires input { length input.now ≤ 1048576 }
    requires plain { IsPlainCommand command }
    ensures owed { IfOk result (λ text. Owes command input.now Done text.items) }
    ensures refused { IfErr result (λ refusal. IsRefusalOf command input.now refusal.status) }
{
    match command {
        Command::Check => check(alloc, input),
        Command::Base { flips } => base(alloc, input, flips),
        Command::Region { flips } => region(alloc, input, flips),
        Command::Path { flips, choices } => path(alloc, input, flips, choices.as_slice()),
        Command::Plain {
            flips,
            limit,
            summary,
        } => plain(alloc, input, flips, limit.number(), summary),
        Command::Group { .. } => unreachable!(),
        Command::Make { number } => {
            let text = make(alloc, number.number())?;
            Ok(text)
        }
        Command::Trial {
            flips,
            limit,
            number,
        } => trial(alloc, flips, limit.number(), number.number()),
    }
}

/// Writes a text, and answers its status, or that the sink failed.
pub(crate) fn deliver<K: Sink>(sink: &mut K, status: Status, text: &[u8]) -> Status
    ensures delivered { Delivers status text.now result (K.taken sink.old) (K.taken sink.new) }
    ensures fault { result ≡ Status.WriteFault → (status ≡ Status.WriteFault) ⊎ Rose (K.faults sink.old) (K.faults sink.new) }
    ensures never_falls { K.faults sink.old ≤ K.faults sink.new }
{
    match write_all(sink, text) {
        Ok(()) => status,
        Err(WriteFault) => Status::WriteFault,
    }
}
