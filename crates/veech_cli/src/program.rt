//! The parts of `main`: the words of a command line, a run on them, and the number that the program ends with.

ghost use Rattle.std.specs.Prelude.{◌≡◌, ℕ, ◌⊎◌, List, IfSome, IfOk};
ghost use Rattle.std.specs.Process.{exit_status};
ghost use Rattle.io_ends.specs.Ends.{Rose};
ghost use Rattle.answer_text.specs.declared.status.Status.{Status as Answer};
ghost use Rattle.answer_text.specs.Statuses.{number_of};
ghost use Rattle.command_words.specs.declared.command.Command.{Command};
ghost use Rattle.command_words.specs.Commands.{Names, AreTaken};
ghost use Rattle.veech_cli.specs.Owed.{ReadsInput, Owes, IsOptional};
ghost use Rattle.veech_cli.specs.Runs.{IsCommand, Settles, Delivers, IsInput};
ghost use Rattle.veech_cli.specs.Programs.{words_given};

use super::workers::run;
use super::{Status, WordList, status_number};
use io_ends::{Gate, Sink, Source};
use std::alloc::{AllocError, Global};
use std::env::Args;
use std::io;
use std::io::ErrorKind;
use std::process::ExitCode;
use std::sync::Wait;
use std::thread::Threads;

/// Runs the command that the arguments name on the bytes of the source, writes its text to the sink, and answers with the number
/// of the status. The first argument is the program's name, and no word. Arguments that can't be had as text are no words at all,
/// which is a faulty command line too.
pub fn run_program<R: Threads + Wait + Sync, S: Source, K: Sink, G: Gate>(
    rt: &R,
    alloc: Global,
    args: io::Result<Args>,
    source: &mut S,
    sink: &mut K,
    gate: &G,
) -> ExitCode
    // What these words and the input settle is what is answered and written, by the number of the status. Or the words couldn't be
    // kept for want of memory: then nothing is read, and nothing written.
    ensures outcome { ((input : List ℕ) × (status : Answer) × (text : List ℕ) × (last : Answer)
        × IsInput (S.left source.old) input
        × Settles IsCommand (words_given args) input status text
        × Delivers status text last (K.taken sink.old) (K.taken sink.new)
        × (exit_status result ≡ number_of last))
        ⊎ ((exit_status result ≡ number_of Answer.Memory) × (source.new ≡ source.old) × (sink.new ≡ sink.old)) }
    // The other way round: where no end failed and the source tells its bytes, the number of what is owed, but for want of memory,
    // and for a wide formula that the answer may do without.
    ensures complete { (command : Command) → Names (words_given args) command
        → ¬ (Rose (S.faults source.old) (S.faults source.new))
        → ¬ (Rose (K.faults sink.old) (K.faults sink.new))
        → IfSome (S.left source.old) (λ input. (status : Answer) (text : List ℕ) → Owes command input status text
        → (exit_status result ≡ number_of status) ⊎ (exit_status result ≡ number_of Answer.Memory)
        ⊎ IsOptional status ⊎ ((last : Answer) × (line : List ℕ) × IsOptional last × Owes command input last line × (exit_status result ≡ number_of last))) }
    // `make` and `trial` need no source for it.
    ensures complete_unread { (command : Command) → Names (words_given args) command → ¬ (ReadsInput command)
        → ¬ (Rose (K.faults sink.old) (K.faults sink.new))
        → (input : List ℕ) (status : Answer) (text : List ℕ) → Owes command input status text
        → (exit_status result ≡ number_of status) ⊎ (exit_status result ≡ number_of Answer.Memory)
        ⊎ IsOptional status ⊎ ((last : Answer) × (line : List ℕ) × IsOptional last × Owes command input last line × (exit_status result ≡ number_of last)) }
    ensures words { AreTaken (words_given args) → ¬ (exit_status result ≡ number_of Answer.Words) }
    ensures unread { ¬ (AreTaken (words_given args)) → source.new ≡ source.old }
    ensures unread_by_number { (command : Command) → Names (words_given args) command → ¬ (ReadsInput command) → source.new ≡ source.old }
    // An end is blamed only where its count of faults rose.
    ensures read_fault { exit_status result ≡ number_of Answer.ReadFault → Rose (S.faults source.old) (S.faults source.new) }
    ensures write_fault { exit_status result ≡ number_of Answer.WriteFault → Rose (K.faults sink.old) (K.faults sink.new) }
{
    match words_of(alloc, args) {
        Ok(words) => {
            let status = run(rt, alloc, &words, source, sink, gate);
            exit_code(&status)
        }
        Err(AllocError) => {
            let status = Status::Memory;
            exit_code(&status)
        }
    }
}

/// The words that the arguments give, in order.
fn words_of(alloc: Global, args: io::Result<Args>) -> Result<WordList, AllocError>
    ensures { IfOk result (λ words. words ≡ words_given args) }
{
    match args {
        Ok(args) => words_after_name(alloc, args),
        Err(error) if error.kind() == ErrorKind::OutOfMemory => Err(AllocError),
        Err(_) => Ok(WordList::start(alloc)),
    }
}

/// The words behind the program's name, in order.
fn words_after_name(alloc: Global, args: Args) -> Result<WordList, AllocError>
    ensures { IfOk result (λ words. words ≡ words_given (Ok args)) }
{
    let mut args = args;
    let _name = args.next();
    let mut words = WordList::start(alloc);
    while let Some(word) = args.next() {
        words.push(alloc, word.as_str())?;
    }
    Ok(words)
}

/// How the program ends with this status.
fn exit_code(status: &Status) -> ExitCode
    ensures { exit_status result ≡ number_of status.now }
{
    ExitCode::from(status_number(status))
}
