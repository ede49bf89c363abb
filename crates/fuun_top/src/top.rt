ghost use Rattle.std.specs.Prelude.{◌≡◌, ◌≢◌};
ghost use Rattle.fuun_io.specs.Counts.{Rose};
ghost use Rattle.fuun_io.specs.Written.{appended, PutsFront};
ghost use Rattle.fuun_top.specs.declared.status.InFile.{InFile as AnyFile};
ghost use Rattle.fuun_top.specs.Answer.{MayAsk, AnswersOrFails, AreGiven, Grows, IsLongAsked, IsUnmade};
ghost use Rattle.fuun_top.specs.Output.{Output, IsOutput};
ghost use Rattle.fuun_top.specs.Stages.{IsRefusal};
ghost use Rattle.fuun_top.specs.Steps.{CallTicks};
ghost use Rattle.fuun_words.specs.Requests.{request, texts};

use crate::Status;
use crate::inputs::read_inputs;
use crate::output::put_output;
use crate::request::sorted;
use fuun_base::Steps;
use fuun_io::{Folder, Sink};
use fuun_words::{WordsError, read_request};
use std::alloc::Global;
use std::sync::ledger::Ledger;

/// Does what the words ask for: reads the files that they name from the folder, and writes the output to the sink.
///
/// Words are those after the name of the program. A budget counts attempts, from 0 to 2^40.
pub fn fuun<F: Folder, S: Sink, L: Ledger>(
    alloc: Global,
    words: &[String],
    folder: &mut F,
    out: &mut S,
    steps: &mut Steps<L>,
) -> Status
    requires { MayAsk (F.allows folder.old) (request (texts words.now)) }

    // Where the plain machine has an output for the words and the files, the status is its status, or memory was
    // wanted, or a read or a write failed.
    ensures answer { (output : Output) → IsOutput (F.contents folder.old) (texts words.now) output →
        AnswersOrFails output.status result }

    // With that status its bytes were written whole, and with any other a front of them.
    ensures whole { (output : Output) → IsOutput (F.contents folder.old) (texts words.now) output →
        result ≡ output.status → S.bytes out.new ≡ appended (S.bytes out.old) output.bytes }
    ensures part { (output : Output) → IsOutput (F.contents folder.old) (texts words.now) output →
        PutsFront (S.bytes out.old) (S.bytes out.new) output.bytes }
    ensures nothing { IsRefusal result → S.bytes out.new ≡ S.bytes out.old }
    ensures unmade { IsUnmade (request (texts words.now)) result → S.bytes out.new ≡ S.bytes out.old }

    // Whatever the folder tells of its files.
    ensures grows { Grows (S.bytes out.old) (S.bytes out.new) }
    ensures usage { result ≡ Status.Usage → request (texts words.now) ≡ None }
    ensures too_long { (file : AnyFile) → result ≡ Status.InputTooLong file →
        IsLongAsked (F.contents folder.old) (request (texts words.now)) file (F.given folder.old) (F.given folder.new) }
    ensures read { result ≡ Status.Done →
        AreGiven (F.contents folder.old) (F.given folder.old) (F.given folder.new) (request (texts words.now)) }

    // Nodes of ropes are made on this counter for the start of a run, for its attempts and for a listing alone, wherever the
    // call ends; `explain` makes its own on another.
    ensures steps { CallTicks (F.contents folder.old) (request (texts words.now)) steps.old steps.new }

    // A fault is the answer exactly where one was counted.
    ensures read_fault { result ≡ Status.ReadFault → Rose (F.faults folder.old) (F.faults folder.new) }
    ensures read_kept { result ≢ Status.ReadFault → F.faults folder.new ≡ F.faults folder.old }
    ensures write_fault { result ≡ Status.WriteFault → Rose (S.faults out.old) (S.faults out.new) }
    ensures write_kept { result ≢ Status.WriteFault → S.faults out.new ≡ S.faults out.old }
{
    let asked = match read_request(alloc, words) {
        Ok(request) => sorted(request),
        Err(WordsError::Usage) => return Status::Usage,
        Err(WordsError::NoMemory) => return Status::NoMemory,
    };
    match read_inputs(alloc, folder, &asked) {
        Ok(inputs) => put_output(alloc, inputs, out, steps),
        Err(status) => status,
    }
}
