//! The top call: a whole run of the program.
ghost use Rattle.std.specs.Prelude.{◌≡◌, ◌≢◌, ◌≤◌, ◌⊎◌, ℕ, List, Some, Ok, IsSome, IsTrue, drop, map, string_bytes};
ghost use Rattle.asp_defs.specs.Words.{Task};
ghost use Rattle.asp_defs.specs.Runs.{reads_bytes, most_read};
ghost use Rattle.asp_io.specs.Causes.{Rose};
ghost use Rattle.asp_top.specs.Commands.{served_task, refused_word};
ghost use Rattle.asp_top.specs.declared.status.Used.{Used};
ghost use Rattle.asp_top.specs.Outputs.{SaysAnswer, ShowsAnswer, BeginsAnswer, RefusesWord};
ghost use Rattle.asp_top.specs.Statuses.{is_answered, is_solved};

use crate::answer::{refuse_word, say};
use crate::reply::answer;
use crate::status::{Ended, Status};
use crate::words::command_of;
use asp_io::{ReadFault, Sink, Source};
use std::alloc::Global;

/// Runs the command that the words are, over the bytes of the source, and writes what there is to say to the sink.
///
/// The words are read before the source is touched, and all output is written at the end. A source in memory tells
/// contracts which bytes it has left; standard input tells none, and of such a source the clauses say that there are bytes
/// of which the answer is a right one.
pub fn run_single<S: Source, K: Sink>(
    alloc: Global,
    words: &[String],
    source: &mut S,
    sink: &mut K,
) -> Ended
    // Unless something fails, all that there is to say is written.
    ensures answer { IsTrue (is_answered result.status) → (bytes : List ℕ) → S.left source.old ≡ Some bytes
        → SaysAnswer (map string_bytes words.now) bytes result (K.taken sink.old) (K.taken sink.new) }

    // Whether or not the source tells its bytes, there are some of which that holds.
    ensures answer_to_some { IsTrue (is_answered result.status) → (bytes : List ℕ)
        × SaysAnswer (map string_bytes words.now) bytes result (K.taken sink.old) (K.taken sink.new) }

    // What the run solved with is handed out exactly where there is a verdict or the question stays open, and it is the
    // evidence of what is said.
    ensures used { IsTrue (is_solved result.status) → IsSome result.used }
    ensures used_only { IsSome result.used → IsTrue (is_solved result.status) }
    ensures evidence { (used : Used) → result.used ≡ Some used → (bytes : List ℕ) → S.left source.old ≡ Some bytes
        → ShowsAnswer (map string_bytes words.now) bytes result used (K.taken sink.old) (K.taken sink.new) }
    ensures evidence_of_some { (used : Used) → result.used ≡ Some used → (bytes : List ℕ)
        × ShowsAnswer (map string_bytes words.now) bytes result used (K.taken sink.old) (K.taken sink.new) }

    // Words that can't be read are refused, whatever the source is, and no others are. Out of memory is free here, but what
    // is served today reads words without any.
    ensures words_refused { (place : ℕ) → refused_word (map string_bytes words.now) ≡ Some place
        → result.status ≢ Status.Memory → RefusesWord place result.status (K.taken sink.old) (K.taken sink.new) }
    ensures words_in_place { IsSome (refused_word (map string_bytes words.now)) → result.status ≢ Status.Memory }
    ensures words_only { result.status ≡ Status.Words → IsSome (refused_word (map string_bytes words.now)) }
    ensures words_first { IsSome (refused_word (map string_bytes words.now)) → source.new ≡ source.old }

    // A fault has its cause outside, and none is passed over.
    ensures read_fault { result.status ≡ Status.Read → Rose (S.faults source.old) (S.faults source.new) }
    ensures write_fault { result.status ≡ Status.Write → Rose (K.faults sink.old) (K.faults sink.new) }
    ensures no_read_fault { result.status ≢ Status.Read → S.faults source.new ≡ S.faults source.old }
    ensures no_write_fault { result.status ≢ Status.Write → K.faults sink.new ≡ K.faults sink.old }
    ensures source_count { S.faults source.old ≤ S.faults source.new }
    ensures sink_count { K.faults sink.old ≤ K.faults sink.new }

    // For a command that works on a text the source is read to its end or to a byte more than a text may have, unless it
    // fails or memory runs out.
    ensures all_read { (task : Task) → served_task (map string_bytes words.now) ≡ Ok task → IsTrue (reads_bytes task)
        → result.status ≢ Status.Read → result.status ≢ Status.Memory → (bytes : List ℕ)
        → S.left source.old ≡ Some bytes → S.left source.new ≡ Some (drop most_read bytes) }

    // What was written where something failed.
    ensures unwritten_read { result.status ≡ Status.Read → sink.new ≡ sink.old }
    ensures unwritten_memory { result.status ≡ Status.Memory → sink.new ≡ sink.old }
    ensures part_written { result.status ≡ Status.Write → (bytes : List ℕ) → S.left source.old ≡ Some bytes
        → BeginsAnswer (map string_bytes words.now) bytes (K.taken sink.old) (K.taken sink.new) }
    ensures part_of_some { result.status ≡ Status.Write → (bytes : List ℕ)
        × BeginsAnswer (map string_bytes words.now) bytes (K.taken sink.old) (K.taken sink.new) }
{
    match command_of(words) {
        Err(place) => refuse_word(sink, place),
        Ok(command) => match answer(alloc, command, source) {
            Ok(answer) => say(sink, answer),
            Err(ReadFault::Failed) => Ended {
                status: Status::Read,
                used: None,
            },
            Err(ReadFault::NoMemory) => Ended {
                status: Status::Memory,
                used: None,
            },
        },
    }
}
