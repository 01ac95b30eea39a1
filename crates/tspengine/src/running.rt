//! The run of a command.
ghost use Rattle.std.specs.Prelude.{map, string_bytes};
ghost use Rattle.tspengine.specs.Runs.{Runs};

use crate::benching::bench;
use crate::bounding::bound;
use crate::checkbounding::checkbound;
use crate::crew::{BothPosts, Crew};
use crate::replaying::replay;
use crate::solving::solve;
use crate::statuses::Status;
use crate::touring::tour;
use crate::usage::usage;
use crate::verifying::verify;
use ports::{Desk, Gate, PlainPosts, Posts, Slots};
use resume_form::bodies_have_one_reading;
use std::alloc::Global;
use std::sync::Wait;
use std::thread::Threads;
use tspwords::{Command, WordsError, read_command, taken_words_are_given};

/// Does what the words of a command line say, of which the first is the program's name, and says how it ended.
///
/// `solve INSTANCE PROOF RESTART [--budget N] [--seed S] [--grunts K]` reads the instance, and searches from the tour that `tour` prints
/// for the same seed, until no node of its tree is open or N of them are settled. K grunts, each in a thread, work on the nodes; what
/// becomes of their reports is the worse of what `--lose`, `--twice` and `--late` say and what `posts` tells, and they pass `gate`.
/// In the first case it writes the proof that a tour is shortest, and prints `OPTIMAL` with the tour; in the second it saves to the
/// slots a body to go on from, and prints `STOPPED`.
///
/// `verify INSTANCE PROOF` reads the instance and then the proof, whoever wrote it, and prints `VERIFIED` and the length of a
/// shortest tour where the proof is accepted, and else `REFUSED` and its first refusal with the line of it.
///
/// `tour INSTANCE [--seed S]` reads the instance, and prints the text of a good tour of it: one no longer than the
/// nearest-neighbour walk, which no exchange of two steps shortens where a replacement is near. S chooses among such tours.
///
/// `bench SEED N BUDGET OUT` searches the instance of N cities that SEED draws as `solve` does, with that seed. Where no node is left
/// open it writes the proof to OUT and prints `OPTIMAL` with the length; else it writes the body to OUT and prints `STOPPED`. The
/// same words give the same text and bytes.
///
/// `replay INSTANCE TAPE [--budget N] [--grunts K]` reads the instance, and lets a boss that begins as `solve` does, with K grunts and no
/// gap, answer to the events of the tape, whoever wrote it. To each it prints a line as the tape comes, and at the end `END` with its counts,
/// or `FRAME` with the first fault of the tape and the number of its frame.
///
/// `bound INSTANCE CERT [--steps K]` reads the instance, raises duals in K steps, writes the certificate of their Held-Karp bound to
/// CERT, and prints `BOUND` with it.
///
/// `checkbound INSTANCE CERT` reads the instance and then the certificate, whoever wrote it, and prints `CHECKED` and its bound where it
/// is accepted, and else `REFUSED` and its first refusal with the line of it.
///
/// Each command has a record of how it ends, by its status (`specs/Runs.antt`); what the statuses of an answer promise stands in
/// `specs/Headline.antt` and `specs/Bounds.antt`. Where the desk or the slots do not tell what they hold, these speak of the counts of faults alone. Only
/// `solve` touches the slots.
pub fn run<R: Threads + Wait + Sync, D: Desk, L: Slots, P: Posts + Sync, G: Gate + Sync>(
    rt: &R,
    alloc: Global,
    words: &[String],
    desk: &mut D,
    slots: &mut L,
    posts: &P,
    gate: &G,
) -> Status
    ensures { Runs result (record {
      words = map string_bytes words.now;
      before = record {
        desk = D.told desk.old;
        slots = L.told slots.old;
        moments = L.past slots.old;
        read_faults = D.read_faults desk.old;
        write_faults = D.write_faults desk.old;
        store_faults = L.faults slots.old;
      };
      after = record {
        desk = D.told desk.new;
        slots = L.told slots.new;
        moments = L.past slots.new;
        read_faults = D.read_faults desk.new;
        write_faults = D.write_faults desk.new;
        store_faults = L.faults slots.new;
      };
    }) }
{
    bodies_have_one_reading();
    taken_words_are_given();
    match read_command(alloc, words) {
        Ok(Command::Solve(words)) => {
            let told = PlainPosts {
                lose: words.lose,
                twice: words.twice,
                late: words.late,
            };
            let posts = BothPosts {
                told: &told,
                handed: posts,
            };
            let crew = Crew {
                rt,
                posts: &posts,
                gate,
            };
            solve(&crew, alloc, &words, desk, slots)
        }
        Ok(Command::Verify(words)) => verify(alloc, &words, desk),
        Ok(Command::Tour(words)) => tour(alloc, &words, desk),
        Ok(Command::Bench(words)) => bench(alloc, &words, desk),
        Ok(Command::Bound(words)) => bound(alloc, &words, desk),
        Ok(Command::Checkbound(words)) => checkbound(alloc, &words, desk),
        Ok(Command::Replay(words)) => replay(alloc, &words, desk),
        Err(WordsError::Usage) => usage(desk),
        Err(WordsError::NoMemory) => Status::NoMemory,
    }
}
