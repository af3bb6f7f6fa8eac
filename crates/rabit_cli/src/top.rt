//! The top call: what the words ask is carried out.

ghost use Rattle.shelf_io.specs.Seen.{call};
ghost use Rattle.rabit_frame.specs.Carrying.{IsCarriedOut, TellsFaults, MakesCalls, SaysUsage};
ghost use Rattle.rabit_frame.specs.Printed.{usage_text};
ghost use Rattle.rabit_cli.specs.Batch.{IsBatch};
ghost use Rattle.rabit_cli.specs.Complete.{AnswersWhatReads};
ghost use Rattle.rabit_cli.specs.Commands.{asked_by, IfSingle, IfBatch, Shows, LeavesFiles};

use crate::batching::batch;
use crate::commands::Command;
use rabit_frame::carry_out;
use rabit_words::question;
use shelf_io::{Shelf, Sink};
use std::alloc::Global;

/// Does what the words after the program's name ask, and answers the program's status.
pub fn run<H: Shelf, K: Sink>(alloc: Global, words: &[String], shelf: &mut H, out: &mut K) -> u8
    // A single question comes to one end, which is said: the right reply for the shelf's files, a
    // fault of the outside, or want of memory.
    ensures carried { IfSingle (asked_by words.now) (λ q. IsCarriedOut q
        (call (H.seen shelf.old) (H.seen shelf.new) (K.seen out.old) (K.seen out.new) result)) }

    // A failed read comes to status 6, a failed put or give to 7, want of memory to 8: which count
    // of the outside rose, what is then said, and what is left.
    ensures faults { IfSingle (asked_by words.now) (λ q. TellsFaults q
        (call (H.seen shelf.old) (H.seen shelf.new) (K.seen out.old) (K.seen out.new) result)) }

    // By the counts of calls: just the files are begun that the status needs, each once and in
    // turn; each file of the reply is put once, or up to one that is refused; and all text is one
    // give.
    ensures calls { IfSingle (asked_by words.now) (λ q. MakesCalls q
        (call (H.seen shelf.old) (H.seen shelf.new) (K.seen out.old) (K.seen out.new) result)) }

    // Words that ask nothing: how the program is used is said, at status 3, which nothing else has;
    // or want of memory is.
    ensures usage { SaysUsage usage_text (asked_by words.now)
        (call (H.seen shelf.old) (H.seen shelf.new) (K.seen out.old) (K.seen out.new) result) }

    // What a status up to 2 shows, command by command: an inclusion, a lasso that separates, a list
    // past the limit, a reduced automaton, a certificate in version 2, a cross relation, two
    // automata that accept the same, a union, an intersection, what is left of a no, an automaton
    // that accepts nothing or everything, or what shows that it does not; and what a drill says,
    // whatever the shelf.
    ensures shows { Shows (asked_by words.now)
        (call (H.seen shelf.old) (H.seen shelf.new) (K.seen out.old) (K.seen out.new) result) }

    // A question whose automata all read is answered by a result of its command, unless a count of
    // the outside rose or memory was refused. With
    // `carried` and the law `answers_are_accepted` a check of an answer's file has the verdict of
    // the answer, and with the law
    // `cross_relations_are_accepted` so has `cross-check` of a cross relation's.
    ensures complete { AnswersWhatReads (asked_by words.now)
        (call (H.seen shelf.old) (H.seen shelf.new) (K.seen out.old) (K.seen out.new) result) }

    // What the shelf holds afterwards: only `include`, `upgrade`, `cross`, `equal` and `shrink`
    // write, and only the files of certificates or of the cross relation, and `empty` and
    // `universal` that of the automaton that they make too.
    ensures leaves { LeavesFiles (asked_by words.now)
        (call (H.seen shelf.old) (H.seen shelf.new) (K.seen out.old) (K.seen out.new) result) }

    // A batch: none of its questions is carried out, and why is said; or each is in its turn, on
    // the files that the one before it left, and its line given before the next begins. The law
    // `questions_show_in_turn` tells what a status up to 2 of a line shows.
    ensures batch { IfBatch (asked_by words.now) (λ list. IsBatch list
        (call (H.seen shelf.old) (H.seen shelf.new) (K.seen out.old) (K.seen out.new) result)) }
{
    let command = Command {
        words,
        asked: question(alloc, words),
    };
    match command.list() {
        Some(list) => batch(alloc, list, shelf, out),
        None => carry_out(alloc, &command, shelf, out),
    }
}
