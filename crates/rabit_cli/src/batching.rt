//! `batch LIST`: the questions of a list, one after the other.

ghost use Rattle.std.specs.Prelude.{◌≡◌, ◌≤◌, ◌+◌, length, true, vec_capacity, IfSome};
ghost use Rattle.shelf_io.specs.Seen.{call};
ghost use Rattle.auto_core.specs.declared.parts.Mode.TheVariants.{Buchi};
ghost use Rattle.equal_batch.specs.Questions.{is_word, is_question, line_of};
ghost use Rattle.equal_batch.specs.declared.questions.TheConstants.{MOST_LINES};
ghost use Rattle.rabit_frame.specs.Ending.{BeforeAndAfter};
ghost use Rattle.rabit_cli.specs.Include.{usual_terms, LeavesDecided};
ghost use Rattle.rabit_cli.specs.Batch.{question_request, IsQuestionStatus, ShowsQuestion, AnswersQuestion, unsaid, IsAskedOf, question_line, AreQuestions, IsCarriedEach, list_file, IsBatch};

use crate::including;
use auto_core::{List, Memory, Mode};
use equal_batch::Question;
use rabit_frame::{Ending, FileKind, Reply, Slot, Value, Work, read_alone, say};
use rabit_words::{USUAL_LIMIT, USUAL_LOOK};
use shelf_io::{Shelf, Sink};
use std::alloc::Global;
use std::str;

/// The name with these bytes.
fn name_of(bytes: &[u8]) -> &str
    requires { is_word bytes.now ≡ true }
    ensures { result.now ≡ bytes.now }
{
    match str::from_utf8(bytes) {
        Ok(name) => name,
        Err(_) => unreachable!(),
    }
}

/// A question of a list, as the command that it stands for.
#[derive(Debug, Drop)]
struct Asking<'a> {
    question: &'a Question,
}

impl<'a> Work for Asking<'a> {
    ghost request = { λ a. question_request a.question.now };

    ghost is_fit = { λ a. is_question (line_of a.question.now) ≡ true };

    fn slots(&self, alloc: Global) -> Result<List<Slot<'_>>, Memory> {
        let first = name_of(self.question.first.as_slice());
        let second = name_of(self.question.second.as_slice());
        including::slots(alloc, first, second)
    }

    fn answer(&self, alloc: Global, values: &[Value]) -> Result<Reply<'_>, Memory> {
        let terms = including::terms_named(Mode::Buchi, USUAL_LOOK, USUAL_LIMIT, None);
        including::reply(alloc, name_of(self.question.cert.as_slice()), terms, values)
    }
}

/// Carries out one question as `include` with its three names and nothing else named, says nothing,
/// and answers the status. The names are not empty, and have only bytes from 0x21 to 0x7E.
pub fn answer_one<H: Shelf>(alloc: Global, question: &Question, shelf: &mut H) -> u8
    requires { is_question (line_of question.now) ≡ true }

    // It came to an end, and this is its status: where the shelf tells its files the right one, or
    // a fault of the outside or want of memory. By the counts of calls just the files were begun
    // that the status needs, each once and in turn, and each file of the reply was put once, or up
    // to one that was refused; each fault has its count, and at 8 no file changed.
    ensures asked { IsAskedOf question.now result (H.seen shelf.old) (H.seen shelf.new) }
    ensures status { IsQuestionStatus result }

    // What a status up to 2 shows: an inclusion, a lasso that separates, or a list past the limit,
    // with the certificate's file.
    ensures shows { ShowsQuestion question.now result (H.seen shelf.old) (H.seen shelf.new) }

    // The right reply, whatever it is, has its status answered and its files written, unless a call
    // of the shelf failed or memory was refused.
    ensures exact { IfSome (H.seen shelf.old).files
        (AnswersQuestion question.now result (H.seen shelf.old) (H.seen shelf.new)) }

    // What the files are afterwards.
    ensures files { BeforeAndAfter (H.seen shelf.old).files (H.seen shelf.new).files
        (LeavesDecided question.now.first question.now.second question.now.cert (usual_terms Buchi)
        (unsaid result (H.seen shelf.old) (H.seen shelf.new))) }
{
    let asking = Asking { question };
    rabit_frame::carry_out_unsaid(alloc, &asking, shelf)
}

/// Makes the line of the question with this number. There is room for 15 bytes.
fn set_line(line: &mut Vec<u8>, number: u32, status: u8)
    requires { 15 ≤ vec_capacity line.old }
    ensures line { line.new.items ≡ question_line number status }
    ensures room { vec_capacity line.old ≤ vec_capacity line.new }
{
    let mut digits = itoa::Buffer::new();
    line.clear();
    let Ok(()) = line.extend_from_slice(digits.format(number).as_bytes()) else {
        unreachable!()
    };
    line.push_reserved(b' ');
    let Ok(()) = line.extend_from_slice(digits.format(status).as_bytes()) else {
        unreachable!()
    };
    line.push_reserved(b'\n');
}

/// Carries out the questions, the first with this number, and gives the line of each before the
/// next is begun. Answers 0, or 7 where the sink refused a line: then no further question is
/// carried out. It takes no memory of its own: the line has room for 15 bytes.
fn carry_each<H: Shelf, K: Sink>(
    alloc: Global,
    questions: &[Question],
    number: u32,
    line: &mut Vec<u8>,
    shelf: &mut H,
    out: &mut K,
) -> u8
    requires words { AreQuestions questions.now }
    requires few { number + length questions.now ≤ MOST_LINES + 1 }
    requires room { 15 ≤ vec_capacity line.old }
    ensures { IsCarriedEach number questions.now
        (call (H.seen shelf.old) (H.seen shelf.new) (K.seen out.old) (K.seen out.new) result) }
{
    match questions {
        [] => 0,
        [first, rest @ ..] => {
            let status = answer_one(alloc, first, shelf);
            set_line(line, number, status);
            match out.give(line.as_slice()) {
                Ok(()) => carry_each(alloc, rest, number + 1, line, shelf, out),
                Err(_failed) => 7,
            }
        },
    }
}

/// The list's file.
fn list_slot<'a>(name: &'a str) -> Slot<'a>
    ensures { result ≡ list_file name.entry.now }
{
    Slot {
        name,
        kind: FileKind::Questions,
    }
}

/// Reads the list, and carries out its questions one after the other.
pub fn batch<H: Shelf, K: Sink>(alloc: Global, list: &str, shelf: &mut H, out: &mut K) -> u8
    ensures { IsBatch list.now
        (call (H.seen shelf.old) (H.seen shelf.new) (K.seen out.old) (K.seen out.new) result) }
{
    match read_alone(alloc, shelf, &list_slot(list)) {
        Ok(Value::Questions(questions)) => match Vec::with_capacity(alloc, 15) {
            Ok(line) => {
                let mut line = line;
                carry_each(alloc, questions.as_slice(), 1, &mut line, shelf, out)
            },
            Err(_refused) => say(&Ending::OutOfMemory, out),
        },
        Ok(_) => unreachable!(),
        Err(ending) => say(&ending, out),
    }
}
