//! From the question to its files and its reply: one arm a command.

ghost use Rattle.std.specs.Prelude.{◌≡◌, ◌≢◌, [], Ok, Some, option_map, IfOk, IfSome, MatchOption};
ghost use Rattle.rabit_frame.specs.Reading.{AreOfKinds};
ghost use Rattle.rabit_words.specs.declared.parts.Question.{Question as AQuestion};
ghost use Rattle.rabit_words.specs.Question.{Batch, told, IsProper};
ghost use Rattle.rabit_cli.specs.Commands.{asked_by, IsSingle, inputs_of, outputs_of, Means, request_of};

use crate::{
    checking, cross_checking, crossing, drilling, emptiness, equality, including, intersecting,
    properties, reducing, shrinking, uniting, universality, upgrading,
};
use auto_core::{List, Memory};
use drawing::Drill;
use rabit_frame::{FIRST_LIMITS, Reply, SECOND_LIMITS, Slot, Value, Work};
use rabit_words::Question;
use reduce_loop::Foresight;
use std::alloc::Global;

/// The files that the question reads, in order.
fn slots_of<'a>(alloc: Global, question: &'a Question) -> Result<List<Slot<'a>>, Memory>
    requires single { IsSingle (Some (told question.now)) }
    ensures { IfOk result (λ slots. slots ≡ inputs_of (Some (told question.entry.now))) }
{
    match question {
        Question::Check {
            first,
            second,
            certificate,
        } => {
            return checking::slots(alloc, first.as_str(), second.as_str(), certificate.as_str());
        },
        Question::Include { first, second, .. } => {
            return including::slots(alloc, first.as_str(), second.as_str());
        },
        Question::Reduce { name, .. } => {
            return reducing::slots(alloc, name.as_str());
        },
        Question::Drill { .. } => Ok(List::new(alloc)),
        Question::Upgrade { certificate, .. } => {
            return upgrading::slots(alloc, certificate.as_str());
        },
        Question::Cross { first, second, .. } => {
            return including::slots(alloc, first.as_str(), second.as_str());
        },
        Question::CrossCheck {
            first,
            second,
            relation,
        } => {
            return cross_checking::slots(alloc, first.as_str(), second.as_str(), relation.as_str());
        },
        Question::Equal { first, second, .. } => {
            return equality::slots(alloc, first.as_str(), second.as_str());
        },
        Question::Batch { .. } => unreachable!(),
        Question::Union { first, second, .. } => {
            return including::slots(alloc, first.as_str(), second.as_str());
        },
        Question::Intersect { first, second, .. } => {
            return including::slots(alloc, first.as_str(), second.as_str());
        },
        Question::Shrink {
            first,
            second,
            certificate,
            ..
        } => {
            return checking::slots(alloc, first.as_str(), second.as_str(), certificate.as_str());
        },
        Question::Empty { automaton, .. } => {
            return properties::slots(alloc, FIRST_LIMITS, automaton.as_str());
        },
        Question::Universal { automaton, .. } => {
            return properties::slots(alloc, SECOND_LIMITS, automaton.as_str());
        },
    }
}

/// The reply to what the question's files read as, of a command that writes files.
fn writing_reply<'a>(
    alloc: Global,
    question: &'a Question,
    values: &[Value],
) -> Result<Reply<'a>, Memory>
    requires proper { IsProper (told question.now) }
    requires writes { outputs_of (Some (told question.now)) ≢ [] }
    requires kinds { AreOfKinds (inputs_of (Some (told question.now))) values.now }
    ensures { IfOk result (Means (Some (told question.entry.now)) values.now) }
{
    match question {
        Question::Include {
            certificate,
            mode,
            look,
            limit,
            letters,
            ..
        } => {
            let terms = including::terms_named(*mode, *look, *limit, *letters);
            return including::reply(alloc, certificate.as_str(), terms, values);
        },
        Question::Upgrade { upgraded, .. } => {
            return upgrading::reply(alloc, upgraded.as_str(), values);
        },
        Question::Cross { relation, look, .. } => {
            return crossing::reply(alloc, relation.as_str(), *look, values);
        },
        Question::Equal {
            certificate,
            converse,
            ..
        } => {
            return equality::reply(alloc, certificate.as_str(), converse.as_str(), values);
        },
        Question::Shrink { shorter, .. } => {
            return shrinking::reply(alloc, shorter.as_str(), values);
        },
        Question::Empty {
            made,
            certificate,
            mode,
            ..
        } => {
            return emptiness::reply(alloc, made.as_str(), certificate.as_str(), *mode, values);
        },
        Question::Universal {
            made,
            certificate,
            mode,
            ..
        } => {
            return universality::reply(alloc, made.as_str(), certificate.as_str(), *mode, values);
        },
        _ => unreachable!(),
    }
}

/// The reply to what the question's files read as.
fn reply_to<'a>(
    alloc: Global,
    question: &'a Question,
    values: &[Value],
) -> Result<Reply<'a>, Memory>
    requires proper { IsProper (told question.now) }
    requires single { IsSingle (Some (told question.now)) }
    requires kinds { AreOfKinds (inputs_of (Some (told question.now))) values.now }
    ensures { IfOk result (Means (Some (told question.entry.now)) values.now) }
{
    match question {
        Question::Check { .. } => {
            return checking::reply(alloc, values);
        },
        Question::Reduce {
            mode,
            look,
            letters,
            ..
        } => {
            let sight = Foresight {
                look: *look,
                letters: *letters,
            };
            return reducing::reply(alloc, *mode, sight, values);
        },
        Question::Drill {
            seed,
            states,
            labels,
        } => {
            let drill = Drill {
                seed: *seed,
                states: *states,
                labels: *labels,
            };
            return drilling::reply(alloc, drill);
        },
        Question::CrossCheck { .. } => {
            return cross_checking::reply(alloc, values);
        },
        Question::Batch { .. } => unreachable!(),
        Question::Union { mode, .. } => {
            return uniting::reply(alloc, *mode, values);
        },
        Question::Intersect { mode, .. } => {
            return intersecting::reply(alloc, *mode, values);
        },
        _ => {
            return writing_reply(alloc, question, values);
        },
    }
}

/// The words, and the question that was found in them, unless memory was refused.
#[derive(Debug, Drop)]
pub struct Command<'a> {
    /// The words after the program's name.
    pub words: &'a [String],
    /// What they ask, if anything.
    pub asked: Result<Option<Question>, Memory>,
}

impl<'a> Command<'a> {
    /// The list that is asked about, if a batch is asked.
    pub fn list(&self) -> Option<&str>
        ensures { MatchOption result
            (IfOk self.now.asked (λ asked. IfSome asked (λ q. IsSingle (Some (told q)))))
            (λ list. (question : AQuestion) × (self.now.asked ≡ Ok (Some question)) × (told question ≡ Batch list.now)) }
    {
        match &self.asked {
            Ok(Some(Question::Batch { list })) => Some(list.as_str()),
            _ => None,
        }
    }
}

impl<'a> Work for Command<'a> {
    ghost request = { λ c. request_of (asked_by c.words.now) };

    ghost is_fit = { λ c.
        IfOk c.asked (λ asked.
        (option_map told asked ≡ asked_by c.words.now)
        × IfSome asked (λ q. IsProper (told q) × IsSingle (Some (told q)))) };

    fn slots(&self, alloc: Global) -> Result<List<Slot<'_>>, Memory> {
        match &self.asked {
            Ok(Some(question)) => {
                return slots_of(alloc, question);
            },
            Ok(None) => Ok(List::new(alloc)),
            Err(_refused) => Err(Memory),
        }
    }

    fn answer(&self, alloc: Global, values: &[Value]) -> Result<Reply<'_>, Memory> {
        match &self.asked {
            Ok(Some(question)) => {
                return reply_to(alloc, question, values);
            },
            Ok(None) => {
                return rabit_frame::usage(alloc);
            },
            Err(_refused) => {
                return Err(Memory);
            },
        }
    }
}
