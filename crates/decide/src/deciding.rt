//! The decision of an inclusion.

ghost use Rattle.std.specs.Prelude.{◌≡◌, ◌≤◌, ℕ, List, IfOk, length};
ghost use Rattle.auto_core.specs.Accept.{Includes, SeparatesLasso, SeparatesWord};
ghost use Rattle.auto_core.specs.declared.parts.Lasso.{Lasso};
ghost use Rattle.cert_value.specs.WellFormed.{WellFormed};
ghost use Rattle.cert_value.specs.declared.types.YesBody.{YesBody};
ghost use Rattle.cert_value.specs.declared.types.ListBody.{ListBody};
ghost use Rattle.cert_value.specs.declared.types.Body.TheVariants as body;
ghost use Rattle.decide.specs.Answer.{IsAnswer, HasFewParts};
ghost use Rattle.decide.specs.Terms.{AreBounded, terms_of_version_1, terms_of_version_2};
ghost use Rattle.cert_check.specs.Laws.{IsValid};
ghost use Rattle.decide.specs.Laws.{StandApart, ListsNew};
ghost use Rattle.decide.specs.Searches.{bound_in};

use crate::bodies::body_of;
use crate::logs::logs_of;
use crate::terms::Terms;
use auto_core::{Memory, Mode};
use ba_format::Joined;
use cert_value::Cert;
use reduce_loop::{Foresight, reduce_ahead, reduce_ordered};
use std::alloc::Global;

/// The answer by the terms: whether the second automaton accepts each lasso, in finite mode each
/// word, that the first accepts. Both are reduced, and the reduced ones are searched. The
/// certificate has a yes with the evidence of a closed set, a no with a lasso or word that separates
/// the two, or the list of limit + 1 supergraphs, in finite mode pairs of a state and a set, where
/// the limit was met. A yes and a list have the logs of both reductions.
pub fn answer(alloc: Global, pair: &Joined, terms: Terms) -> Result<Cert, Memory>
    requires first_labels { pair.now.first.labels ≡ length pair.now.labels }
    requires second_labels { pair.now.second.labels ≡ length pair.now.labels }
    requires few_labels { length pair.now.labels ≤ 512 }
    requires first_parts { HasFewParts 2048 pair.now.first }
    requires second_parts { HasFewParts 512 pair.now.second }
    requires bounded { AreBounded terms }
    requires some { 1 ≤ terms.limit }

    // The certificate is the answer: what it has to hold for the outcome of the search on the
    // reduced automata.
    ensures answer { IfOk result (IsAnswer pair.now terms) }

    // It has a text, and it is valid for the two automata: it keeps all rules of the check.
    ensures formed { IfOk result WellFormed }
    ensures valid { IfOk result (IsValid pair.now) }

    // A yes says an inclusion. Its logs lead to settled automata, and no live element of it
    // subsumes another there.
    ensures included { IfOk
        result (λ cert.
        (evidence : YesBody) → cert.body ≡ body.Yes evidence
        → Includes pair.now.first pair.now.second terms.mode) }
    ensures apart_live { IfOk
        result (λ cert.
        (evidence : YesBody) → cert.body ≡ body.Yes evidence → StandApart pair.now terms evidence) }

    // A no has a lasso that separates the two automata, in finite mode a word.
    ensures apart { IfOk
        result (λ cert.
        (lasso : Lasso) → cert.body ≡ body.NoLasso lasso
        → SeparatesLasso pair.now.first pair.now.second lasso.prefix lasso.turn) }
    ensures apart_word { IfOk
        result (λ cert.
        (word : List ℕ) → cert.body ≡ body.NoWord word
        → SeparatesWord pair.now.first pair.now.second word) }

    // The logs of a list lead to settled automata. It has limit + 1 different supergraphs of these,
    // in finite mode pairs of a state and a set, none subsumed by an earlier one.
    ensures listed { IfOk
        result (λ cert.
        (list : ListBody) → cert.body ≡ body.Listing list → ListsNew pair.now terms list) }

    // At a limit of at least the bound on different ones of the two automata no list comes.
    ensures no_list { bound_in terms.mode pair.now.first.states pair.now.second.states ≤ terms.limit
        → IfOk result (λ cert. (list : ListBody) → cert.body ≡ body.Listing list → ⊥) }
{
    let first_states = pair.first.states();
    let second_states = pair.second.states();
    let sight = Foresight {
        look: terms.look,
        letters: terms.letters,
    };
    let first = reduce_ahead(alloc, &pair.first, terms.mode, terms.look, terms.letters)?;
    let second = reduce_ordered(alloc, &pair.second, terms.mode, sight)?;
    let logs = logs_of(alloc, first.log.as_slice(), second.log.as_slice())?;
    Ok(Cert {
        version: terms.version,
        mode: terms.mode,
        first_states,
        second_states,
        labels: pair.labels.count(),
        body: body_of(alloc, &first.auto, &second.auto, &second.order, terms, logs)?,
    })
}

/// The answer in version 1, by terms that ask for one letter in the delayed games.
pub fn include(
    alloc: Global,
    pair: &Joined,
    mode: Mode,
    look: u32,
    limit: u32,
) -> Result<Cert, Memory>
    requires first_labels { pair.now.first.labels ≡ length pair.now.labels }
    requires second_labels { pair.now.second.labels ≡ length pair.now.labels }
    requires few_labels { length pair.now.labels ≤ 512 }
    requires first_parts { HasFewParts 2048 pair.now.first }
    requires second_parts { HasFewParts 512 pair.now.second }
    requires look_from { 1 ≤ look }
    requires look_upto { look ≤ 6 }
    requires some { 1 ≤ limit }
    requires few { limit ≤ 100000 }

    // The certificate is the answer: what it has to hold for the outcome of the search on the
    // reduced automata.
    ensures answer { IfOk result (IsAnswer pair.now (terms_of_version_1 mode look limit)) }

    // It has a text, and it is valid for the two automata: it keeps all rules of the check.
    ensures formed { IfOk result WellFormed }
    ensures valid { IfOk result (IsValid pair.now) }

    // A yes says an inclusion. Its logs lead to settled automata, and no live element of it
    // subsumes another there.
    ensures included { IfOk
        result (λ cert.
        (evidence : YesBody) → cert.body ≡ body.Yes evidence
        → Includes pair.now.first pair.now.second mode) }
    ensures apart_live { IfOk
        result (λ cert.
        (evidence : YesBody) → cert.body ≡ body.Yes evidence
        → StandApart pair.now (terms_of_version_1 mode look limit) evidence) }

    // A no has a lasso that separates the two automata, in finite mode a word.
    ensures apart { IfOk
        result (λ cert.
        (lasso : Lasso) → cert.body ≡ body.NoLasso lasso
        → SeparatesLasso pair.now.first pair.now.second lasso.prefix lasso.turn) }
    ensures apart_word { IfOk
        result (λ cert.
        (word : List ℕ) → cert.body ≡ body.NoWord word
        → SeparatesWord pair.now.first pair.now.second word) }

    // The logs of a list lead to settled automata. It has limit + 1 different supergraphs of these,
    // in finite mode pairs of a state and a set, none subsumed by an earlier one.
    ensures listed { IfOk
        result (λ cert.
        (list : ListBody) → cert.body ≡ body.Listing list
        → ListsNew pair.now (terms_of_version_1 mode look limit) list) }

    // At a limit of at least the bound on different ones of the two automata no list comes.
    ensures no_list { bound_in mode pair.now.first.states pair.now.second.states ≤ limit
        → IfOk result (λ cert. (list : ListBody) → cert.body ≡ body.Listing list → ⊥) }
{
    answer(
        alloc,
        pair,
        Terms {
            mode,
            look,
            letters: 1,
            version: 1,
            limit,
        },
    )
}

/// The answer in version 2, by terms that ask for so many letters in the delayed games.
pub fn include_ahead(
    alloc: Global,
    pair: &Joined,
    mode: Mode,
    look: u32,
    letters: u32,
    limit: u32,
) -> Result<Cert, Memory>
    requires first_labels { pair.now.first.labels ≡ length pair.now.labels }
    requires second_labels { pair.now.second.labels ≡ length pair.now.labels }
    requires few_labels { length pair.now.labels ≤ 512 }
    requires first_parts { HasFewParts 2048 pair.now.first }
    requires second_parts { HasFewParts 512 pair.now.second }
    requires look_from { 1 ≤ look }
    requires look_upto { look ≤ 6 }
    requires letters_from { 1 ≤ letters }
    requires letters_upto { letters ≤ 4 }
    requires some { 1 ≤ limit }
    requires few { limit ≤ 100000 }

    // The certificate is the answer: what it has to hold for the outcome of the search on the
    // reduced automata.
    ensures answer { IfOk result (IsAnswer pair.now (terms_of_version_2 mode look letters limit)) }

    // It has a text, and it is valid for the two automata: it keeps all rules of the check.
    ensures formed { IfOk result WellFormed }
    ensures valid { IfOk result (IsValid pair.now) }

    // A yes says an inclusion. Its logs lead to settled automata, and no live element of it
    // subsumes another there.
    ensures included { IfOk
        result (λ cert.
        (evidence : YesBody) → cert.body ≡ body.Yes evidence
        → Includes pair.now.first pair.now.second mode) }
    ensures apart_live { IfOk
        result (λ cert.
        (evidence : YesBody) → cert.body ≡ body.Yes evidence
        → StandApart pair.now (terms_of_version_2 mode look letters limit) evidence) }

    // A no has a lasso that separates the two automata, in finite mode a word.
    ensures apart { IfOk
        result (λ cert.
        (lasso : Lasso) → cert.body ≡ body.NoLasso lasso
        → SeparatesLasso pair.now.first pair.now.second lasso.prefix lasso.turn) }
    ensures apart_word { IfOk
        result (λ cert.
        (word : List ℕ) → cert.body ≡ body.NoWord word
        → SeparatesWord pair.now.first pair.now.second word) }

    // The logs of a list lead to settled automata. It has limit + 1 different supergraphs of these,
    // in finite mode pairs of a state and a set, none subsumed by an earlier one.
    ensures listed { IfOk
        result (λ cert.
        (list : ListBody) → cert.body ≡ body.Listing list
        → ListsNew pair.now (terms_of_version_2 mode look letters limit) list) }

    // At a limit of at least the bound on different ones of the two automata no list comes.
    ensures no_list { bound_in mode pair.now.first.states pair.now.second.states ≤ limit
        → IfOk result (λ cert. (list : ListBody) → cert.body ≡ body.Listing list → ⊥) }
{
    answer(
        alloc,
        pair,
        Terms {
            mode,
            look,
            letters,
            version: 2,
            limit,
        },
    )
}
