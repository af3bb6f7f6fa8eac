//! From the words to the question.

ghost use Rattle.std.specs.Prelude.{◌≡◌, ◌∷◌, IfOk, IfSome, codes, map, option_map};
ghost use Rattle.std.specs.List.{list_any};
ghost use Rattle.std.specs.String.{string_bytes};
ghost use Rattle.clap.specs.Words.{first_of, found_of, rows_of, subcommand_rows_of};
ghost use Rattle.rabit_words.specs.Question.{told, mode_by, look_in, limit_in, letters_in, letters_named_in, IsProper, number_at, asks_include, asks_check, asks_reduce, asks_drill, asks_upgrade, asks_cross, asks_cross_check, asks_equal, asks_batch, asks_union, asks_intersect, asks_shrink, names_differ, asks_empty, asks_universal, asks_by_later, asks_by, asks_found, asks_on_line, is_help_option, starts_with_help, has_help_word, question_of};

use crate::command::rabit;
use crate::number::{number_between, number_if_named, number_or};
use crate::parts::{Question, USUAL_LETTERS, USUAL_LIMIT, USUAL_LOOK};
use auto_core::{Memory, Mode};
use clap::ArgMatches;
use clap::error::ErrorKind;
use std::alloc::Global;

/// The word that stands for the argument, if one does.
fn word_of<'a>(found: &ArgMatches<'a>, id: &str) -> Option<&'a str>
    ensures { option_map (λ word. word.now) result
        ≡ first_of id.now (rows_of (found_of found.now)) }
{
    found.get_str(id)
}

/// The mode, by what stands for `--finite`.
fn mode_of(found: &ArgMatches<'_>) -> Mode
    ensures { result ≡ mode_by (first_of (codes "finite") (rows_of (found_of found.now))) }
{
    match word_of(found, "finite") {
        None => Mode::Buchi,
        Some(text) => {
            if text == "true" {
                Mode::Finite
            } else {
                Mode::Buchi
            }
        },
    }
}

/// The number in this place, from `low` to `high`.
fn number_at(found: &ArgMatches<'_>, id: &str, low: u32, high: u32) -> Option<u32>
    ensures { result ≡ number_at id.now low high (rows_of (found_of found.now)) }
{
    match word_of(found, id) {
        None => None,
        Some(text) => number_between(text, low, high),
    }
}

/// A name of its own, with these bytes.
fn named(alloc: Global, text: &str) -> Result<String, Memory>
    ensures { IfOk result (λ name. string_bytes name ≡ text.now) }
{
    Ok(String::from_str(alloc, text)?)
}

/// Two names of their own, with these bytes.
fn two_named(alloc: Global, first: &str, second: &str) -> Result<(String, String), Memory>
    ensures { IfOk
        result
        (λ names. (string_bytes names.0 ≡ first.now) × (string_bytes names.1 ≡ second.now)) }
{
    let first = named(alloc, first)?;
    match named(alloc, second) {
        Ok(second) => Ok((first, second)),
        Err(refused) => {
            drop(first);
            Err(refused)
        }
    }
}

/// Three names of their own, with these bytes.
fn three_named(
    alloc: Global,
    first: &str,
    second: &str,
    third: &str,
) -> Result<(String, String, String), Memory>
    ensures { IfOk
        result
        (λ names. (string_bytes names.0 ≡ first.now) × (string_bytes names.1 ≡ second.now)
        × (string_bytes names.2 ≡ third.now)) }
{
    let third = named(alloc, third)?;
    match two_named(alloc, first, second) {
        Ok((first, second)) => Ok((first, second, third)),
        Err(refused) => {
            drop(third);
            Err(refused)
        }
    }
}

/// Four names of their own, with these bytes.
fn four_named(
    alloc: Global,
    first: &str,
    second: &str,
    third: &str,
    fourth: &str,
) -> Result<(String, String, String, String), Memory>
    ensures { IfOk
        result
        (λ names. (string_bytes names.0 ≡ first.now) × (string_bytes names.1 ≡ second.now)
        × (string_bytes names.2 ≡ third.now) × (string_bytes names.3 ≡ fourth.now)) }
{
    let (third, fourth) = two_named(alloc, third, fourth)?;
    match two_named(alloc, first, second) {
        Ok((first, second)) => Ok((first, second, third, fourth)),
        Err(refused) => {
            drop(third);
            drop(fourth);
            Err(refused)
        }
    }
}

/// What stands for the lookahead of a reduction.
fn look_of(found: &ArgMatches<'_>) -> Option<u32>
    ensures { result ≡ look_in (rows_of (found_of found.now)) }
{
    number_or(word_of(found, "look"), USUAL_LOOK, 1, 6)
}

/// What stands for the limit of a search.
fn limit_of(found: &ArgMatches<'_>) -> Option<u32>
    ensures { result ≡ limit_in (rows_of (found_of found.now)) }
{
    number_or(word_of(found, "limit"), USUAL_LIMIT, 1, 100_000)
}

/// How many letters are asked for in a reduction.
fn letters_of(found: &ArgMatches<'_>) -> Option<u32>
    ensures { result ≡ letters_in (rows_of (found_of found.now)) }
{
    number_or(word_of(found, "letters"), USUAL_LETTERS, 1, 4)
}

/// How many letters are asked for in an inclusion, if they are named.
fn letters_named_of(found: &ArgMatches<'_>) -> Option<Option<u32>>
    ensures { result ≡ letters_named_in (rows_of (found_of found.now)) }
{
    number_if_named(word_of(found, "letters"), 1, 4)
}

/// What is asked where these stand in the places of `include`.
fn include_in(alloc: Global, found: &ArgMatches<'_>) -> Result<Option<Question>, Memory>
    ensures { IfOk
        result (λ asked. option_map told asked ≡ asks_include (rows_of (found_of found.now))) }
{
    let Some(first) = word_of(found, "A") else {
        return Ok(None);
    };
    let Some(second) = word_of(found, "B") else {
        return Ok(None);
    };
    let Some(certificate) = word_of(found, "CERT") else {
        return Ok(None);
    };
    let Some(look) = look_of(found) else {
        return Ok(None);
    };
    let Some(limit) = limit_of(found) else {
        return Ok(None);
    };
    let Some(letters) = letters_named_of(found) else {
        return Ok(None);
    };
    let mode = mode_of(found);
    let (first, second, certificate) = three_named(alloc, first, second, certificate)?;
    Ok(Some(Question::Include {
        first,
        second,
        certificate,
        mode,
        look,
        limit,
        letters,
    }))
}

/// What is asked where these stand in the places of `check`.
fn check_in(alloc: Global, found: &ArgMatches<'_>) -> Result<Option<Question>, Memory>
    ensures { IfOk
        result (λ asked. option_map told asked ≡ asks_check (rows_of (found_of found.now))) }
{
    let Some(first) = word_of(found, "A") else {
        return Ok(None);
    };
    let Some(second) = word_of(found, "B") else {
        return Ok(None);
    };
    let Some(certificate) = word_of(found, "CERT") else {
        return Ok(None);
    };
    let (first, second, certificate) = three_named(alloc, first, second, certificate)?;
    Ok(Some(Question::Check {
        first,
        second,
        certificate,
    }))
}

/// What is asked where these stand in the places of `reduce`.
fn reduce_in(alloc: Global, found: &ArgMatches<'_>) -> Result<Option<Question>, Memory>
    ensures { IfOk
        result (λ asked. option_map told asked ≡ asks_reduce (rows_of (found_of found.now))) }
{
    let Some(name) = word_of(found, "A") else {
        return Ok(None);
    };
    let Some(look) = look_of(found) else {
        return Ok(None);
    };
    let Some(letters) = letters_of(found) else {
        return Ok(None);
    };
    let mode = mode_of(found);
    Ok(Some(Question::Reduce {
        name: named(alloc, name)?,
        mode,
        look,
        letters,
    }))
}

/// What is asked where these stand in the places of `drill`.
fn drill_in(found: &ArgMatches<'_>) -> Option<Question>
    ensures { option_map told result ≡ asks_drill (rows_of (found_of found.now)) }
{
    let Some(seed) = number_at(found, "SEED", 0, 4_294_967_295) else {
        return None;
    };
    let Some(states) = number_at(found, "STATES", 2, 512) else {
        return None;
    };
    let Some(labels) = number_at(found, "LABELS", 1, 26) else {
        return None;
    };
    Some(Question::Drill {
        seed,
        states,
        labels,
    })
}

/// What is asked where these stand in the places of `upgrade`.
fn upgrade_in(alloc: Global, found: &ArgMatches<'_>) -> Result<Option<Question>, Memory>
    ensures { IfOk
        result (λ asked. option_map told asked ≡ asks_upgrade (rows_of (found_of found.now))) }
{
    let Some(certificate) = word_of(found, "CERT") else {
        return Ok(None);
    };
    let Some(upgraded) = word_of(found, "OUT") else {
        return Ok(None);
    };
    let (certificate, upgraded) = two_named(alloc, certificate, upgraded)?;
    Ok(Some(Question::Upgrade {
        certificate,
        upgraded,
    }))
}

/// What is asked where these stand in the places of `cross`.
fn cross_in(alloc: Global, found: &ArgMatches<'_>) -> Result<Option<Question>, Memory>
    ensures { IfOk
        result (λ asked. option_map told asked ≡ asks_cross (rows_of (found_of found.now))) }
{
    let Some(first) = word_of(found, "A") else {
        return Ok(None);
    };
    let Some(second) = word_of(found, "B") else {
        return Ok(None);
    };
    let Some(relation) = word_of(found, "OUT") else {
        return Ok(None);
    };
    let Some(look) = look_of(found) else {
        return Ok(None);
    };
    let (first, second, relation) = three_named(alloc, first, second, relation)?;
    Ok(Some(Question::Cross {
        first,
        second,
        relation,
        look,
    }))
}

/// What is asked where these stand in the places of `cross-check`.
fn cross_check_in(alloc: Global, found: &ArgMatches<'_>) -> Result<Option<Question>, Memory>
    ensures { IfOk
        result (λ asked. option_map told asked ≡ asks_cross_check (rows_of (found_of found.now))) }
{
    let Some(first) = word_of(found, "A") else {
        return Ok(None);
    };
    let Some(second) = word_of(found, "B") else {
        return Ok(None);
    };
    let Some(relation) = word_of(found, "FILE") else {
        return Ok(None);
    };
    let (first, second, relation) = three_named(alloc, first, second, relation)?;
    Ok(Some(Question::CrossCheck {
        first,
        second,
        relation,
    }))
}

/// What is asked where these stand in the places of `equal`.
fn equal_in(alloc: Global, found: &ArgMatches<'_>) -> Result<Option<Question>, Memory>
    ensures { IfOk
        result (λ asked. option_map told asked ≡ asks_equal (rows_of (found_of found.now))) }
{
    let Some(first) = word_of(found, "A") else {
        return Ok(None);
    };
    let Some(second) = word_of(found, "B") else {
        return Ok(None);
    };
    let Some(certificate) = word_of(found, "C1") else {
        return Ok(None);
    };
    let Some(converse) = word_of(found, "C2") else {
        return Ok(None);
    };
    if certificate == converse {
        return Ok(None);
    }
    let (first, second, certificate, converse) = four_named(
        alloc,
        first,
        second,
        certificate,
        converse,
    )?;
    Ok(Some(Question::Equal {
        first,
        second,
        certificate,
        converse,
    }))
}

/// What is asked where this stands in the place of `batch`.
fn batch_in(alloc: Global, found: &ArgMatches<'_>) -> Result<Option<Question>, Memory>
    ensures { IfOk
        result (λ asked. option_map told asked ≡ asks_batch (rows_of (found_of found.now))) }
{
    let Some(list) = word_of(found, "LIST") else {
        return Ok(None);
    };
    Ok(Some(Question::Batch {
        list: named(alloc, list)?,
    }))
}

/// What is asked where these stand in the places of `union`.
fn union_in(alloc: Global, found: &ArgMatches<'_>) -> Result<Option<Question>, Memory>
    ensures { IfOk
        result (λ asked. option_map told asked ≡ asks_union (rows_of (found_of found.now))) }
{
    let Some(first) = word_of(found, "A") else {
        return Ok(None);
    };
    let Some(second) = word_of(found, "B") else {
        return Ok(None);
    };
    let mode = mode_of(found);
    let (first, second) = two_named(alloc, first, second)?;
    Ok(Some(Question::Union {
        first,
        second,
        mode,
    }))
}

/// What is asked where these stand in the places of `intersect`.
fn intersect_in(alloc: Global, found: &ArgMatches<'_>) -> Result<Option<Question>, Memory>
    ensures { IfOk
        result (λ asked. option_map told asked ≡ asks_intersect (rows_of (found_of found.now))) }
{
    let Some(first) = word_of(found, "A") else {
        return Ok(None);
    };
    let Some(second) = word_of(found, "B") else {
        return Ok(None);
    };
    let mode = mode_of(found);
    let (first, second) = two_named(alloc, first, second)?;
    Ok(Some(Question::Intersect {
        first,
        second,
        mode,
    }))
}

/// What is asked where these stand in the places of `shrink`.
fn shrink_in(alloc: Global, found: &ArgMatches<'_>) -> Result<Option<Question>, Memory>
    ensures { IfOk
        result (λ asked. option_map told asked ≡ asks_shrink (rows_of (found_of found.now))) }
{
    let Some(first) = word_of(found, "A") else {
        return Ok(None);
    };
    let Some(second) = word_of(found, "B") else {
        return Ok(None);
    };
    let Some(certificate) = word_of(found, "CERT") else {
        return Ok(None);
    };
    let Some(shorter) = word_of(found, "OUT") else {
        return Ok(None);
    };
    let (first, second, certificate, shorter) = four_named(
        alloc,
        first,
        second,
        certificate,
        shorter,
    )?;
    Ok(Some(Question::Shrink {
        first,
        second,
        certificate,
        shorter,
    }))
}

/// Whether the three names differ.
fn names_differ(first: &str, second: &str, third: &str) -> bool
    ensures { result ≡ names_differ first.now second.now third.now }
{
    first != second && (first != third && second != third)
}

/// What is asked where these stand in the places of `empty`.
fn empty_in(alloc: Global, found: &ArgMatches<'_>) -> Result<Option<Question>, Memory>
    ensures { IfOk
        result (λ asked. option_map told asked ≡ asks_empty (rows_of (found_of found.now))) }
{
    let Some(automaton) = word_of(found, "A") else {
        return Ok(None);
    };
    let Some(made) = word_of(found, "E") else {
        return Ok(None);
    };
    let Some(certificate) = word_of(found, "CERT") else {
        return Ok(None);
    };
    if !names_differ(automaton, made, certificate) {
        return Ok(None);
    }
    let mode = mode_of(found);
    let (automaton, made, certificate) = three_named(alloc, automaton, made, certificate)?;
    Ok(Some(Question::Empty {
        automaton,
        made,
        certificate,
        mode,
    }))
}

/// What is asked where these stand in the places of `universal`.
fn universal_in(alloc: Global, found: &ArgMatches<'_>) -> Result<Option<Question>, Memory>
    ensures { IfOk
        result (λ asked. option_map told asked ≡ asks_universal (rows_of (found_of found.now))) }
{
    let Some(automaton) = word_of(found, "A") else {
        return Ok(None);
    };
    let Some(made) = word_of(found, "U") else {
        return Ok(None);
    };
    let Some(certificate) = word_of(found, "CERT") else {
        return Ok(None);
    };
    if !names_differ(automaton, made, certificate) {
        return Ok(None);
    }
    let mode = mode_of(found);
    let (automaton, made, certificate) = three_named(alloc, automaton, made, certificate)?;
    Ok(Some(Question::Universal {
        automaton,
        made,
        certificate,
        mode,
    }))
}

/// What is asked by the subcommand of this name, if it is one of the last seven.
fn asked_by_later(
    alloc: Global,
    name: &str,
    found: &ArgMatches<'_>,
) -> Result<Option<Question>, Memory>
    ensures { IfOk
        result (λ asked. option_map told asked ≡ asks_by_later name.now (rows_of (found_of found.now))) }
{
    if name == "equal" {
        return equal_in(alloc, found);
    }
    if name == "batch" {
        return batch_in(alloc, found);
    }
    if name == "union" {
        return union_in(alloc, found);
    }
    if name == "intersect" {
        return intersect_in(alloc, found);
    }
    if name == "shrink" {
        return shrink_in(alloc, found);
    }
    if name == "empty" {
        return empty_in(alloc, found);
    }
    if name == "universal" {
        return universal_in(alloc, found);
    }
    Ok(None)
}

/// What is asked by the subcommand of this name.
fn asked_by(alloc: Global, name: &str, found: &ArgMatches<'_>) -> Result<Option<Question>, Memory>
    ensures { IfOk
        result (λ asked. option_map told asked ≡ asks_by name.now (rows_of (found_of found.now))) }
{
    if name == "include" {
        return include_in(alloc, found);
    }
    if name == "check" {
        return check_in(alloc, found);
    }
    if name == "reduce" {
        return reduce_in(alloc, found);
    }
    if name == "drill" {
        return Ok(drill_in(found));
    }
    if name == "upgrade" {
        return upgrade_in(alloc, found);
    }
    if name == "cross" {
        return cross_in(alloc, found);
    }
    if name == "cross-check" {
        return cross_check_in(alloc, found);
    }
    asked_by_later(alloc, name, found)
}

/// What is asked by the subcommand that the matches have, if they have one.
fn asked_in(alloc: Global, matches: &ArgMatches<'_>) -> Result<Option<Question>, Memory>
    ensures { IfOk
        result (λ asked. option_map told asked ≡ asks_found (subcommand_rows_of matches.now)) }
{
    match matches.subcommand() {
        Some((name, found)) => asked_by(alloc, name, found),
        None => Ok(None),
    }
}

/// What the whole command line asks.
fn asked_on(alloc: Global, line: &[&str]) -> Result<Option<Question>, Memory>
    ensures { IfOk
        result (λ asked.
        option_map told asked ≡ asks_on_line (map (λ word. word.now) line.entry.now)) }
{
    let command = rabit(alloc)?;
    match command.try_get_matches_from(line) {
        Ok(matches) => asked_in(alloc, &matches),
        Err(error) => match error.kind() {
            ErrorKind::OutOfMemory => Err(Memory),
            _ => Ok(None),
        },
    }
}

/// Whether the word is `-h` or `--help`.
fn is_help_option(word: &str) -> bool
    ensures { result ≡ is_help_option word.now }
{
    word == "-h" || word == "--help"
}

/// Whether any word is a help option.
fn has_help_option(words: &[String]) -> bool
    ensures { result ≡ list_any (λ word. is_help_option (string_bytes word)) words.now }
{
    words.iter().any(|word| is_help_option(word.as_str()))
}

/// Whether the first word is `help`.
fn starts_with_help(words: &[String]) -> bool
    ensures { result ≡ starts_with_help (map string_bytes words.now) }
{
    match words {
        [] => false,
        [first, ..] => first.as_str() == "help",
    }
}

/// Whether the first word is `help`, or any is a help option.
fn has_help_word(words: &[String]) -> bool
    ensures { result ≡ has_help_word (map string_bytes words.now) }
{
    starts_with_help(words) || has_help_option(words)
}

/// The program's name and the words.
fn line_of<'a>(alloc: Global, words: &'a [String]) -> Result<Vec<&'a str>, Memory>
    ensures { IfOk
        result (λ line.
        map (λ word. word.now) line.items ≡ codes "rabit" ∷ map string_bytes words.entry.now) }
{
    let mut line = Vec::new(alloc);
    line.push("rabit")?;
    for word in words {
        line.push(word.as_str())?;
    }
    Ok(line)
}

/// What the words after the program's name ask, if they ask anything.
pub fn question(alloc: Global, words: &[String]) -> Result<Option<Question>, Memory>
    ensures asked { IfOk
        result (λ asked. option_map told asked ≡ question_of (map string_bytes words.now)) }
    ensures proper { IfOk result (λ asked. IfSome asked (λ q. IsProper (told q))) }
{
    if has_help_word(words) {
        return Ok(None);
    }
    let line = line_of(alloc, words)?;
    asked_on(alloc, line.as_slice())
}
