//! The program's command, as `clap` has it.

ghost use Rattle.std.specs.Prelude.{◌≡◌, false, codes, IfOk};
ghost use Rattle.clap.specs.Words.{App, new_app, rule_of, app_of, with_rule, with_subcommand};
ghost use Rattle.clap.specs.declared.builder.command.Command.TheViews.{out-Command};
ghost use Rattle.rabit_words.specs.Command.{place, option_with_word, option_alone, two_files_app, three_files_app, include_app, check_app, reduce_app, drill_app, upgrade_app, cross_app, cross_check_app, equal_app, batch_app, union_app, intersect_app, shrink_app, deciding_app, empty_app, universal_app, rabit_app};

use clap::{Arg, ArgAction, Command};
use std::alloc::{AllocError, Global};

/// A word that has to stand in its place.
fn place<'a>(alloc: Global, id: &'a str) -> Arg<'a>
    ensures rule { rule_of result ≡ place id.entry.now }
    ensures local { result.global ≡ false }
{
    Arg::new(alloc, id).required(true).action(ArgAction::Set)
}

/// An option with a word after it.
fn option_with_word<'a>(alloc: Global, id: &'a str) -> Arg<'a>
    ensures rule { rule_of result ≡ option_with_word id.entry.now }
    ensures local { result.global ≡ false }
{
    Arg::new(alloc, id).long(id).action(ArgAction::Set)
}

/// An option alone.
fn option_alone<'a>(alloc: Global, id: &'a str) -> Arg<'a>
    ensures rule { rule_of result ≡ option_alone id.entry.now }
    ensures local { result.global ≡ false }
{
    Arg::new(alloc, id).long(id).action(ArgAction::SetTrue)
}

/// The command with an argument after its arguments, if it was made. (Each way out on which a
/// command is let go costs the prover seconds, so commands are handed on as they were answered.)
fn with_argument<'a>(
    command: Result<Command<'a>, AllocError>,
    argument: Arg<'a>,
) -> Result<Command<'a>, AllocError>
    requires local { IfOk command (λ c. (out-Command c).has_globals ≡ false) }
    requires argument_local { argument.global ≡ false }
    ensures app { (app : App) → IfOk command.entry (λ c. app_of c ≡ app)
        → IfOk result (λ c. app_of c ≡ with_rule app (rule_of argument.entry)) }
    ensures local { IfOk result (λ c. (out-Command c).has_globals ≡ false) }
{
    match command {
        Ok(command) => command.arg(argument),
        Err(refused) => {
            drop(argument);
            Err(refused)
        }
    }
}

/// The command with the place of a word after its arguments, if it was made.
fn with_place<'a>(
    alloc: Global,
    command: Result<Command<'a>, AllocError>,
    id: &'a str,
) -> Result<Command<'a>, AllocError>
    requires { IfOk command (λ c. (out-Command c).has_globals ≡ false) }
    ensures app { (app : App) → IfOk command.entry (λ c. app_of c ≡ app)
        → IfOk result (λ c. app_of c ≡ with_rule app (place id.entry.now)) }
    ensures local { IfOk result (λ c. (out-Command c).has_globals ≡ false) }
{
    with_argument(command, place(alloc, id))
}

/// The command with an option with a word after its arguments, if it was made.
fn with_word<'a>(
    alloc: Global,
    command: Result<Command<'a>, AllocError>,
    id: &'a str,
) -> Result<Command<'a>, AllocError>
    requires { IfOk command (λ c. (out-Command c).has_globals ≡ false) }
    ensures app { (app : App) → IfOk command.entry (λ c. app_of c ≡ app)
        → IfOk result (λ c. app_of c ≡ with_rule app (option_with_word id.entry.now)) }
    ensures local { IfOk result (λ c. (out-Command c).has_globals ≡ false) }
{
    with_argument(command, option_with_word(alloc, id))
}

/// The command with `--finite` after its arguments, if it was made.
fn with_finite<'a>(
    alloc: Global,
    command: Result<Command<'a>, AllocError>,
) -> Result<Command<'a>, AllocError>
    requires { IfOk command (λ c. (out-Command c).has_globals ≡ false) }
    ensures app { (app : App) → IfOk command.entry (λ c. app_of c ≡ app)
        → IfOk result (λ c. app_of c ≡ with_rule app (option_alone (codes "finite"))) }
    ensures local { IfOk result (λ c. (out-Command c).has_globals ≡ false) }
{
    with_argument(command, option_alone(alloc, "finite"))
}

/// A command of this name with the place of one word.
fn with_one_place<'a>(alloc: Global, name: &'a str, id: &'a str) -> Result<Command<'a>, AllocError>
    ensures app { IfOk
        result (λ c. app_of c ≡ with_rule (new_app name.entry.now) (place id.entry.now)) }
    ensures local { IfOk result (λ c. (out-Command c).has_globals ≡ false) }
{
    Command::new(alloc, name).arg(place(alloc, id))
}

/// A command of this name with the places of two automata.
fn with_two_files<'a>(alloc: Global, name: &'a str) -> Result<Command<'a>, AllocError>
    ensures app { IfOk result (λ c. app_of c ≡ two_files_app name.entry.now) }
    ensures local { IfOk result (λ c. (out-Command c).has_globals ≡ false) }
{
    let first = with_one_place(alloc, name, "A");
    with_place(alloc, first, "B")
}

/// A command of this name with the places of two automata and a certificate.
fn with_three_files<'a>(alloc: Global, name: &'a str) -> Result<Command<'a>, AllocError>
    ensures app { IfOk result (λ c. app_of c ≡ three_files_app name.entry.now) }
    ensures local { IfOk result (λ c. (out-Command c).has_globals ≡ false) }
{
    let files = with_two_files(alloc, name);
    with_place(alloc, files, "CERT")
}

/// `include A B CERT [--finite] [--look K] [--limit N] [--letters M]`
fn include<'a>(alloc: Global) -> Result<Command<'a>, AllocError>
    ensures app { IfOk result (λ c. app_of c ≡ include_app) }
    ensures local { IfOk result (λ c. (out-Command c).has_globals ≡ false) }
{
    let files = with_three_files(alloc, "include");
    let finite = with_finite(alloc, files);
    let look = with_word(alloc, finite, "look");
    let limit = with_word(alloc, look, "limit");
    with_word(alloc, limit, "letters")
}

/// `check A B CERT`
fn check<'a>(alloc: Global) -> Result<Command<'a>, AllocError>
    ensures app { IfOk result (λ c. app_of c ≡ check_app) }
    ensures local { IfOk result (λ c. (out-Command c).has_globals ≡ false) }
{
    with_three_files(alloc, "check")
}

/// `reduce A [--finite] [--look K] [--letters M]`
fn reduce<'a>(alloc: Global) -> Result<Command<'a>, AllocError>
    ensures app { IfOk result (λ c. app_of c ≡ reduce_app) }
    ensures local { IfOk result (λ c. (out-Command c).has_globals ≡ false) }
{
    let automaton = with_one_place(alloc, "reduce", "A");
    let finite = with_finite(alloc, automaton);
    let look = with_word(alloc, finite, "look");
    with_word(alloc, look, "letters")
}

/// `drill SEED STATES LABELS`
fn drill<'a>(alloc: Global) -> Result<Command<'a>, AllocError>
    ensures app { IfOk result (λ c. app_of c ≡ drill_app) }
    ensures local { IfOk result (λ c. (out-Command c).has_globals ≡ false) }
{
    let seed = with_one_place(alloc, "drill", "SEED");
    let states = with_place(alloc, seed, "STATES");
    with_place(alloc, states, "LABELS")
}

/// `upgrade CERT OUT`
fn upgrade<'a>(alloc: Global) -> Result<Command<'a>, AllocError>
    ensures app { IfOk result (λ c. app_of c ≡ upgrade_app) }
    ensures local { IfOk result (λ c. (out-Command c).has_globals ≡ false) }
{
    let certificate = with_one_place(alloc, "upgrade", "CERT");
    with_place(alloc, certificate, "OUT")
}

/// `cross A B OUT [--look K]`
fn cross<'a>(alloc: Global) -> Result<Command<'a>, AllocError>
    ensures app { IfOk result (λ c. app_of c ≡ cross_app) }
    ensures local { IfOk result (λ c. (out-Command c).has_globals ≡ false) }
{
    let files = with_two_files(alloc, "cross");
    let relation = with_place(alloc, files, "OUT");
    with_word(alloc, relation, "look")
}

/// `cross-check A B FILE`
fn cross_check<'a>(alloc: Global) -> Result<Command<'a>, AllocError>
    ensures app { IfOk result (λ c. app_of c ≡ cross_check_app) }
    ensures local { IfOk result (λ c. (out-Command c).has_globals ≡ false) }
{
    let files = with_two_files(alloc, "cross-check");
    with_place(alloc, files, "FILE")
}

/// `equal A B C1 C2`
fn equal<'a>(alloc: Global) -> Result<Command<'a>, AllocError>
    ensures app { IfOk result (λ c. app_of c ≡ equal_app) }
    ensures local { IfOk result (λ c. (out-Command c).has_globals ≡ false) }
{
    let files = with_two_files(alloc, "equal");
    let certificate = with_place(alloc, files, "C1");
    with_place(alloc, certificate, "C2")
}

/// `batch LIST`
fn batch<'a>(alloc: Global) -> Result<Command<'a>, AllocError>
    ensures app { IfOk result (λ c. app_of c ≡ batch_app) }
    ensures local { IfOk result (λ c. (out-Command c).has_globals ≡ false) }
{
    with_one_place(alloc, "batch", "LIST")
}

/// `union A B [--finite]`
fn union<'a>(alloc: Global) -> Result<Command<'a>, AllocError>
    ensures app { IfOk result (λ c. app_of c ≡ union_app) }
    ensures local { IfOk result (λ c. (out-Command c).has_globals ≡ false) }
{
    let files = with_two_files(alloc, "union");
    with_finite(alloc, files)
}

/// `intersect A B [--finite]`
fn intersect<'a>(alloc: Global) -> Result<Command<'a>, AllocError>
    ensures app { IfOk result (λ c. app_of c ≡ intersect_app) }
    ensures local { IfOk result (λ c. (out-Command c).has_globals ≡ false) }
{
    let files = with_two_files(alloc, "intersect");
    with_finite(alloc, files)
}

/// `shrink A B CERT OUT`
fn shrink<'a>(alloc: Global) -> Result<Command<'a>, AllocError>
    ensures app { IfOk result (λ c. app_of c ≡ shrink_app) }
    ensures local { IfOk result (λ c. (out-Command c).has_globals ≡ false) }
{
    let files = with_three_files(alloc, "shrink");
    with_place(alloc, files, "OUT")
}

/// A command of this name with the places of an automaton, of another that is written, and of a
/// certificate.
fn deciding<'a>(alloc: Global, name: &'a str, other: &'a str) -> Result<Command<'a>, AllocError>
    ensures app { IfOk result (λ c. app_of c ≡ deciding_app name.entry.now other.entry.now) }
    ensures local { IfOk result (λ c. (out-Command c).has_globals ≡ false) }
{
    let automaton = with_one_place(alloc, name, "A");
    let made = with_place(alloc, automaton, other);
    let certificate = with_place(alloc, made, "CERT");
    with_finite(alloc, certificate)
}

/// `empty A E CERT [--finite]`
fn empty<'a>(alloc: Global) -> Result<Command<'a>, AllocError>
    ensures app { IfOk result (λ c. app_of c ≡ empty_app) }
    ensures local { IfOk result (λ c. (out-Command c).has_globals ≡ false) }
{
    deciding(alloc, "empty", "E")
}

/// `universal A U CERT [--finite]`
fn universal<'a>(alloc: Global) -> Result<Command<'a>, AllocError>
    ensures app { IfOk result (λ c. app_of c ≡ universal_app) }
    ensures local { IfOk result (λ c. (out-Command c).has_globals ≡ false) }
{
    deciding(alloc, "universal", "U")
}

/// The command with a subcommand, if both were made.
fn with_subcommand<'a>(
    command: Result<Command<'a>, AllocError>,
    made: Result<Command<'a>, AllocError>,
) -> Result<Command<'a>, AllocError>
    ensures { (app sub : App) → IfOk command.entry (λ c. app_of c ≡ app)
        → IfOk made.entry (λ m. app_of m ≡ sub)
        → IfOk made.entry (λ m. (out-Command m).has_globals ≡ false)
        → IfOk result (λ c. app_of c ≡ with_subcommand app sub.top) }
{
    match command {
        Ok(command) => match made {
            Ok(subcommand) => command.subcommand(subcommand),
            Err(refused) => {
                drop(command);
                Err(refused)
            }
        },
        Err(refused) => {
            drop(made);
            Err(refused)
        }
    }
}

/// The program's command, which needs one of its subcommands.
pub fn rabit<'a>(alloc: Global) -> Result<Command<'a>, AllocError>
    ensures { IfOk result (λ c. app_of c ≡ rabit_app) }
{
    let start = Ok(Command::new(alloc, "rabit").subcommand_required(true));
    let one = with_subcommand(start, include(alloc));
    let two = with_subcommand(one, check(alloc));
    let three = with_subcommand(two, reduce(alloc));
    let four = with_subcommand(three, drill(alloc));
    let five = with_subcommand(four, upgrade(alloc));
    let six = with_subcommand(five, cross(alloc));
    let seven = with_subcommand(six, cross_check(alloc));
    let eight = with_subcommand(seven, equal(alloc));
    let nine = with_subcommand(eight, batch(alloc));
    let ten = with_subcommand(nine, union(alloc));
    let eleven = with_subcommand(ten, intersect(alloc));
    let twelve = with_subcommand(eleven, shrink(alloc));
    let thirteen = with_subcommand(twelve, empty(alloc));
    with_subcommand(thirteen, universal(alloc))
}
