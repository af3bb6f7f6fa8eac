//! A command carried out: read, answered, written and said.

ghost use Rattle.std.specs.Prelude.{◌≡◌, ◌≤◌, ◌⊎◌, ◌∷◌, [], length, Err, IfOk, IfErr, IfSome};
ghost use Rattle.shelf_io.specs.Counts.{Rose, counted};
ghost use Rattle.shelf_io.specs.Shelf.{CountsMissing};
ghost use Rattle.shelf_io.specs.Seen.{OnlyRead, call};
ghost use Rattle.rabit_frame.specs.declared.parts.Ending.{Ending as AnEnding};
ghost use Rattle.rabit_frame.specs.Request.{HasOneReply, only_reading};
ghost use Rattle.rabit_frame.specs.Reading.{IsOfKind, FileReads, MayStop, BegunInTurn, AllBegun, BegunForReply, BegunToBlamed};
ghost use Rattle.rabit_frame.specs.Ending.{IsReplyFor, MayReply, WasGiven, WasSaid, status_of};
ghost use Rattle.rabit_frame.specs.Carrying.{EndsSo, PutsOnce, BegunByStatus, MissesInTurn, CallsShelf, IsCarriedOut, TellsFaults, MakesCalls};

use crate::parts::{Ending, Halt, Lack, Reply, Slot, Value};
use crate::work::Work;
use crate::{putting, reading};
use auto_core::List;
use shelf_io::{Shelf, Sink};
use std::alloc::Global;

/// The command's reply, before anything is written: that of the first file that is not read, or
/// that to all of them.
fn reply_of<'w, W: Work, H: Shelf>(
    alloc: Global,
    work: &'w W,
    shelf: &mut H,
) -> Result<Reply<'w>, Lack>
    requires fit { W.is_fit work.now }
    ensures right { IfOk
        result (λ reply.
        IfSome (H.seen shelf.old).files (λ files. IsReplyFor (W.request work.now) files reply)) }
    ensures may { IfOk result (MayReply (W.request work.now)) }
    ensures some { result ≡ Err Lack.ReadFault → 1 ≤ length (W.request work.now).inputs }
    ensures read_fault { result ≡ Err Lack.ReadFault
        → Rose (H.seen shelf.old).read_faults (H.seen shelf.new).read_faults }
    ensures no_read_fault { ¬ (result ≡ Err Lack.ReadFault)
        → (H.seen shelf.new).read_faults ≡ (H.seen shelf.old).read_faults }
    ensures only_read { OnlyRead (H.seen shelf.new).begins (H.seen shelf.old) (H.seen shelf.new) }
    ensures missing { MissesInTurn (W.request work.now).inputs (H.seen shelf.old)
        (H.seen shelf.new) }
    ensures all_begun { IfOk
        result (λ reply.
        MayStop (W.request work.now).inputs reply
        ⊎ AllBegun (W.request work.now).inputs (H.seen shelf.old).begins
        (H.seen shelf.new).begins) }
    ensures begun_for_reply { IfOk
        result (λ reply.
        BegunForReply (H.seen shelf.old).files (W.request work.now).inputs (H.seen shelf.old).begins
        (H.seen shelf.new).begins) }
    ensures begun_to_blamed { result ≡ Err Lack.ReadFault
        → BegunToBlamed (H.seen shelf.old).files (W.request work.now).inputs
        (H.seen shelf.new).blamed (H.seen shelf.old).begins (H.seen shelf.new).begins }
    ensures begun_in_turn { BegunInTurn (H.seen shelf.old).files (W.request work.now).inputs
        (H.seen shelf.old).begins (H.seen shelf.new).begins }
{
    let slots = match work.slots(alloc) {
        Ok(slots) => slots,
        Err(_refused) => return Err(Lack::OutOfMemory),
    };
    match reading::read_all(alloc, shelf, slots.as_slice(), List::new(alloc)) {
        Ok(values) => match work.answer(alloc, values.as_slice()) {
            Ok(reply) => {
                drop(values);
                Ok(reply)
            }
            Err(_refused) => {
                drop(values);
                Err(Lack::OutOfMemory)
            }
        },
        Err(Halt::Stopped(reply)) => Ok(reply),
        Err(Halt::ReadFault) => Err(Lack::ReadFault),
        Err(Halt::OutOfMemory) => Err(Lack::OutOfMemory),
    }
}

/// How the command ends: the files of its reply are written in order, and the first that is refused
/// is the end.
fn ending_of<'w, W: Work, H: Shelf>(alloc: Global, work: &'w W, shelf: &mut H) -> Ending<'w>
    requires fit { W.is_fit work.now }
    ensures ends { EndsSo (W.request work.now) result (H.seen shelf.old) (H.seen shelf.new) }
    ensures put_once { PutsOnce (W.request work.now) result (H.seen shelf.old) (H.seen shelf.new) }
    ensures missing { MissesInTurn (W.request work.now).inputs (H.seen shelf.old)
        (H.seen shelf.new) }
    ensures begun { BegunByStatus (W.request work.now).inputs (status_of result) (H.seen shelf.old)
        (H.seen shelf.new) }
{
    let reply = match reply_of(alloc, work, shelf) {
        Ok(reply) => reply,
        Err(Lack::ReadFault) => return Ending::ReadFault,
        Err(Lack::OutOfMemory) => return Ending::OutOfMemory,
    };
    match putting::put_all(shelf, reply.puts.as_slice()) {
        Ok(()) => Ending::Reached(reply),
        Err(_failed) => Ending::WriteFault,
    }
}

/// Gives the whole text at once. The status tells whether the sink took it.
fn give<K: Sink>(out: &mut K, text: &[u8], number: u8, unsent: u8) -> u8
    ensures given { WasGiven text.now number unsent result (K.seen out.old) (K.seen out.new) }
    ensures given_once { (K.seen out.new).gives ≡ counted (K.seen out.old).gives }
{
    match out.give(text) {
        Ok(()) => number,
        Err(_failed) => unsent,
    }
}

/// Says how the command ended, and answers its status.
pub fn say<K: Sink>(ending: &Ending<'_>, out: &mut K) -> u8
    ensures said { WasSaid ending.now result (K.seen out.old) (K.seen out.new) }
    ensures given_once { (K.seen out.new).gives ≡ counted (K.seen out.old).gives }
{
    match ending {
        Ending::Reached(reply) => {
            let number = reply.status.number();
            let unsent = reply.status.number_unsent();
            give(out, reply.text.as_slice(), number, unsent)
        },
        Ending::ReadFault => give(out, b"read fault\n", 6, 6),
        Ending::WriteFault => give(out, b"write fault\n", 7, 7),
        Ending::OutOfMemory => give(out, b"out of memory\n", 8, 8),
    }
}

/// Reads the file of a command that then goes on by itself, or tells how the command ends.
pub fn read_alone<H: Shelf>(
    alloc: Global,
    shelf: &mut H,
    slot: &Slot<'_>,
) -> Result<Value, Ending<'static>>
    ensures read { IfOk
        result (λ value.
        IfSome (H.seen shelf.old).files (λ files. FileReads files slot.now value)) }
    ensures kind { IfOk result (IsOfKind slot.now.kind) }
    ensures ends { IfErr
        result (λ end.
        EndsSo (only_reading (slot.now ∷ [])) end (H.seen shelf.old) (H.seen shelf.new)) }
    ensures faults_stay { IfOk
        result (λ value. (H.seen shelf.new).read_faults ≡ (H.seen shelf.old).read_faults) }
    ensures only_read { OnlyRead (counted (H.seen shelf.old).begins) (H.seen shelf.old)
        (H.seen shelf.new) }
    ensures counts_missing { CountsMissing (H.seen shelf.old).files slot.now.name
        (H.seen shelf.old).missed (H.seen shelf.new).missed }
    ensures begun { IfErr
        result (λ end.
        BegunByStatus (slot.now ∷ []) (status_of end) (H.seen shelf.old) (H.seen shelf.new)) }
{
    match reading::read_one(alloc, shelf, slot) {
        Ok(value) => Ok(value),
        Err(Halt::Stopped(reply)) => Err(Ending::Reached(reply)),
        Err(Halt::ReadFault) => Err(Ending::ReadFault),
        Err(Halt::OutOfMemory) => Err(Ending::OutOfMemory),
    }
}

/// Carries out the command but says nothing, and answers the status that it ends with.
pub fn carry_out_unsaid<W: Work, H: Shelf>(alloc: Global, work: &W, shelf: &mut H) -> u8
    requires fit { W.is_fit work.now }
    ensures ends { (end : AnEnding)
        × EndsSo (W.request work.now) end (H.seen shelf.old) (H.seen shelf.new)
        × (result ≡ status_of end) }
    ensures calls { CallsShelf (W.request work.now) result (H.seen shelf.old) (H.seen shelf.new) }
{
    match ending_of(alloc, work, shelf) {
        Ending::Reached(reached) => {
            let own = reached.status.number();
            drop(reached);
            own
        }
        Ending::ReadFault => 6,
        Ending::WriteFault => 7,
        Ending::OutOfMemory => 8,
    }
}

/// Carries out the command: its files are read in turn, those of its reply are written in order,
/// and then its text is given. Answers the status.
pub fn carry_out<W: Work, H: Shelf, K: Sink>(
    alloc: Global,
    work: &W,
    shelf: &mut H,
    out: &mut K,
) -> u8
    requires fit { W.is_fit work.now }

    // What is read as these values has one right reply, at most.
    requires one { HasOneReply (W.request work.now) }

    // One ending was said. Where the shelf tells its files it is the right one, or a fault of the
    // outside or want of memory: the right reply, whatever it is, has its files written and its
    // text given.
    ensures carried { IsCarriedOut (W.request work.now)
        (call (H.seen shelf.old) (H.seen shelf.new) (K.seen out.old) (K.seen out.new) result) }

    // Faults of the outside, each with its count; what was said of them, and what stays.
    ensures faults { TellsFaults (W.request work.now)
        (call (H.seen shelf.old) (H.seen shelf.new) (K.seen out.old) (K.seen out.new) result) }

    // By the counts of calls: just the files were begun that the status needs, each once and in
    // turn; each file of the reply was put once, or up to one that was refused; and the whole text
    // was one give.
    ensures calls { MakesCalls (W.request work.now)
        (call (H.seen shelf.old) (H.seen shelf.new) (K.seen out.old) (K.seen out.new) result) }
{
    let ending = ending_of(alloc, work, shelf);
    let status = say(&ending, out);
    drop(ending);
    status
}
