//! A log that is followed from each of its files to the next.
ghost use Rattle.std.specs.Prelude.{◌≡◌, ◌≢◌, ◌↔◌, ◌∷◌, ◌++◌, [], Ok, None, true, codes, IfErr, IfSome, IsTrue};
ghost use Rattle.binlog_wire.specs.declared.error.Error.TheVariants.{Writer};
ghost use Rattle.binlog_payload_filters.specs.declared.filtered.PayloadFiltered.{PayloadFiltered};
ghost use Rattle.binlog_inputs.specs.Reports.{ReportedView};
ghost use Rattle.binlog_cli.specs.declared.exit_status.Status.TheVariants.{Fine};
ghost use Rattle.binlog_inputs.specs.FollowedEnds.{ComesNext, has_list, missing_by};
ghost use Rattle.binlog_inputs.specs.Reading.{ReadsFiles};
ghost use Rattle.binlog_inputs.specs.Rests.{HasRested};

use crate::files::read_files;
use crate::follower::Follower;
use crate::growing::follow_from;
use crate::inputs::Inputs;
use crate::positions::Positions;
use crate::reported::Reported;
use crate::request::Reading;
use binlog_cli::{Outcome, Status, out_of_memory};
use binlog_commands::{Continuation, FileGtids};
use binlog_file::Error;
use binlog_following::{Missing, NEW_FILE, Waits, missing_front};
use binlog_payload_filters::PayloadFiltered;
use binlog_rotation::Checkpoint;
use binlog_visits::{Refusing, Visitor};
use std::time::Clock;

/// Reads files in order. If they are followed, the last one is read as far as it grows, and then the files behind it; the follower is
/// told of each. The positions of the filter are one of the first file and one of the last file.
#[tactic(auto, using(crate::proofs::Rests::goes_not))]
pub(crate) fn read_all_files<
    'a,
    S: Inputs,
    R: Clock + Eprint + AllocGlobal,
    T: Visitor + Refusing,
    F: Follower<T>,
>(
    rt: &'a R,
    inputs: &S,
    names: &[&'a str],
    reading: Reading,
    visitor: Reported<'a, R, PayloadFiltered<T>>,
    follower: &mut F,
) -> (Outcome, PayloadFiltered<T>)
    ensures read { (behind : ReportedView (PayloadFiltered T)) × ReadsFiles T.visits T.refuses T.refusals reading.is_verified reading.is_followed (λ name. S.bytes inputs.now name.now) names.now Fine visitor.entry result.0 behind
        × (result.1 ≡ behind.visitor) }
    ensures rested { HasRested F.rests follower.old follower.new }
{
    match names.split_last() {
        Some((last, before)) if goes_on(last, reading) => {
            follow_last(rt, inputs, before, last, reading, visitor, follower)
        }
        _ => {
            let mut visitor = visitor;
            let asked = visitor.positions();
            let outcome = read_files(rt, inputs, names, reading, asked, &mut visitor);
            (outcome, visitor.into_visitor())
        }
    }
}

/// Whether a log is followed from the file of this name to the next. Standard input has none.
pub fn goes_on(name: &str, reading: Reading) -> bool
    ensures { IsTrue result ↔ ((reading.is_followed ≡ true) × (name.now ≢ codes "-")) }
{
    reading.is_followed && name != "-"
}

// Reads the files before the last one, and follows that one.
#[tactic(auto, using(crate::proofs::Rests::goes_not))]
fn follow_last<
    'a,
    S: Inputs,
    R: Clock + Eprint + AllocGlobal,
    T: Visitor + Refusing,
    F: Follower<T>,
>(
    rt: &'a R,
    inputs: &S,
    before: &[&'a str],
    last: &'a str,
    reading: Reading,
    mut visitor: Reported<'a, R, PayloadFiltered<T>>,
    follower: &mut F,
) -> (Outcome, PayloadFiltered<T>)
    ensures read { (behind : ReportedView (PayloadFiltered T)) × ReadsFiles T.visits T.refuses T.refusals reading.is_verified true (λ name. S.bytes inputs.now name.now) (before.now ++ last.entry ∷ []) Fine visitor.entry result.0 behind
        × (result.1 ≡ behind.visitor) }
    ensures rested { HasRested F.rests follower.old follower.new }
{
    let asked = visitor.positions();
    let unstopped = asked.in_file(true, false);
    let unfollowed = reading.of_file(false);
    let read = read_files(rt, inputs, before, unfollowed, unstopped, &mut visitor);
    if !read.is_written {
        return (read, visitor.into_visitor());
    }
    visitor.take_positions(asked.in_file(before.is_empty(), true));
    match follow(rt, inputs, last, visitor.into_visitor(), follower) {
        (Ok(found), visitor) => (Outcome::written(read.status.worse(found)), visitor),
        (Err(_), visitor) => (Outcome::unwritten(read.status), visitor),
    }
}

/// Reads a file as far as it grows, and then each file behind it. With a state the file that it names comes first, from where it says on.
/// The follower is told the path of each file, and from which byte on its items are shown. The positions of the filter are those of the
/// file that is named. The only error is that the output failed.
#[tactic(auto, using(crate::proofs::Rests::goes_not))]
pub fn follow<
    'a,
    S: Inputs,
    R: Clock + Eprint + AllocGlobal,
    T: Visitor + Refusing,
    F: Follower<T>,
>(
    rt: &'a R,
    inputs: &S,
    name: &'a str,
    visitor: PayloadFiltered<T>,
    follower: &mut F,
) -> (Result<Status, Error>, PayloadFiltered<T>)
    ensures err { IfErr result.0 (λ error. error ≡ Writer) }
    ensures rested { HasRested F.rests follower.old follower.new }
{
    let (path, start) = match inputs.start(rt.alloc(), name) {
        Ok(found) => found,
        Err(_) => return (Ok(out_of_memory(rt)), visitor),
    };
    let mut visitor = visitor;
    let shown = &mut visitor.filtered.visitor;
    match wait_for_start(rt, inputs, path.as_str(), start, shown, follower) {
        Ok(true) => {}
        Ok(false) => return (Ok(Status::Failed), visitor),
        Err(error) => return (Err(error), visitor),
    }
    follow_files(rt, inputs, name, path, start, visitor, follower)
}

// Waits for a file that a state names, of which so much was read before. The answer is false only if it isn't there after 2^64 - 1 looks. The
// only error is that the output failed.
#[tactic(auto, using(crate::proofs::Rests::goes_not))]
fn wait_for_start<S: Inputs, R: Clock + Eprint + AllocGlobal, T, F: Follower<T>>(
    rt: &R,
    inputs: &S,
    path: &str,
    start: Checkpoint,
    visitor: &mut T,
    follower: &mut F,
) -> Result<bool, Error>
    ensures rested { HasRested F.rests follower.old follower.new }
    ensures err { IfErr result (λ error. error ≡ Writer) }
{
    if inputs.has_state() {
        wait_for(rt, inputs, path, start, None, visitor, follower)
    } else {
        Ok(true)
    }
}

// Reads the file of this path from this place on as far as it grows, and then each file behind it. The positions of the filter are those of
// the file of this name.
#[tactic(auto, using(crate::proofs::Rests::goes_not))]
fn follow_files<
    'a,
    S: Inputs,
    R: Clock + Eprint + AllocGlobal,
    T: Visitor + Refusing,
    F: Follower<T>,
>(
    rt: &'a R,
    inputs: &S,
    name: &str,
    path: String,
    start: Checkpoint,
    visitor: PayloadFiltered<T>,
    follower: &mut F,
) -> (Result<Status, Error>, PayloadFiltered<T>)
    ensures err { IfErr result.0 (λ error. error ≡ Writer) }
    ensures rested { HasRested F.rests follower.old follower.new }
{
    let mut status = Status::Fine;
    let mut path = path;
    let mut place = start;
    let mut visitor = visitor;
    let named = Positions::of(visitor.filtered.filter.filter());
    'files: for _ in 0..u64::MAX {
        let positions = named.in_followed(path.as_str() == name);
        positions.put_into(&mut visitor.filtered.filter);
        let mut gtids = FileGtids::of_file(rt.alloc());
        let (read, next, behind) = follow_from(
            rt,
            inputs,
            path.as_str(),
            place,
            visitor,
            &mut gtids,
            follower,
        );
        visitor = behind;
        match read {
            Ok(found) => status = status.worse(found),
            Err(error) => return (Err(error), visitor),
        }
        let Some(next) = next else {
            return (Ok(status), visitor);
        };
        let shown = &mut visitor.filtered.visitor;
        match go_to(rt, inputs, next.as_str(), &gtids, shown, follower) {
            Ok(Status::Fine) => {}
            Ok(found) => return (Ok(status.worse(found)), visitor),
            Err(error) => return (Err(error), visitor),
        }
        path = next;
        place = NEW_FILE;
    }
    (Ok(status), visitor)
}

// Waits for the next file, where the file before it has these GTIDs, and writes a state that begins with it. If it can't be written, there
// is a message, and the status says so. The only error is that the output failed.
#[tactic(auto, using(crate::proofs::Rests::goes_not))]
fn go_to<S: Inputs, R: Clock + Eprint + AllocGlobal, T, F: Follower<T>>(
    rt: &R,
    inputs: &S,
    path: &str,
    before: &FileGtids,
    visitor: &mut T,
    follower: &mut F,
) -> Result<Status, Error>
    ensures told { result ≡ Ok Fine → has_list before.now.marks ≡ true → ComesNext (λ told. S.has_told inputs.now path.now before.now told) }
    ensures saved { result ≡ Ok Fine → S.has_saved inputs.now path.now NEW_FILE }
    ensures rested { HasRested F.rests follower.old follower.new }
    ensures err { IfErr result (λ error. error ≡ Writer) }
{
    let listed = if before.marks.has_list() {
        Some(before)
    } else {
        None
    };
    // The state doesn't have an old file of this name, since nothing is left then of the file before to compare its list with.
    wait_if_there(rt, inputs, path, listed, visitor, follower)?;
    if let Err(error) = inputs.save(path, NEW_FILE) {
        let _ = eprintln!(rt; "binlog: the state can't be written: {error}");
        return Ok(Status::Failed);
    }
    let is_there = wait_for(rt, inputs, path, NEW_FILE, listed, visitor, follower)?;
    if is_there {
        Ok(Status::Fine)
    } else {
        Ok(Status::Failed)
    }
}

// Waits for the list of GTIDs of a new file if that is there. The only error is that the output failed.
#[tactic(auto, using(crate::proofs::Rests::goes_not))]
fn wait_if_there<S: Inputs, R: Clock + Eprint + AllocGlobal, T, F: Follower<T>>(
    rt: &R,
    inputs: &S,
    path: &str,
    before: Option<&FileGtids>,
    visitor: &mut T,
    follower: &mut F,
) -> Result<(), Error>
    ensures rested { HasRested F.rests follower.old follower.new }
    ensures err { IfErr result (λ error. error ≡ Writer) }
{
    if missing_front(inputs, path, NEW_FILE).is_none() {
        let _ = wait_for(rt, inputs, path, NEW_FILE, before, visitor, follower)?;
    }
    Ok(())
}

// Waits for a file of which so much was read before, and for a list of GTIDs that doesn't differ from those of the file before, if these
// are given. Each thing that is missing has a message after ten seconds. The answer is false only if something is missing after 2^64 - 1
// looks. The only error is that the output failed.
fn wait_for<S: Inputs, R: Clock + Eprint + AllocGlobal, T, F: Follower<T>>(
    rt: &R,
    inputs: &S,
    path: &str,
    start: Checkpoint,
    before: Option<&FileGtids>,
    visitor: &mut T,
    follower: &mut F,
) -> Result<bool, Error>
    ensures told { result ≡ Ok true → IfSome before.entry (λ gtids. ComesNext (λ told. S.has_told inputs.now path.now gtids.now told)) }
    ensures rested { HasRested F.rests follower.old follower.new }
    ensures err { IfErr result (λ error. error ≡ Writer) }
{
    let mut waits = Waits::new();
    'looks: for _ in 0..u64::MAX {
        let Some(missing) = missing_in(inputs, path, start, before) else {
            return Ok(true);
        };
        follower.rest(visitor)?;
        waits.wait(rt, path, Some(missing));
    }
    Ok(false)
}

// What is missing of a file, of which so much was read before, and which is behind one with these GTIDs.
fn missing_in<S: Inputs>(
    inputs: &S,
    path: &str,
    start: Checkpoint,
    before: Option<&FileGtids>,
) -> Option<Missing>
    ensures { result ≡ None → IfSome before.entry (λ gtids. ComesNext (λ told. S.has_told inputs.now path.now gtids.now told)) }
{
    let front = missing_front(inputs, path, start);
    if front.is_some() {
        return front;
    }
    missing_by(inputs.continuation_in(path, before?))
}

// What is missing of a file with a list of GTIDs, by what it says of the file before; None if there is no list yet.
fn missing_by(continuation: Option<Continuation>) -> Option<Missing>
    ensures { result ≡ missing_by continuation }
{
    match continuation {
        None => Some(Missing::List),
        Some(Continuation::Differs) => Some(Missing::SameList),
        Some(Continuation::Unlisted | Continuation::GoesOn) => None,
    }
}
