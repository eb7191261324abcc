//! What a filter takes of the files of a command, shown to a visitor.
ghost use Rattle.std.specs.Prelude.{IfErr, IfOk};
ghost use Rattle.clap.specs.Matches.{found_of};
ghost use Rattle.binlog_filters.specs.declared.filter.Filter.{Filter};
ghost use Rattle.binlog_cli.specs.FilterWords.{NeverBegins, StatesFilter};
ghost use Rattle.binlog_inputs.specs.Reading.{ShowsTaken};
ghost use Rattle.binlog_inputs.specs.Rests.{HasRested};

use crate::follower::{Follower, NoFollower};
use crate::inputs::Inputs;
use crate::reported::{CONTENT_LIMIT, Reported, report_left_out};
use crate::request::{Reading, Request};
use crate::rotations::read_all_files;
use binlog_cli::{Outcome, Status, filter};
use binlog_filters::Filter;
use binlog_payload_filters::PayloadFiltered;
use binlog_visits::{Refusing, Visitor};
use std::time::Clock;

/// Shows a visitor what the filter of the words takes of all files.
///
/// # Errors
///
/// The status of a command that can't begin, after its message: [`Status::Usage`] if an option can't be read, [`Status::Failed`] if
/// there is no memory.
pub fn read_all<'a, S: Inputs, R: Clock + Eprint + AllocGlobal, T: Visitor + Refusing + Drop>(
    rt: &'a R,
    inputs: &S,
    request: &Request<'_, 'a>,
    visitor: T,
) -> Result<(Outcome, T), Status>
    ensures ok { IfOk result (λ shown. (filter : Filter) × StatesFilter (found_of request.now.options.now) filter × ShowsTaken T.visits T.refuses T.refusals filter request.now.reading.is_verified request.now.reading.is_followed
        (λ name. S.bytes inputs.now name.now) request.now.files.now visitor shown.0 shown.1) }
    ensures err { IfErr result (λ status. NeverBegins (found_of request.now.options.now) status) }
{
    read_followed(rt, inputs, request, visitor, &mut NoFollower)
}

/// Shows a visitor what the filter of the words takes of all files. The follower is told of those that are followed.
///
/// # Errors
///
/// The status of a command that can't begin, after its message: [`Status::Usage`] if an option can't be read, [`Status::Failed`] if
/// there is no memory.
#[tactic(auto, using(crate::proofs::Rests::goes_not))]
pub fn read_followed<
    'a,
    S: Inputs,
    R: Clock + Eprint + AllocGlobal,
    T: Visitor + Refusing + Drop,
    F: Follower<T>,
>(
    rt: &'a R,
    inputs: &S,
    request: &Request<'_, 'a>,
    visitor: T,
    follower: &mut F,
) -> Result<(Outcome, T), Status>
    ensures ok { IfOk result (λ shown. (filter : Filter) × StatesFilter (found_of request.now.options.now) filter × ShowsTaken T.visits T.refuses T.refusals filter request.now.reading.is_verified request.now.reading.is_followed
        (λ name. S.bytes inputs.now name.now) request.now.files.now visitor shown.0 shown.1) }
    ensures rested { HasRested F.rests follower.old follower.new }
    ensures err { IfErr result (λ status. NeverBegins (found_of request.now.options.now) status) }
{
    let filter = filter(rt, request.options)?;
    Ok(read_taken(
        rt,
        inputs,
        request.files,
        request.reading,
        filter,
        visitor,
        follower,
    ))
}

/// Shows a visitor what a filter takes of files. The follower is told of those that are followed.
pub fn read_taken<
    'a,
    S: Inputs,
    R: Clock + Eprint + AllocGlobal,
    T: Visitor + Refusing + Drop,
    F: Follower<T>,
>(
    rt: &'a R,
    inputs: &S,
    files: &[&'a str],
    reading: Reading,
    filter: Filter,
    visitor: T,
    follower: &mut F,
) -> (Outcome, T)
    ensures shown { ShowsTaken T.visits T.refuses T.refusals filter reading.is_verified reading.is_followed (λ name. S.bytes inputs.now name.now) files.now visitor result.0 result.1 }
    ensures rested { HasRested F.rests follower.old follower.new }
{
    let filtered = PayloadFiltered::new(rt.alloc(), CONTENT_LIMIT, filter, visitor);
    let reported = Reported::new(rt, filtered);
    let (outcome, behind) = read_all_files(rt, inputs, files, reading, reported, follower);
    report_left_out(rt, behind.filtered.state.left_out);
    (outcome, behind.filtered.visitor)
}
