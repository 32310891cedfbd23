//! The command `splice`.

ghost use Rattle.std.specs.Prelude.{◌≡◌, IfOk, IsErrOf, MatchResult};
ghost use Rattle.ghg_outer.specs.Counts.{IsCounted};
ghost use Rattle.ghg_run.specs.Opening.{ReportsMade};
ghost use Rattle.ghg_run.specs.Splicing.{ReadsSeries, ReportsSpliced, Splices, StopsInSeries, refusal_line};
ghost use Rattle.ghg_splice.specs.Laws.{HoldsExactFractions};
ghost use Rattle.ghg_splice.specs.Splice.{splice_of};

use ghg_outer::{Sink, Source};
use ghg_session::report;
use ghg_splice::{MAX_BODY, SpliceRefusal, Spliced, append_refusal};
use ghg_words::{Splicing, Status};
use std::alloc::{AllocError, Global};

/// Reads a series, and writes the body of a submission that enters the years that it lacks, or the line that
/// says why there is none.
pub fn splice<S: Source, W: Sink>(
    alloc: Global,
    splicing: &Splicing,
    input: &mut S,
    out: &mut W,
) -> Status
    ensures run { Splices splicing.now (S.tape input.old) (S.tape input.new) (W.tape out.old)
        (W.tape out.new) result }
    ensures input { IsCounted (S.tape input.old).faults (S.tape input.new).faults
        (result ≡ Status.InputFailed) }
    ensures output { IsCounted (W.tape out.old).faults (W.tape out.new).faults
        (result ≡ Status.OutputFailed) }
{
    match read_series(alloc, input) {
        Ok(series) => report_spliced(alloc, splicing, &series, out),
        Err(status) => status,
    }
}

// Writes what splicing a series gives.
fn report_spliced<W: Sink>(alloc: Global, splicing: &Splicing, series: &[u8], out: &mut W) -> Status
    ensures told { ReportsSpliced
        (splice_of splicing.now.method splicing.now.name splicing.now.unit series.now)
        (W.tape out.old) (W.tape out.new) result }
    ensures counted { IsCounted (W.tape out.old).faults (W.tape out.new).faults
        (result ≡ Status.OutputFailed) }
    ensures holds { HoldsExactFractions splicing.now.method series.now }
{
    match ghg_splice::splice(alloc, splicing.method, splicing.name, splicing.unit, series) {
        Ok(Spliced::Body(text)) => report(out, text.as_slice(), Status::Done),
        Ok(Spliced::Refused(refusal)) => refuse(alloc, out, refusal),
        Err(AllocError) => Status::OutOfMemory,
    }
}

/// How many bytes are read at once.
const BLOCK: usize = 4096;

// The input up to its end, or to one byte more than is spliced.
fn read_series<S: Source>(alloc: Global, input: &mut S) -> Result<Vec<u8>, Status>
    ensures read { MatchResult result
        (λ series. ReadsSeries (S.tape input.old) (S.tape input.new) series.items)
        (StopsInSeries (S.tape input.old) (S.tape input.new)) }
    ensures counted { IsCounted (S.tape input.old).faults (S.tape input.new).faults
        (IsErrOf result Status.InputFailed) }
{
    let mut series = Vec::new(alloc);
    let mut block = [0; BLOCK];
    'blocks: while series.len() <= MAX_BODY {
        let wanted = BLOCK.min(MAX_BODY + 1 - series.len());
        match input.read(&mut block[..wanted]) {
            Ok(0) => return Ok(series),
            Ok(given) => series.extend_from_slice(&block[..given])?,
            Err(_) => return Err(Status::InputFailed),
        }
    }
    Ok(series)
}

// Reports why the series is not spliced.
fn refuse<W: Sink>(alloc: Global, out: &mut W, refusal: SpliceRefusal) -> Status
    ensures reported { ReportsMade (W.tape out.old) (W.tape out.new) (refusal_line refusal)
        Status.SpliceRefused result }
    ensures counted { IsCounted (W.tape out.old).faults (W.tape out.new).faults
        (result ≡ Status.OutputFailed) }
{
    let Ok(line) = refusal_line(alloc, refusal) else {
        return Status::OutOfMemory;
    };
    report(out, &line, Status::SpliceRefused)
}

// The line of a refusal.
fn refusal_line(alloc: Global, refusal: SpliceRefusal) -> Result<Vec<u8>, AllocError>
    ensures { IfOk result (λ line. line.items ≡ refusal_line refusal) }
{
    let mut line = Vec::new(alloc);
    append_refusal(&mut line, refusal)?;
    line.push(b'\n')?;
    Ok(line)
}
