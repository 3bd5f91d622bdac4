//! Runs, from the files of the command line to the output.

ghost use Rattle.std.specs.Prelude.{◌≡◌, ◌&&◌, IfErr, IfNone, IfOk, IfSome, IsSome};
ghost use Rattle.std.specs.Prelude.{is_some, string_bytes, true};
ghost use Rattle.bench_net.specs.Refusal.{IsAccepted};
ghost use Rattle.block_sim.specs.Parts.{BelongTogether};
ghost use Rattle.job_loading.specs.Jobs.{IsJobOf};
ghost use Rattle.job_loading.specs.Limits.{IsWithinLimit};
ghost use Rattle.job_loading.specs.Sums.{sum_text};
ghost use Rattle.report.specs.EndToEnd.{WritesOneOf};
ghost use Rattle.command_line.specs.Form.{AreBytes, IsBeforeOutput, IsFormForSome, IsFormOf};
ghost use Rattle.command_line.specs.Form.{NeedsSums, bench_of, bench_sum, test_sum, tests_of};
ghost use Rattle.command_line.specs.Form.{text_of};
ghost use Rattle.command_options.specs.Options.{NamesModel};

use crate::form::{Form, needs_sums, write_form_of_run};
use crate::inputs::{InputFile, check_names, check_opened};
use crate::progress::Progress;
use crate::status::CommandError;
use crate::tally::{Found, Tally};
use block_sim::JobFault;
use clap::ArgMatches;
use command_basics::Source;
use command_options::{Split, read_crew, read_model, read_workers};
use fault_model::Model;
use input_check::{Answer, check_texts};
use job_loading::{FileSums, LONG_TESTS, Limit, RunJob, read_run, read_run_in_pieces, sum_of};
use report::{Out, SimFault, Watch};
use std::alloc::{AllocError, Global};
use std::fs::File;
use std::io::Read;
use std::sync::Wait;
use std::thread::Threads;

/// The test file of a run.
#[derive(Drop)]
pub(crate) enum TestFile<'b, F: Drop> {
    /// All its bytes.
    Bytes(&'b [u8]),
    /// A file of `size` bytes, which is read piece by piece, so that its bytes are never all in
    /// memory.
    Pieces { file: F, size: u64 },
}

impl<'b, F: Drop> TestFile<'b, F> {
    /// Returns all its bytes, if they are given.
    fn bytes(&self) -> Option<&'b [u8]> {
        match self {
            TestFile::Bytes(bytes) => Some(bytes),
            TestFile::Pieces { .. } => None,
        }
    }
}

/// The inputs of a run.
#[derive(Drop)]
pub(crate) struct Inputs<'b, F: Drop> {
    pub(crate) model: Model,
    pub(crate) bench: &'b [u8],
    pub(crate) tests: TestFile<'b, F>,
    pub(crate) split: Split,
    /// Whether the sums of both files are wanted.
    pub(crate) is_summed: bool,
    pub(crate) workers: u32,
}

/// The sums of the two files of a run.
#[derive(Drop)]
pub(crate) struct Sums {
    pub(crate) bench: String,
    pub(crate) tests: String,
}

impl Sums {
    /// Lends the sums.
    pub(crate) fn words(&self) -> FileSums<'_>
        ensures bench { result.bench.now ≡ string_bytes self.now.bench }
        ensures tests { result.tests.now ≡ string_bytes self.now.tests }
    {
        FileSums {
            bench: self.bench.as_str(),
            tests: self.tests.as_str(),
        }
    }
}

/// What a run leaves beside its output.
#[derive(Drop)]
pub(crate) struct Outcome {
    pub(crate) found: Found,
    /// The sums of both files, if they were wanted.
    pub(crate) sums: Option<Sums>,
    pub(crate) workers: u32,
}

/// Runs the command line, and writes the output. It reads a long test file piece by piece, and any
/// other one whole. It reads both files before it checks either.
pub(crate) fn write_form<R: Threads + Wait, S: Source, W: Out, E: Out + Send>(
    rt: &R,
    alloc: Global,
    matches: &ArgMatches<'_>,
    form: Form,
    split: Split,
    is_summed: bool,
    files: &mut S,
    out: &mut W,
    err: &mut E,
) -> Result<Outcome, CommandError> {
    let bench = InputFile::Bench.read(alloc, matches, files)?;
    let done = match open_inputs(alloc, matches, &bench, split, is_summed, files)? {
        Some(inputs) => write_inputs(rt, alloc, matches, inputs, form, files, out, err)?,
        None => None,
    };
    match done {
        Some(outcome) => Ok(outcome),
        None => write_whole(
            rt, alloc, matches, &bench, form, split, is_summed, files, out, err,
        ),
    }
}

/// Runs with all bytes of both files, of which the bench file is read, and writes the output.
fn write_whole<R: Threads + Wait, S: Source, W: Out, E: Out + Send>(
    rt: &R,
    alloc: Global,
    matches: &ArgMatches<'_>,
    bench: &[u8],
    form: Form,
    split: Split,
    is_summed: bool,
    files: &mut S,
    out: &mut W,
    err: &mut E,
) -> Result<Outcome, CommandError> {
    let tests = InputFile::Tests.read(alloc, matches, files)?;
    let inputs = whole_inputs(alloc, matches, bench, &tests, split, is_summed)?;
    match write_inputs(rt, alloc, matches, inputs, form, files, out, err)? {
        Some(outcome) => Ok(outcome),
        None => unreachable!(),
    }
}

/// Opens the test file that the command line names, if it is long, and checks the names of its
/// columns. Returns none if its front can't be read.
fn open_inputs<'b, S: Source>(
    alloc: Global,
    matches: &ArgMatches<'_>,
    bench: &'b [u8],
    split: Split,
    is_summed: bool,
    files: &S,
) -> Result<Option<Inputs<'b, File>>, CommandError>
    ensures model { IfOk result (λ found.
        IfSome found (λ inputs. NamesModel matches.now inputs.model)) }
    ensures split { IfOk result (λ found.
        IfSome found (λ inputs. inputs.split ≡ split)) }
{
    let model = read_model(matches)?;
    let workers = read_workers(matches)?;
    let Some(path) = InputFile::Tests.path(matches) else {
        return Ok(None);
    };
    let Some((file, size)) = files.open(path) else {
        return Ok(None);
    };
    if size < LONG_TESTS {
        return Ok(None);
    }
    match check_opened(alloc, path, bench, files) {
        Some(checked) => checked?,
        None => return Ok(None),
    }
    Ok(Some(Inputs {
        model,
        bench,
        tests: TestFile::Pieces { file, size },
        split,
        is_summed,
        workers,
    }))
}

/// Returns the inputs of a run with all bytes of both files, and checks the names of the columns of
/// the test file.
fn whole_inputs<'b>(
    alloc: Global,
    matches: &ArgMatches<'_>,
    bench: &'b [u8],
    tests: &'b [u8],
    split: Split,
    is_summed: bool,
) -> Result<Inputs<'b, File>, CommandError>
    ensures whole { IfOk result (λ inputs. AreBytes inputs.tests) }
    ensures model { IfOk result (λ inputs. NamesModel matches.now inputs.model) }
    ensures split { IfOk result (λ inputs. inputs.split ≡ split) }
{
    check_names(alloc, bench, tests)?;
    let model = read_model(matches)?;
    let workers = read_crew(matches, bench, tests)?;
    Ok(Inputs {
        model,
        bench,
        tests: TestFile::Bytes(tests),
        split,
        is_summed,
        workers,
    })
}

/// Runs with these inputs, and writes the output. Returns what the run leaves, or `None`, with
/// nothing written, if the test file can't be read piece by piece, because of an error in a file,
/// or rows that are not alike.
fn write_inputs<R: Threads + Wait, S: Source, W: Out, E: Out + Send>(
    rt: &R,
    alloc: Global,
    matches: &ArgMatches<'_>,
    inputs: Inputs<'_, File>,
    form: Form,
    files: &mut S,
    out: &mut W,
    err: &mut E,
) -> Result<Option<Outcome>, CommandError>
    ensures { AreBytes inputs.entry.tests → IfOk result IsSome }
{
    let (model, bench, workers) = (inputs.model, inputs.bench, inputs.workers);
    let known = inputs.tests.bytes();
    let draws = matches.get_flag("progress");
    let tally = Tally::new();
    let mut sums = None;
    match write_drawn(rt, alloc, inputs, form, draws, &tally, &mut sums, out, err) {
        None => Ok(None),
        Some(Ok(())) => Ok(Some(Outcome {
            found: tally.found(),
            sums,
            workers,
        })),
        Some(Err(fault)) if is_excess(&fault) => match known {
            Some(tests) => Err(excess_fault(alloc, fault, model, bench, tests)),
            None => {
                let tests = InputFile::Tests.read(alloc, matches, files)?;
                Err(excess_fault(alloc, fault, model, bench, &tests))
            }
        },
        Some(Err(fault)) => Err(CommandError::Sim(fault)),
    }
}

/// Returns whether the error of a run is that of its number of pieces.
fn is_excess(fault: &SimFault) -> bool {
    matches!(fault, SimFault::Job(JobFault::TooManyPieces))
}

/// Returns the error of a run that has too many pieces, with the excess.
fn excess_fault(
    alloc: Global,
    fault: SimFault,
    model: Model,
    bench: &[u8],
    tests: &[u8],
) -> CommandError {
    match check_texts(alloc, model, bench, Some(tests)) {
        Ok(Answer::TooManyPieces(excess)) => CommandError::TooManyPieces(fault, excess),
        _ => CommandError::Sim(fault),
    }
}

/// Runs and writes the output as [`write_run`] does, and draws the progress of the run if `draws`
/// is set.
fn write_drawn<R: Threads + Wait, F: Read + Send + Drop, W: Out, E: Out + Send>(
    rt: &R,
    alloc: Global,
    inputs: Inputs<'_, F>,
    form: Form,
    draws: bool,
    tally: &Tally,
    sums: &mut Option<Sums>,
    out: &mut W,
    err: &mut E,
) -> Option<Result<(), SimFault>>
    ensures some { AreBytes inputs.entry.tests → IsSome result }
    ensures none { IfNone result (W.seen out.new ≡ W.seen out.old) }
    ensures written { IfSome result (λ done. WritesOneOf
        (IsFormForSome inputs.entry.model inputs.entry.bench.now form) done (W.seen out.old)
        (W.seen out.new)) }
    ensures files { IfSome (text_of F.remaining inputs.entry.tests) (λ text.
        IfSome result (λ done. WritesOneOf
        (IsFormOf inputs.entry.model inputs.entry.bench.now text form) done
        (W.seen out.old) (W.seen out.new))) }
{
    if !draws {
        return write_run(rt, alloc, inputs, form, tally, tally, sums, out);
    }
    let Ok(progress) = Progress::new(alloc, tally, err) else {
        return Some(Err(SimFault::Memory));
    };
    let done = write_run(rt, alloc, inputs, form, &progress, tally, sums, out);
    progress.close();
    done
}

/// Reads the files, runs under a gate that lets each piece pass, and writes the output. It notes
/// the sums of the files, if they are wanted. Returns `None`, with nothing written, if the tests
/// can't be read piece by piece.
fn write_run<R: Threads + Wait, F: Read + Send + Drop, G: Watch + Sync, W: Out>(
    rt: &R,
    alloc: Global,
    inputs: Inputs<'_, F>,
    form: Form,
    gate: &G,
    tally: &Tally,
    sums: &mut Option<Sums>,
    out: &mut W,
) -> Option<Result<(), SimFault>>
    requires passing { G.passing gate.now }
    ensures some { AreBytes inputs.entry.tests → IsSome result }
    ensures none { IfNone result (W.seen out.new ≡ W.seen out.old) }
    ensures written { IfSome result (λ done. WritesOneOf
        (IsFormForSome inputs.entry.model inputs.entry.bench.now form) done (W.seen out.old)
        (W.seen out.new)) }
    ensures files { IfSome (text_of F.remaining inputs.entry.tests) (λ text.
        IfSome result (λ done. WritesOneOf
        (IsFormOf inputs.entry.model inputs.entry.bench.now text form) done
        (W.seen out.old) (W.seen out.new))) }
{
    let workers = inputs.workers;
    let stretches = inputs.split.stretches;
    match run_of(rt, alloc, inputs, form)? {
        Ok((made, summed)) => {
            let mut run = made;
            let count = run.stretches(stretches, workers);
            let words = words_of(&summed);
            let done = write_form_of_run(
                rt, alloc, &mut run, count, workers, form, words, gate, tally, out,
            );
            *sums = summed;
            Some(done)
        }
        Err(fault) => Some(Err(fault)),
    }
}

/// Lends sums, if they are known.
fn words_of(sums: &Option<Sums>) -> Option<FileSums<'_>>
    ensures some { is_some result ≡ is_some sums.now }
    ensures bench { bench_sum result ≡ bench_of sums.now }
    ensures tests { test_sum result ≡ tests_of sums.now }
{
    match sums {
        Some(sums) => Some(sums.words()),
        None => None,
    }
}

/// Reads the files, and makes the run of their job, whose tests may stand apart. Returns it with
/// the sums of both files if they are wanted or the output has them. Returns `None` if the tests
/// can't be read piece by piece.
fn run_of<R: Threads + Wait, F: Read + Send + Drop>(
    rt: &R,
    alloc: Global,
    inputs: Inputs<'_, F>,
    form: Form,
) -> Option<Result<(RunJob, Option<Sums>), SimFault>>
    ensures some { AreBytes inputs.entry.tests → IsSome result }
    ensures job { IfSome (text_of F.remaining inputs.entry.tests) (λ text. IfSome result (λ read.
        IfOk read (λ made.
        IsJobOf inputs.entry.model inputs.entry.bench.now text made.0.whole))) }
    ensures circuit { IfSome result (λ read. IfOk read (λ made.
        IsAccepted inputs.entry.bench.now made.0.whole.circuit)) }
    ensures model { IfSome result (λ read. IfOk read (λ made.
        made.0.whole.list.model ≡ inputs.entry.model)) }
    ensures together { IfSome result (λ read. IfOk read (λ made. BelongTogether made.0.whole)) }
    ensures within { IfSome result (λ read. IfOk read (λ made.
        IsWithinLimit inputs.entry.split.limit made.0.whole)) }
    ensures tests { IfSome (text_of F.remaining inputs.entry.tests) (λ text. IfSome result (λ read.
        IfOk read (λ made. IsSome made.1 → tests_of made.1 ≡ sum_text text))) }
    ensures bench { IfSome result (λ read. IfOk read (λ made.
        IsSome made.1 → bench_of made.1 ≡ sum_text inputs.entry.bench.now)) }
    ensures needed { IfSome result (λ read. IfOk read (λ made.
        NeedsSums form → IsSome made.1)) }
    ensures refused { IfSome result (λ read. IfErr read IsBeforeOutput) }
{
    let Inputs {
        model,
        bench,
        tests,
        split,
        is_summed,
        workers,
    } = inputs;
    let limit = split.limit;
    let wants = is_summed || needs_sums(form);
    match tests {
        TestFile::Bytes(tests) => {
            Some(run_of_bytes(rt, alloc, model, bench, tests, wants, limit, workers))
        }
        TestFile::Pieces { file, size } => {
            run_of_pieces(rt, alloc, model, bench, file, size, wants, limit, workers)
        }
    }
}

/// Makes the run of all bytes of both files, as [`run_of`] does.
fn run_of_bytes<R: Threads + Wait>(
    rt: &R,
    alloc: Global,
    model: Model,
    bench: &[u8],
    tests: &[u8],
    is_summed: bool,
    limit: Limit,
    workers: u32,
) -> Result<(RunJob, Option<Sums>), SimFault>
    ensures job { IfOk result (λ made. IsJobOf model bench.now tests.now made.0.whole) }
    ensures within { IfOk result (λ made. IsWithinLimit limit made.0.whole) }
    ensures tests { IfOk result (λ made. IsSome made.1 → tests_of made.1 ≡ sum_text tests.now) }
    ensures bench { IfOk result (λ made. IsSome made.1 → bench_of made.1 ≡ sum_text bench.now) }
    ensures summed { IfOk result (λ made. is_some made.1 ≡ is_summed) }
    ensures refused { IfErr result IsBeforeOutput }
{
    let bench_sum = sum_if(alloc, bench, is_summed)?;
    let test_sum = sum_if(alloc, tests, is_summed)?;
    let run = read_run(rt, alloc, model, bench, tests, limit, true, workers)?;
    Ok((run, both_sums(bench_sum, test_sum)))
}

/// Makes the run of a bench file and of a test file that is read piece by piece, as [`run_of`]
/// does.
fn run_of_pieces<R: Threads + Wait, F: Read + Send + Drop>(
    rt: &R,
    alloc: Global,
    model: Model,
    bench: &[u8],
    file: F,
    size: u64,
    is_summed: bool,
    limit: Limit,
    workers: u32,
) -> Option<Result<(RunJob, Option<Sums>), SimFault>>
    ensures job { IfSome (F.remaining file) (λ text. IfSome result (λ read.
        IfOk read (λ made. IsJobOf model bench.now text made.0.whole))) }
    ensures circuit { IfSome result (λ read. IfOk read (λ made.
        IsAccepted bench.now made.0.whole.circuit)) }
    ensures model { IfSome result (λ read. IfOk read (λ made.
        made.0.whole.list.model ≡ model)) }
    ensures together { IfSome result (λ read. IfOk read (λ made. BelongTogether made.0.whole)) }
    ensures within { IfSome result (λ read. IfOk read (λ made.
        IsWithinLimit limit made.0.whole)) }
    ensures tests { IfSome (F.remaining file) (λ text. IfSome result (λ read.
        IfOk read (λ made. IsSome made.1 → tests_of made.1 ≡ sum_text text))) }
    ensures bench { IfSome result (λ read. IfOk read (λ made.
        IsSome made.1 → bench_of made.1 ≡ sum_text bench.now)) }
    ensures summed { IfSome result (λ read. IfOk read (λ made. is_some made.1 ≡ is_summed)) }
    ensures refused { IfSome result (λ read. IfErr read IsBeforeOutput) }
{
    let bench_sum = sum_if(alloc, bench, is_summed).ok()?;
    let made = read_run_in_pieces(
        rt, alloc, model, bench, file, size, is_summed, limit, true, workers,
    );
    match made? {
        Ok((run, sum)) => Some(Ok((run, both_sums(bench_sum, sum)))),
        Err(fault) => Some(Err(fault)),
    }
}

/// Returns the sum of a text if it is wanted.
fn sum_if(alloc: Global, text: &[u8], is_wanted: bool) -> Result<Option<String>, AllocError>
    ensures sum { IfOk result (λ sum. IfSome sum (λ words.
        string_bytes words ≡ sum_text text.now)) }
    ensures some { IfOk result (λ sum. is_some sum ≡ is_wanted) }
{
    if is_wanted {
        Ok(Some(sum_of(alloc, text)?))
    } else {
        Ok(None)
    }
}

/// Returns both sums, if both are known.
fn both_sums(bench: Option<String>, tests: Option<String>) -> Option<Sums>
    ensures some { is_some result ≡ is_some bench && is_some tests }
    ensures bench { IfSome bench (λ sum. IsSome result → bench_of result ≡ string_bytes sum) }
    ensures tests { IfSome tests (λ sum. IsSome result → tests_of result ≡ string_bytes sum) }
{
    match (bench, tests) {
        (Some(bench), Some(tests)) => Some(Sums { bench, tests }),
        _ => None,
    }
}
