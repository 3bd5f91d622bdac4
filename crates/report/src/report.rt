//! The texts that the program writes: the report of a run, and the list of faults and classes.

ghost use Rattle.std.specs.Prelude.{◌≡◌, ◌<◌, ◌≤◌, ◌*◌, ◌/◌, ◌++◌, [], codes, length};
ghost use Rattle.std.specs.Prelude.{slice_get, Some};
ghost use Rattle.std.specs.Prelude.{is_some, zip, decimal, if◌then◌else◌};
ghost use Rattle.std.specs.List.{flat_map};
ghost use Rattle.bench_net.specs.Scan.{cells};
ghost use Rattle.fault_model.specs.Fault.{Fault, faults};
ghost use Rattle.fault_model.specs.Collapse.{AreClassesOf};
ghost use Rattle.byte_output.specs.Output.{Writes};
ghost use Rattle.workers.specs.Verdict.{detected_count};
ghost use Rattle.report.specs.Report.{cell_text, class_line};
ghost use Rattle.report.specs.Report.{defect_text, fault_text, fault_lines, first_text, report};
ghost use Rattle.report.specs.Report.{listing};
ghost use Rattle.report.specs.Report.{class_coverage_line, class_firsts, coverage_of, first_at};
ghost use Rattle.report.specs.Report.{contents_of, coverage_line, lines_between, whole_report};

use crate::contents::{Contents, Lines};
use bench_net::Circuit;
use block_sim::Job;
use byte_output::{Out, OutFailed, put_all, put_pieces};
use fault_model::laws::stems;
use fault_model::{Classes, Faults, Line, Model};
use itoa::Buffer;
use job_loading::ReportFault;
use workers::Verdicts;

/// Returns the name of the signal that a cell drives. Cells count from 0.
fn cell_name(circuit: &Circuit, cell: u32) -> &str
    requires { cell < length (cells circuit.now) }
    ensures { result.now ≡ cell_text circuit.now cell }
{
    circuit.name_of(circuit.scan_cells()[cell as usize].q)
}

/// Returns the stuck bit or the slow edge of a line, by the model of its fault and the bit, after a
/// space.
fn defect(model: Model, bit: bool) -> &'static str
    ensures { result.now ≡ defect_text model bit }
{
    match (model, bit) {
        (Model::StuckAt, false) => " sa0",
        (Model::StuckAt, true) => " sa1",
        (Model::Transition | Model::TransitionPairs, false) => " str",
        (Model::Transition | Model::TransitionPairs, true) => " stf",
    }
}

/// Returns the hundredths of a percent of a part of a whole, cut off.
pub(crate) fn hundredths(part: u32, whole: u32) -> u64
    requires { 0 < whole }
    ensures { result ≡ 10000 * part / whole }
{
    10_000 * u64::from(part) / u64::from(whole)
}

/// Writes a coverage line, `D of T` and the name of what is counted, ` (P.PP%)`: the percentage is
/// cut off after two decimals. It takes no memory. It is for the crates above, which put lines of
/// reports into texts of their own.
///
/// # Errors
///
/// [`OutFailed`] if the output takes nothing more. It has a beginning of the line.
pub fn put_coverage<'a, W: Out>(
    detected: u32,
    total: u32,
    counted: &'a str,
    out: &mut W,
) -> Result<(), OutFailed>
    requires { 0 < total }
    ensures { Writes result (W.seen out.old) (W.seen out.new)
        (coverage_of counted.now detected total) }
{
    let hundredths = hundredths(detected, total);
    let decimals = hundredths % 100;
    let mut found = Buffer::new();
    let mut all = Buffer::new();
    let mut whole = Buffer::new();
    let mut tens = Buffer::new();
    let mut ones = Buffer::new();
    let pieces = [
        found.format(detected),
        " of ",
        all.format(total),
        counted,
        " (",
        whole.format(hundredths / 100),
        ".",
        tens.format(decimals / 10),
        ones.format(decimals % 10),
        "%)\n",
    ];
    put_pieces(&pieces, out)
}

/// Writes a text.
#[inline(always)]
fn put_text<'a, W: Out>(text: &'a str, out: &mut W) -> Result<(), OutFailed>
    ensures { Writes result (W.seen out.old) (W.seen out.new) text.now }
{
    put_all(text.as_bytes(), out)
}

/// Writes two texts, one after the other.
#[inline(always)]
fn put_both<'a, W: Out>(first: &'a str, second: &'a str, out: &mut W) -> Result<(), OutFailed>
    ensures { Writes result (W.seen out.old) (W.seen out.new) (first.now ++ second.now) }
{
    put_text(first, out)?;
    put_text(second, out)
}

/// Writes a fault: a line of the circuit by its kind, its name and, after a gap, its place, then
/// the stuck bit or the slow edge.
#[inline(always)]
fn put_words<'a, W: Out>(
    kind: &'a str,
    name: &'a str,
    gap: &'a str,
    place: &'a str,
    defect: &'a str,
    out: &mut W,
) -> Result<(), OutFailed>
    ensures { Writes result (W.seen out.old) (W.seen out.new)
        (kind.now ++ (name.now ++ (gap.now ++ (place.now ++ defect.now)))) }
{
    put_both(kind, name, out)?;
    put_both(gap, place, out)?;
    put_text(defect, out)
}

/// Writes a fault of a list: its line, and the stuck bit or the slow edge. Pins and OUTPUT lines
/// count from 1 in the text.
#[inline(always)]
fn put_fault<W: Out>(
    circuit: &Circuit,
    list: &Faults,
    fault: u32,
    out: &mut W,
) -> Result<(), OutFailed>
    requires list { list.now.list ≡ faults list.now.model circuit.now }
    requires in_range { fault < length list.now.list }
    ensures { (f : Fault) → slice_get list.now.list fault ≡ Some f
        → Writes result (W.seen out.old) (W.seen out.new) (fault_text circuit.now f) }
{
    let wrong = defect(list.model(), list.stuck_of(fault));
    let mut number = Buffer::new();
    match list.line_of(fault) {
        Line::Stem(signal) => {
            let name = circuit.name_of(signal);
            put_words("stem ", name, "", "", wrong, out)
        }
        Line::Pin { gate, pin } => {
            let name = circuit.name_of(gate);
            let place = number.format(u64::from(pin) + 1);
            put_words("pin ", name, " ", place, wrong, out)
        }
        Line::Data { cell } => {
            let name = cell_name(circuit, cell);
            put_words("data ", name, "", "", wrong, out)
        }
        Line::Out { output } => {
            let place = number.format(u64::from(output) + 1);
            put_words("out ", place, "", "", wrong, out)
        }
    }
}

/// Writes a line of the report or of the list of classes: a fault, given by its number from 0, a
/// word and a value. The word ends in a space, or is empty. It takes no memory. It is for the
/// crates above, as [`put_coverage`] is.
///
/// # Errors
///
/// [`OutFailed`] if the output takes nothing more. It has a beginning of the line.
#[inline(always)]
pub fn put_fault_line<'a, W: Out>(
    circuit: &Circuit,
    list: &Faults,
    fault: u32,
    word: &'a str,
    said: &'a str,
    out: &mut W,
) -> Result<(), OutFailed>
    requires list { list.now.list ≡ faults list.now.model circuit.now }
    requires in_range { fault < length list.now.list }
    ensures { (f : Fault) → slice_get list.now.list fault ≡ Some f
        → Writes result (W.seen out.old) (W.seen out.new)
        (fault_text circuit.now f ++ (codes " " ++ word.now ++ said.now ++ codes "\n")) }
{
    put_fault(circuit, list, fault, out)?;
    put_both(" ", word, out)?;
    put_both(said, "\n", out)
}

/// Returns the text of a fault's first test: its number, from 0, or `none`. The digits are in the
/// buffer. It is for the crates above, as [`put_coverage`] is.
pub fn first_text(first: Option<u32>, number: &mut Buffer) -> &str
    ensures { result.now ≡ first_text first }
{
    match first {
        Some(test) => number.format(test),
        None => "none",
    }
}

/// Writes the requested faults of a stretch of the list, each with its first detecting test, or
/// `none`. The stretch has the faults from one number up to another.
pub(crate) fn put_lines<W: Out>(
    circuit: &Circuit,
    list: &Faults,
    verdicts: &Verdicts,
    lines: Lines,
    start: u32,
    end: u32,
    out: &mut W,
) -> Result<(), OutFailed>
    requires list { list.now.list ≡ faults list.now.model circuit.now }
    requires count { length verdicts.now.firsts ≡ length list.now.list }
    requires order { start ≤ end }
    requires within { end ≤ length list.now.list }
    ensures { Writes result (W.seen out.old) (W.seen out.new)
        (lines_between lines circuit.now list.now.list verdicts.now.firsts start end) }
{
    for fault in start..end {
        let first = verdicts.first(fault);
        if !lines.has(first) {
            continue;
        }
        let mut number = Buffer::new();
        let said = first_text(first, &mut number);
        put_fault_line(circuit, list, fault, "", said, out)?;
    }
    Ok(())
}

/// Writes the requested faults of the list, each with its first detecting test, or `none`.
pub(crate) fn put_firsts<W: Out>(
    circuit: &Circuit,
    list: &Faults,
    verdicts: &Verdicts,
    lines: Lines,
    out: &mut W,
) -> Result<(), OutFailed>
    requires list { list.now.list ≡ faults list.now.model circuit.now }
    requires count { length verdicts.now.firsts ≡ length list.now.list }
    ensures { Writes result (W.seen out.old) (W.seen out.new)
        (fault_lines lines list.now.model circuit.now verdicts.now.firsts) }
{
    put_lines(circuit, list, verdicts, lines, 0, list.count(), out)
}

/// Returns whether a test detects a fault of this number.
fn is_detected(verdicts: &Verdicts, fault: u32) -> bool
    ensures { result ≡ is_some (first_at verdicts.now.firsts fault) }
{
    fault < verdicts.total() && verdicts.first(fault).is_some()
}

/// The number of classes whose faults are detected.
pub fn detected_classes(classes: &Classes, verdicts: &Verdicts) -> u32
    ensures { result ≡ detected_count (class_firsts classes.now verdicts.now.firsts) }
{
    let mut found = 0;
    for class in 0..classes.count() {
        if is_detected(verdicts, classes.representative(class)) {
            found += 1;
        }
    }
    found
}

/// Writes each fault of the list with its class.
fn put_classes<W: Out>(
    circuit: &Circuit,
    list: &Faults,
    classes: &Classes,
    out: &mut W,
) -> Result<(), OutFailed>
    requires list { list.now.list ≡ faults list.now.model circuit.now }
    requires count { length classes.now.class_of ≡ length list.now.list }
    ensures { Writes result (W.seen out.old) (W.seen out.new)
        (flat_map (class_line circuit.now) (zip list.now.list classes.now.class_of)) }
{
    for fault in 0..list.count() {
        let mut number = Buffer::new();
        let class = number.format(classes.class_of(fault));
        put_fault_line(circuit, list, fault, "class ", class, out)?;
    }
    Ok(())
}

/// Writes the lines of the requested faults, and then the coverage line.
fn put_report<W: Out>(
    job: &Job,
    verdicts: &Verdicts,
    lines: Lines,
    out: &mut W,
) -> Result<(), OutFailed>
    requires count { length verdicts.now.firsts ≡ length job.now.list.list }
    ensures { Writes result (W.seen out.old) (W.seen out.new)
        (report job.now.list.model job.now.circuit verdicts.now.firsts lines) }
{
    put_firsts(job.circuit(), job.faults(), verdicts, lines, out)?;
    put_total(job, verdicts, out)
}

/// Writes the coverage of all faults.
pub(crate) fn put_total<W: Out>(
    job: &Job,
    verdicts: &Verdicts,
    out: &mut W,
) -> Result<(), OutFailed>
    requires count { length verdicts.now.firsts ≡ length job.now.list.list }
    ensures { Writes result (W.seen out.old) (W.seen out.new)
        (coverage_line (detected_count verdicts.now.firsts) (length verdicts.now.firsts)) }
{
    let signals = job.circuit().signals();
    prove!(signals > 0);
    let detected = verdicts.detected();
    let total = verdicts.total();
    put_coverage(detected, total, "", out)
}

/// Writes the coverage of the classes, if it is requested.
pub(crate) fn put_class_coverage<W: Out>(
    job: &Job,
    verdicts: &Verdicts,
    wanted: bool,
    out: &mut W,
) -> Result<(), OutFailed>
    ensures { Writes result (W.seen out.old) (W.seen out.new)
        (if wanted then class_coverage_line job.now.classes verdicts.now.firsts else []) }
{
    if !wanted {
        return Ok(());
    }
    let classes = job.classes();
    let total = classes.count();
    stems();
    prove!(total > 0);
    put_coverage(detected_classes(classes, verdicts), total, " classes", out)
}

/// Writes the report of a job and of the verdicts of its faults: if `list` is set, each fault with
/// its first detecting test, and then the coverage line. It takes no memory. For other reports call
/// [`write_report_with`].
///
/// # Errors
///
/// [`ReportFault::Write`] if the output takes nothing more. It has a beginning of the report.
pub fn write_report<W: Out>(
    job: &Job,
    verdicts: &Verdicts,
    list: bool,
    out: &mut W,
) -> Result<(), ReportFault>
    requires count { length verdicts.now.firsts ≡ length job.now.list.list }
    ensures { Writes result (W.seen out.old) (W.seen out.new)
        (whole_report job.now.list.model job.now.circuit job.now.classes verdicts.now.firsts
        (contents_of list)) }
{
    write_report_with(job, verdicts, Contents::of_list(list), out)
}

/// Writes the report of a job and of the verdicts of its faults: the requested faults of the list,
/// each with its first detecting test, then the coverage line, and then, if it is requested, the
/// coverage of the classes. It takes no memory.
///
/// # Errors
///
/// [`ReportFault::Write`] if the output takes nothing more. It has a beginning of the report.
pub fn write_report_with<W: Out>(
    job: &Job,
    verdicts: &Verdicts,
    contents: Contents,
    out: &mut W,
) -> Result<(), ReportFault>
    requires count { length verdicts.now.firsts ≡ length job.now.list.list }
    ensures { Writes result (W.seen out.old) (W.seen out.new)
        (whole_report job.now.list.model job.now.circuit job.now.classes verdicts.now.firsts
        contents) }
{
    put_report(job, verdicts, contents.lines, out)?;
    put_class_coverage(job, verdicts, contents.classes, out)?;
    Ok(())
}

/// Writes the name of a fault of a job, as each line of a report and of the list of classes begins:
/// its line, and the stuck bit or the slow edge. It takes no memory.
///
/// # Errors
///
/// [`ReportFault::Write`] if the output takes nothing more. It has a beginning of the name.
pub fn write_fault<W: Out>(job: &Job, fault: u32, out: &mut W) -> Result<(), ReportFault>
    requires { fault < length job.now.list.list }
    ensures { (f : Fault) → slice_get job.now.list.list fault ≡ Some f
        → Writes result (W.seen out.old) (W.seen out.new) (fault_text job.now.circuit f) }
{
    put_fault(job.circuit(), job.faults(), fault, out)?;
    Ok(())
}

/// Writes the list of faults and classes: each fault with its class, then the number of both. It
/// takes no memory.
pub fn write_listing<W: Out>(
    circuit: &Circuit,
    list: &Faults,
    classes: &Classes,
    out: &mut W,
) -> Result<(), ReportFault>
    requires list { list.now.list ≡ faults list.now.model circuit.now }
    requires classes { AreClassesOf list.now.model circuit.now classes.now }
    ensures { Writes result (W.seen out.old) (W.seen out.new)
        (listing list.now.model circuit.now classes.now.class_of
        (length classes.now.representative)) }
{
    put_classes(circuit, list, classes, out)?;
    put_counts(list.count(), classes.count(), out)?;
    Ok(())
}

/// Writes the last line of the list of classes: the number of faults, and of classes.
fn put_counts<W: Out>(faults: u32, classes: u32, out: &mut W) -> Result<(), OutFailed>
    ensures { Writes result (W.seen out.old) (W.seen out.new)
        (decimal faults ++ codes " faults in " ++ decimal classes ++ codes " classes\n") }
{
    let mut all = Buffer::new();
    let mut number = Buffer::new();
    put_pieces(
        &[
            all.format(faults),
            " faults in ",
            number.format(classes),
            " classes\n",
        ],
        out,
    )
}
