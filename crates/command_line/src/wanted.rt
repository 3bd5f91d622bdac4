//! What the command line requests of `run`, `curve` and `compact`.

use crate::form::Form;
use crate::part::part_of;
use crate::threshold::{Threshold, read_threshold};
use analysis_reports::{KeptForm, KeptLayout, TestOrder};
use clap::ArgMatches;
use command_options::{
    Misuse, STEEPEST, Split, read_contents, read_format, read_model, read_separator, read_split,
};
use fault_model::Model;
use report::{Limit, Lines};
use tables::{FurtherColumns, View};

/// What the command line requests of a run.
#[derive(Clone, Copy)]
pub(crate) struct Wanted {
    pub(crate) form: Form,
    pub(crate) split: Split,
    pub(crate) threshold: Option<Threshold>,
}

/// Returns what the command line requests of `run`.
pub(crate) fn read_run(matches: &ArgMatches<'_>) -> Result<Wanted, Misuse> {
    let form = read_form(matches)?;
    let split = read_split(matches)?;
    let Some(text) = matches.get_str("part") else {
        let threshold = read_threshold(matches)?;
        return Ok(Wanted {
            form,
            split,
            threshold,
        });
    };
    if split.limit == Limit::None {
        return Err(Misuse::BesidePart);
    }
    match part_of(text) {
        Some(part) => Ok(Wanted {
            form: Form::Part(part),
            split: Split {
                limit: Limit::None,
                stretches: None,
            },
            threshold: None,
        }),
        None => Err(Misuse::Part),
    }
}

/// Returns what the command line requests of `curve`.
pub(crate) fn read_curve(matches: &ArgMatches<'_>) -> Result<Wanted, Misuse> {
    let form = match read_format(matches) {
        Some(format) => Form::View(View::Curve, format),
        None => Form::Curve,
    };
    Ok(Wanted {
        form,
        split: read_split(matches)?,
        threshold: None,
    })
}

/// Returns what the command line requests of `compact`.
pub(crate) fn read_compact(matches: &ArgMatches<'_>) -> Result<Wanted, Misuse> {
    let split = read_split(matches)?;
    let order = read_test_order(matches)?;
    let form = if matches.get_flag("numbers") {
        KeptForm::Numbers
    } else {
        KeptForm::Rows
    };
    Ok(Wanted {
        form: Form::Kept(KeptLayout { order, form }),
        split,
        threshold: None,
    })
}

/// Returns the order of the kept tests, if the model has it.
fn read_test_order(matches: &ArgMatches<'_>) -> Result<TestOrder, Misuse> {
    if matches.get_str("order") != Some(STEEPEST) {
        return Ok(TestOrder::AsListed);
    }
    match read_model(matches)? {
        Model::Transition => Err(Misuse::Order),
        Model::StuckAt | Model::TransitionPairs => Ok(TestOrder::Steepest),
    }
}

/// Returns the output that the command line requests of `run` without `--part`.
fn read_form(matches: &ArgMatches<'_>) -> Result<Form, Misuse> {
    let format = read_format(matches);
    let detections = matches.get_one::<u32>("detections");
    if let Some(most) = detections
        && (format.is_none() || matches.get_flag("histogram"))
    {
        return read_count_form(matches, most);
    }
    let contents = read_contents(matches);
    let why = matches.get_flag("why");
    match (read_separator(matches)?, format) {
        (Some(separator), None) => Ok(Form::Blocks(separator)),
        (Some(separator), Some(format)) => Ok(Form::View(View::Blocks(separator), format)),
        (None, None) if matches.get_flag("blocking") => Ok(Form::Blocking),
        (None, Some(format)) if matches.get_flag("blocking") => {
            Ok(Form::View(View::Blocking, format))
        }
        (None, Some(format)) => {
            let further = FurtherColumns {
                reasons: why,
                detections,
                classes: contents.classes,
            };
            let lines = contents.lines;
            Ok(Form::View(View::Faults { lines, further }, format))
        }
        (None, None) if !why => Ok(Form::Report(contents)),
        (None, None) if contents.lines == Lines::Undetected => Ok(Form::Reasons {
            classes: contents.classes,
        }),
        (None, None) => Err(Misuse::Why),
    }
}

/// Returns the output that the command line requests of `run` for counts up to `most`: a report of
/// detection counts or a histogram.
fn read_count_form(matches: &ArgMatches<'_>, most: u32) -> Result<Form, Misuse> {
    let list = matches.get_flag("list");
    if matches.get_flag("undetected")
        || matches.get_flag("why")
        || matches.get_flag("classes")
        || matches.get_str("fail-under").is_some()
        || matches.get_str("summary").is_some()
    {
        return Err(Misuse::Detections);
    }
    match read_format(matches) {
        Some(_) if list => Err(Misuse::BesideTable),
        Some(format) => Ok(Form::View(View::Histogram { most }, format)),
        None if matches.get_flag("histogram") => Ok(Form::Histogram { most, list }),
        None => Ok(Form::Detections { most, list }),
    }
}
