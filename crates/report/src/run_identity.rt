//! The identity of a run in its files: the name of its model.

ghost use Rattle.std.specs.Prelude.{◌≡◌};
ghost use Rattle.report.specs.RunIdentity.{model_name};

use fault_model::Model;

/// Returns the name of a model, as in part files and on the command line.
pub fn model_name(model: Model) -> &'static str
    ensures { result.now ≡ model_name model }
{
    match model {
        Model::StuckAt => "stuck",
        Model::Transition => "transition",
        Model::TransitionPairs => "transition-pairs",
    }
}
