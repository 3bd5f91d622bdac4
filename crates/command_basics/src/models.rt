//! The fault models by their names.

ghost use Rattle.std.specs.Prelude.{◌≡◌, Some, IfSome};
ghost use Rattle.report.specs.RunIdentity.{model_name};

use fault_model::Model;

/// The fault models by their names on the command line.
pub static MODELS: [&str; 3] = ["stuck", "transition", "transition-pairs"];

/// Returns the model of a name among [`MODELS`], and none for any other name.
pub fn model_named(name: &str) -> Option<Model>
    ensures named { IfSome result (λ m. name.now ≡ model_name m) }
    ensures each { (m : Model) → name.now ≡ model_name m → result ≡ Some m }
{
    match name {
        "stuck" => Some(Model::StuckAt),
        "transition" => Some(Model::Transition),
        "transition-pairs" => Some(Model::TransitionPairs),
        _ => None,
    }
}
