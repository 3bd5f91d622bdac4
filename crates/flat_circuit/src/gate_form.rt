//! The kinds of gates in one form, so that evaluating a gate takes no branch on its kind.
ghost use Rattle.flat_circuit.specs.GateForms.{IsFormOf};

use bench_net::Kind;

/// A gate as the AND or the XOR of the words of its pins. An AND may invert each input, and either
/// may invert its output: an OR is an AND with both.
#[derive(Clone, Copy)]
pub struct GateForm {
    pub is_xor: bool,
    pub inverts_inputs: bool,
    pub inverts_output: bool,
}

impl GateForm {
    /// Returns the form of a kind.
    pub fn of(kind: Kind) -> GateForm
        ensures { IsFormOf kind result }
    {
        let (is_xor, inverts_inputs, inverts_output) = match kind {
            Kind::And => (false, false, false),
            Kind::Nand => (false, false, true),
            Kind::Or | Kind::Buff => (false, true, true),
            Kind::Nor | Kind::Not => (false, true, false),
            Kind::Xor => (true, false, false),
            Kind::Xnor => (true, false, true),
        };
        GateForm {
            is_xor,
            inverts_inputs,
            inverts_output,
        }
    }
}
