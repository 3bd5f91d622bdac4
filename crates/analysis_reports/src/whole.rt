//! A text that is written in one piece.

ghost use Rattle.byte_output.specs.Output.{Writes};

use byte_output::{Out, put_all};
use job_loading::ReportFault;

/// Writes a text.
pub(crate) fn put_text<W: Out>(text: &[u8], out: &mut W) -> Result<(), ReportFault>
    ensures { Writes result (W.seen out.old) (W.seen out.new) text.now }
{
    Ok(put_all(text, out)?)
}
