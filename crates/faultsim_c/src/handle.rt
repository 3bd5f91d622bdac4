//! A handle that C keeps: a job, or none.

ghost use Rattle.std.specs.Prelude.{◌≡◌, ◌≢◌, ◌↔◌, ◌⊎◌, IfNone, IfSome, IsSome, IsTrue, None, Some};
ghost use Rattle.faultsim_c.specs.Calls.{alone_with, job_of};

use crate::held::Held;
use crate::holding::Holding;
use crate::session::Session;
use crate::status::{DONE, MEMORY};
use crate::taken::Taken;
use std::alloc::Global;
use std::mem::replace;

/// A handle: a job, or none. C sets it to zeros before its first use.
#[repr(C)]
pub struct FsJob {
    live: bool,
    pub(crate) held: Held,
    ghost lives: { IsTrue live ↔ IsSome held.holding },
}

/// Makes a handle of no job.
fn none(alloc: Global) -> FsJob
    ensures { result.held.holding ≡ None }
{
    FsJob {
        live: false,
        held: Held::none(alloc),
    }
}

/// Takes the contents out of a handle, if it has a job.
pub(crate) fn take(alloc: Global, job: &mut FsJob) -> Option<Box<Holding>>
    ensures some { IfSome result (λ h. job.old.held.holding ≡ Some h.value) }
    ensures job { IfSome result (λ h. job_of job.old.held.holding ≡ Some h.value.session) }
    ensures none { IfNone result (job.old.held.holding ≡ None) }
    ensures empty { job.new.held.holding ≡ None }
{
    let FsJob { live, held } = replace(job, none(alloc));
    if live {
        Some(held.open().into_box())
    } else {
        held.nothing();
        None
    }
}

/// Puts contents into a handle, and frees its earlier ones.
pub(crate) fn put(alloc: Global, job: &mut FsJob, holding: Box<Holding>)
    ensures { job.new.held.holding ≡ Some holding.value }
{
    drop(take(alloc, job));
    let handle = FsJob {
        live: true,
        held: Held::of(Taken::of(holding)),
    };
    let FsJob { live: _, held } = replace(job, handle);
    held.nothing();
}

/// Gives a handle a session that no other handle shares.
pub(crate) fn give(alloc: Global, job: &mut FsJob, session: Session) -> u32
    ensures done { result ≡ 0 → job.new.held.holding ≡ Some (alone_with session) }
    ensures statuses { (result ≡ 0) ⊎ (result ≡ 2) }
    ensures kept { result ≢ 0 → job.new.held.holding ≡ job.old.held.holding }
{
    let alone = true;
    match Box::new(alloc, Holding { session, alone }) {
        Ok(holding) => {
            put(alloc, job, holding);
            DONE
        }
        Err(_) => MEMORY,
    }
}
