//! The condition of a fault on the test before the one that detects it. A stuck-at fault has none.
//! For a transition fault that test must give the line the bit that the line is slow to leave. In a
//! list of pairs it must also be the launch test of the pair. (Waicukauski, Lindbloom, Rosen and
//! Iyengar, Transition Fault Simulation.)

ghost use Rattle.std.specs.Prelude.{◌≡◌, ◌↔◌, ◌+◌, ◌*◌, ◌<◌, All, Bool, Contains, List, ℕ, suc};
ghost use Rattle.std.specs.Prelude.{Some};
ghost use Rattle.std.specs.Prelude.{[], length, slice_index_or, map};
ghost use Rattle.std.specs.Bool.{Decides};
ghost use Rattle.bench_net.specs.Statement.{Name, Statement};
ghost use Rattle.bench_net.specs.Scan.{names, signal};
ghost use Rattle.bench_net.specs.Circuit.{IsWellFormed};
ghost use Rattle.fault_model.specs.declared.Line.{Line};
ghost use Rattle.fault_model.specs.Fault.{Fault};
ghost use Rattle.fault_model.specs.Detection.{HasBit, IsInitialized, IsSecondOfPair, LooksBack};
ghost use Rattle.fault_model.specs.Detection.{name_on};
ghost use Rattle.fault_model.specs.Solution.{Test};
ghost use Rattle.flat_circuit.specs.GroupRows.{AreFaultFree};
ghost use Rattle.flat_circuit.specs.Origins.{IsStuckOf};
ghost use Rattle.flat_circuit.specs.BlockSpans.{groups};
ghost use Rattle.flat_circuit.specs.Words.{lane};

use crate::job::Job;
use flat_circuit::block_view::GroupWords;
use flat_circuit::origin::origin_of;
use flat_circuit::words::Stuck;

/// Returns the lanes of a group whose test before lets the fault be detected: all lanes for a
/// stuck-at fault. For a transition fault, the test before must give the line the bit that the line
/// is slow to leave. In a list of pairs only the lanes of capture tests remain.
#[inline(always)]
pub fn launch_lanes(job: &Job, group: u32, stuck: Stuck) -> u128
    requires group { group < groups (length job.now.tests.tests) }
    requires stuck { (f : Fault) × IsStuckOf job.now.circuit f stuck }
    ensures { (f : Fault) (k : ℕ) → IsStuckOf job.now.circuit f stuck → k < 128
        → 128 * group + k < length job.now.tests.tests
        → Decides (lane result k) (LooksBack job.now.circuit job.now.tests.tests f.model
        f.line f.stuck (128 * group + k)) }
{
    match stuck.model {
        fault_model::Model::StuckAt => !0,
        fault_model::Model::Transition => initialized_lanes(job, group, stuck),
        fault_model::Model::TransitionPairs => {
            capture_lanes() & initialized_lanes(job, group, stuck)
        }
    }
}

/// Returns the lanes of capture tests. A group has an even number of lanes, so each pair lies in
/// one group, and its capture test has an odd lane.
#[inline(always)]
fn capture_lanes() -> u128
    ensures { (group k : ℕ) → k < 128
        → Decides (lane result k) (IsSecondOfPair (128 * group + k)) }
{
    0xAAAA_AAAA_AAAA_AAAA_AAAA_AAAA_AAAA_AAAA
}

/// Returns the lanes of a group whose test before gives the line of a fault the fault's bit. No
/// test comes before the first one.
fn initialized_lanes(job: &Job, group: u32, stuck: Stuck) -> u128
    requires group { group < groups (length job.now.tests.tests) }
    requires stuck { (f : Fault) × IsStuckOf job.now.circuit f stuck }
    ensures { (f : Fault) (k : ℕ) → IsStuckOf job.now.circuit f stuck → k < 128
        → 128 * group + k < length job.now.tests.tests
        → Decides (lane result k) (IsInitialized job.now.circuit job.now.tests.tests f.line
        f.stuck (128 * group + k)) }
{
    let words = job.words();
    let origin = origin_of(words.circuit, stuck);
    let before = word_before(words, group, origin.carried);
    let fits = if stuck.at_one { before } else { !before };
    let earlier = if group == 0 { !1 } else { !0 };
    fits & earlier
}

/// Returns the fault-free word of the signal at this place, one test earlier: lane `k` has its bit
/// under test `128 * group + k - 1`, if there is one.
fn word_before(words: GroupWords<'_>, group: u32, place: u32) -> u128
    requires group { group < length words.rows.now }
    requires signal { All (λ row. place < length row) (map (λ row. row.items) words.rows.now) }
    ensures { (c : List Statement) (tests : List Test) (k t : ℕ) (line : Line) (n : Name)
        (bit : Bool) → IsWellFormed c
        → AreFaultFree c tests (map (λ row. row.items) words.entry.rows.now)
        → k < 128 → suc t ≡ 128 * group + k
        → name_on c line ≡ Some n → Contains (names c) n → place ≡ signal c n
        → (lane result k ≡ bit) ↔ HasBit c (slice_index_or tests t []) line bit }
{
    let last = if group == 0 {
        0
    } else {
        words.of(group - 1)[place as usize]
    };
    one_lane_up(words.of(group)[place as usize], last)
}

/// Returns the lanes of a word one up, with the last lane of the preceding word in lane 0.
fn one_lane_up(word: u128, last: u128) -> u128
    ensures first { lane result 0 ≡ lane last 127 }
    ensures later { (k : ℕ) → k < 127 → lane result (k + 1) ≡ lane word k }
{
    word << 1 | last >> 127
}
