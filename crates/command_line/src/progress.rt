//! The option `--progress`: the progress of a run, on standard error.

use crate::tally::Tally;
use block_sim::Job;
use byte_output::put_all;
use patterns::Tests;
use report::{Gate, MAX_WORKERS, Out, ReasonCounts, Verdicts, Watch};
use std::alloc::{AllocError, Global};
use std::sync::Mutex;
use std::sync::atomic::{AtomicU64, Ordering};

/// The gate watches one piece in this number: it watches a piece if its class and its block have
/// the same remainder. A note for each piece would cost more than some pieces do.
const EVERY: u32 = 64;

/// The number of watched pieces that worker 0 passes from one look at the figure to the next. They
/// stand for 3,200,000 pieces, which take 0.1 s if each takes little work.
const BETWEEN: u64 = 50_000;

/// Returns a number.
fn get(number: &AtomicU64) -> u64 {
    number.load(Ordering::SeqCst)
}

/// Changes a number.
fn set(number: &AtomicU64, value: u64) {
    number.store(value, Ordering::SeqCst);
}

/// The progress of a worker, from its watched pieces. Only the worker writes here, and there is
/// room after it, so no two workers write to one cache line.
#[derive(Drop)]
struct Place {
    /// The pieces that it has settled.
    settled: AtomicU64,
    /// The settled pieces of the stretches that it has run.
    done: AtomicU64,
    /// The classes of the stretch that it runs: the watched ones at block 0, because it comes to
    /// all of them there.
    classes: AtomicU64,
    /// The current block of the worker, counted from the first of the window.
    block: AtomicU64,
    /// The watched pieces that it has passed.
    passed: AtomicU64,
    _room: [u64; 11],
}

impl Place {
    fn new() -> Place {
        Place {
            settled: AtomicU64::new(0),
            done: AtomicU64::new(0),
            classes: AtomicU64::new(0),
            block: AtomicU64::new(0),
            passed: AtomicU64::new(0),
            _room: [0; 11],
        }
    }

    /// Notes a piece on a block, of this number of blocks. A worker visits the classes of a part
    /// block after block, so a block before the last one is in a new part, and all pieces of the
    /// part before are settled.
    fn note(&self, block: u64, blocks: &AtomicU64) {
        let before = get(&self.block);
        if block > 0 && block == before {
            return;
        }
        if block < before {
            let part = get(&self.classes).saturating_mul(get(blocks));
            set(&self.done, get(&self.done).saturating_add(part));
            set(&self.classes, 0);
        }
        if block == 0 {
            set(&self.classes, get(&self.classes).saturating_add(1));
        }
        set(&self.block, block);
        let part = get(&self.classes).saturating_mul(block.max(1));
        set(&self.settled, get(&self.done).saturating_add(part));
    }

    /// Forgets all, for the stretches of the next window.
    fn begin(&self) {
        for number in [&self.settled, &self.done, &self.classes, &self.block] {
            set(number, 0);
        }
    }

    /// Returns whether the worker has passed enough pieces for another look at the figure.
    fn is_time(&self) -> bool {
        let passed = get(&self.passed);
        set(&self.passed, passed.wrapping_add(1));
        passed % BETWEEN == BETWEEN - 1
    }
}

/// The pen that draws the line.
#[derive(Drop)]
struct Pen<'a, E> {
    err: &'a mut E,
    alloc: Global,
    /// The figure that was drawn last.
    percent: u64,
    /// Whether the last line has no end.
    open: bool,
}

impl<'a, E: Out> Pen<'a, E> {
    /// Draws how many of the pieces are settled, if the figure has changed.
    fn draw(&mut self, settled: u64, pieces: u64) {
        let percent = settled.saturating_mul(100) / pieces.max(1);
        if percent != self.percent {
            self.percent = percent;
            self.put(settled, pieces, percent, "");
        }
    }

    /// Writes the line, from the beginning of the line before it. It leaves out a line that fails.
    fn put(&mut self, settled: u64, pieces: u64, percent: u64, end: &str) {
        self.open = true;
        let text = format!(in self.alloc; "\r{settled} of {pieces} pieces, {percent}%{end}");
        if let Ok(line) = text {
            let _ = put_all(line.as_bytes(), self.err);
        }
    }

    /// Ends the line, if there is one.
    fn end_line(&mut self) {
        if self.open {
            self.open = false;
            let _ = put_all(b"\n", self.err);
        }
    }
}

/// A gate that lets every piece pass, and draws how many are settled, from the watched ones. Each
/// worker counts in a place of its own, and worker 0 draws.
#[derive(Drop)]
pub(crate) struct Progress<'a, E> {
    places: Vec<Place>,
    classes: AtomicU64,
    pieces: AtomicU64,
    /// The first block of the window.
    first: AtomicU64,
    /// The number of blocks of the window.
    blocks: AtomicU64,
    pen: Mutex<Pen<'a, E>>,
    tally: &'a Tally,
}

impl<'a, E: Out> Progress<'a, E> {
    /// Makes the gate of a run by any number of workers.
    pub(crate) fn new(
        alloc: Global,
        tally: &'a Tally,
        err: &'a mut E,
    ) -> Result<Progress<'a, E>, AllocError> {
        let mut places = Vec::with_capacity(alloc, MAX_WORKERS as usize)?;
        for _worker in 0..MAX_WORKERS {
            places.push(Place::new())?;
        }
        Ok(Progress {
            places,
            classes: AtomicU64::new(0),
            pieces: AtomicU64::new(0),
            first: AtomicU64::new(0),
            blocks: AtomicU64::new(0),
            pen: Mutex::new(Pen {
                err,
                alloc,
                percent: 0,
                open: false,
            }),
            tally,
        })
    }

    /// Ends the line, if the run didn't end it.
    pub(crate) fn close(&self) {
        if let Some(mut pen) = self.pen.try_lock() {
            pen.end_line();
        }
    }

    /// Returns how many of the pieces are settled: those before the window, and in it as many as
    /// the watched ones stand for.
    fn settled(&self, pieces: u64) -> u64 {
        let mut watched = 0u64;
        for place in &self.places {
            watched = watched.saturating_add(get(&place.settled));
        }
        let classes = get(&self.classes);
        let before = classes.saturating_mul(get(&self.first));
        let most = classes.saturating_mul(get(&self.blocks));
        let here = watched.saturating_mul(u64::from(EVERY)).min(most);
        before.saturating_add(here).min(pieces)
    }

    /// Begins a window of these blocks.
    fn begin(&self, first: u64, blocks: u64) {
        for place in &self.places {
            place.begin();
        }
        set(&self.first, first);
        set(&self.blocks, blocks);
    }

    /// Notes a watched piece. This is a function of its own, so that each other piece only costs a
    /// comparison.
    #[inline(never)]
    fn note(&self, worker: u32, block: u32) {
        let Some(block) = u64::from(block).checked_sub(get(&self.first)) else {
            return;
        };
        if let Some(place) = self.places.get(worker as usize) {
            place.note(block, &self.blocks);
            if worker == 0 && place.is_time() {
                self.look();
            }
        }
    }

    /// Draws the progress of the run.
    fn look(&self) {
        let pieces = get(&self.pieces);
        let settled = self.settled(pieces);
        if let Some(mut pen) = self.pen.try_lock() {
            pen.draw(settled, pieces);
        }
    }
}

impl<E: Out> Gate for Progress<'_, E> {
    ghost passing = { λ _. Unit {0} };

    ghost stops = { λ _. record { may = λ _ _ _. ⊥; must = λ _ _ _. ⊥ } };

    fn pass(&self, worker: u32, class: u32, block: u32) -> bool {
        if class % EVERY != block % EVERY {
            return true;
        }
        self.note(worker, block);
        true
    }

    fn lets_all_pass(&self) -> bool {
        true
    }

    fn opens(&self, first: u32, end: u32) {
        self.begin(u64::from(first), u64::from(end.saturating_sub(first)));
        self.look();
    }
}

impl<E: Out> Watch for Progress<'_, E> {
    fn starts(&self, classes: u32, blocks: u32) {
        let pieces = u64::from(classes) * u64::from(blocks);
        self.begin(0, u64::from(blocks));
        set(&self.classes, u64::from(classes));
        set(&self.pieces, pieces);
        if let Some(mut pen) = self.pen.try_lock() {
            pen.put(0, pieces, 0, "");
        }
    }

    fn ends(&self) {
        if let Some(mut pen) = self.pen.try_lock() {
            let pieces = get(&self.pieces);
            pen.put(pieces, pieces, 100, "\n");
            pen.open = false;
        }
    }

    fn finds(&self, job: &Job, tests: &Tests, verdicts: &Verdicts) {
        self.tally.finds(job, tests, verdicts);
    }

    fn explains(&self, counts: ReasonCounts) {
        self.tally.explains(counts);
    }
}
