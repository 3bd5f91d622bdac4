//! Rows of blocks, of pins, of the points of a curve, and of the counts of a histogram.

ghost use Rattle.std.specs.Prelude.{All};
ghost use Rattle.analysis_reports.specs.BlockingReports.{HasNames};

use analysis_reports::named_pin;
use bench_net::Circuit;
use block_coverage::BlockRow;
use blocking_pins::BlockingPin;
use report::CurvePoint;
use std::alloc::AllocError;
use table_rows::{Cell, Heading, Rows, add_cells};

/// The rows of blocks.
#[derive(Drop)]
pub(crate) struct BlockRows<'a> {
    pub(crate) heading: Heading<'a>,
    pub(crate) blocks: &'a [BlockRow<'a>],
}

impl Rows for BlockRows<'_> {
    ghost use Rattle.std.specs.Prelude.{map};
    ghost use Rattle.block_coverage.specs.Blocks.{cells_in};
    ghost use Rattle.table_rows.specs.Table.{head_in};
    ghost use Rattle.tables.specs.Lists.{block_row};

    ghost table = { λ own. record {
      head = head_in own.heading;
      rows = map (λ block. block_row (cells_in block)) own.blocks.now;
    } };

    fn heading(&self) -> Heading<'_> {
        self.heading
    }

    fn count(&self) -> usize {
        self.blocks.len()
    }

    fn put_row<'a>(&'a self, row: usize, cells: &mut Vec<Cell<'a>>) -> Result<(), AllocError> {
        let block = self.blocks[row];
        let own = [
            Cell::Words(block.name),
            Cell::Number(u64::from(block.detected)),
            Cell::Number(u64::from(block.faults)),
            Cell::Percent {
                part: block.detected,
                whole: block.faults,
            },
        ];
        add_cells(cells, &own)
    }
}

/// The rows of pins that block effects of faults.
#[derive(Drop)]
pub(crate) struct PinRows<'c, 'a> {
    pub(crate) heading: Heading<'a>,
    pub(crate) circuit: &'c Circuit,
    pub(crate) pins: &'a [BlockingPin],
    ghost named: { All (HasNames circuit.now) pins.now },
}

impl Rows for PinRows<'_, '_> {
    ghost use Rattle.std.specs.Prelude.{map};
    ghost use Rattle.analysis_reports.specs.BlockingReports.{pin_cells};
    ghost use Rattle.table_rows.specs.Table.{head_in};
    ghost use Rattle.tables.specs.Lists.{pin_row};

    ghost table = { λ own. record {
      head = head_in own.heading;
      rows = map (λ pin. pin_row (pin_cells own.circuit.now pin)) own.pins.now;
    } };

    fn heading(&self) -> Heading<'_> {
        self.heading
    }

    fn count(&self) -> usize {
        self.pins.len()
    }

    fn put_row<'a>(&'a self, row: usize, cells: &mut Vec<Cell<'a>>) -> Result<(), AllocError> {
        let pin = named_pin(self.circuit, self.pins[row]);
        let own = [
            Cell::Words(pin.gate),
            Cell::Number(pin.pin),
            Cell::Words(pin.net),
            Cell::Number(u64::from(pin.value)),
            Cell::Number(u64::from(pin.faults)),
            Cell::Number(u64::from(pin.tests)),
        ];
        add_cells(cells, &own)
    }
}

/// The rows of the points of a curve, for a number of faults.
#[derive(Drop)]
pub(crate) struct CurveRows<'a> {
    pub(crate) heading: Heading<'a>,
    pub(crate) points: &'a [CurvePoint],
    pub(crate) faults: u32,
}

impl Rows for CurveRows<'_> {
    ghost use Rattle.std.specs.Prelude.{map};
    ghost use Rattle.table_rows.specs.Table.{head_in};
    ghost use Rattle.tables.specs.Lists.{point_row};

    ghost table = { λ own. record {
      head = head_in own.heading;
      rows = map (point_row own.faults) own.points.now;
    } };

    fn heading(&self) -> Heading<'_> {
        self.heading
    }

    fn count(&self) -> usize {
        self.points.len()
    }

    fn put_row<'a>(&'a self, row: usize, cells: &mut Vec<Cell<'a>>) -> Result<(), AllocError> {
        let point = self.points[row];
        let own = [
            Cell::Number(u64::from(point.test)),
            Cell::Number(u64::from(point.gained)),
            Cell::Number(u64::from(point.detected)),
            Cell::Percent {
                part: point.detected,
                whole: self.faults,
            },
        ];
        add_cells(cells, &own)
    }
}

/// The rows of the counts from 0 on, each with a number of faults.
#[derive(Drop)]
pub(crate) struct HistogramRows<'a> {
    pub(crate) heading: Heading<'a>,
    pub(crate) faults: &'a [u32],
}

impl Rows for HistogramRows<'_> {
    ghost use Rattle.std.specs.Prelude.{map};
    ghost use Rattle.std.specs.List.{enumerate_from};
    ghost use Rattle.table_rows.specs.Table.{head_in};
    ghost use Rattle.tables.specs.Lists.{count_row};

    ghost table = { λ own. record {
      head = head_in own.heading;
      rows = map count_row (enumerate_from 0 own.faults.now);
    } };

    fn heading(&self) -> Heading<'_> {
        self.heading
    }

    fn count(&self) -> usize {
        self.faults.len()
    }

    fn put_row<'a>(&'a self, row: usize, cells: &mut Vec<Cell<'a>>) -> Result<(), AllocError> {
        let own = [
            Cell::Number(row as u64),
            Cell::Number(u64::from(self.faults[row])),
        ];
        add_cells(cells, &own)
    }
}
