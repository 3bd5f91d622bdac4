//! The law of the tables of merged runs.

ghost use Rattle.std.specs.Prelude.{[], All, List, ℕ};
ghost use Rattle.bench_net.specs.Refusal.{IsAccepted};
ghost use Rattle.bench_net.specs.Statement.{Statement};
ghost use Rattle.fault_model.specs.Fault.{faults};
ghost use Rattle.part_files.specs.Merging.{MergedRun};
ghost use Rattle.part_files.specs.WholeMerge.{IsMergeOf, IsSomePartDistinguished, IsSomePartOf};
ghost use Rattle.part_files.specs.WholeMerge.{PartedRun};
ghost use Rattle.report.specs.declared.contents.Lines.{Lines};
ghost use Rattle.table_rows.specs.Table.{table_text};
ghost use Rattle.table_rows.specs.declared.rows.Format.{Format};
ghost use Rattle.tables.specs.Tables.{IsFirstTableOf, fault_table, first_values};

use part_files::merged_firsts;

/// States that a merge of the part files of a run gives the table of the run, for the faults of its
/// circuit. The conditions are as in [`part_files::merged_report`].
pub fn merged_table()
    ensures { (run : PartedRun) (first : List ℕ) (others : List (List ℕ)) (merged : MergedRun)
        (lines : Lines) (format : Format) (c : List Statement) → IsSomePartOf run first
        → All (IsSomePartDistinguished run) others → IsMergeOf first others merged
        → IsAccepted run.bench c
        → IsFirstTableOf run.model run.bench run.tests lines format
        (table_text format (fault_table c (faults run.model c) (first_values merged.firsts) lines
        [])) }
{
    merged_firsts();
}
