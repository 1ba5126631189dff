// The report of a capture, to be called from C by the tests and the benchmark: one function over the proved one, with the same contract.
#![tactic(auto)]

ghost use Rattle.feed.specs.Report.{IsReported, reported};

use feed::Summary;
use slots::layout::TABLE;

// As `feed::report`.
#[unsafe(no_mangle)]
pub extern "C" fn capture_report(table: &mut [u8; TABLE], file: &[u8], out: &mut [u8]) -> Summary
    ensures { IsReported (reported table.old file.now out.old) result table.new out.new }
{
    feed::report(table, file, out)
}
