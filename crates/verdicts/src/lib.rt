// The verdict area (01, "Second pass"): five bytes a rule, its fate and both counts.
#![tactic(auto)]

ghost use Rattle.std.specs.Prelude.{◌≡◌, ◌++◌, ◌+◌, ◌≤◌, length, take, drop};
ghost use Rattle.rule.specs.Limits.{most_rules};
ghost use Rattle.verdicts.specs.Verdict.{report_bytes};
ghost use Rattle.verdicts.specs.Code.Written.{reports_over, report_in};
ghost use Rattle.verdicts.specs.Limits.{bytes_each, area_bytes};

use deciding::{Outcome, Report};
use passes::report_of;
use rule_file::RuleFile;

// How many bytes the verdict area has for a rule.
pub const RULE_BYTES: usize = 5;

pub const VERDICT_BYTES: usize = 160;

// Writes a report at a place of the verdict area: fate, first count, second count.
fn write_report(verdicts: &mut [u8], at: usize, report: Report)
    requires { at + bytes_each ≤ length verdicts.old }
    ensures { verdicts.new
        ≡ take at verdicts.old ++ report_bytes report ++ drop (at + bytes_each) verdicts.old }
{
    let first = report.first.to_be_bytes();
    let second = report.second.to_be_bytes();
    let bytes = [report.fate as u8, first[0], first[1], second[0], second[1]];
    verdicts[at..at + RULE_BYTES].copy_from_slice(&bytes);
}

// Writes the reports of the first `count` rules from the start of the verdict area.
pub fn write_reports(
    verdicts: &mut [u8],
    firsts: &[Outcome; RuleFile::MOST_RULES],
    seconds: &[Outcome; RuleFile::MOST_RULES],
    count: usize,
)
    requires { (count ≤ most_rules) × (area_bytes ≤ length verdicts.old) }
    ensures { verdicts.new ≡ reports_over (report_in firsts.now seconds.now) verdicts.old count }
{
    for i in 0..count {
        let report = report_of(firsts[i], seconds[i]);
        write_report(verdicts, RULE_BYTES * i, report);
    }
}
