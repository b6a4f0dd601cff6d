// What a verdict comes to, and what holds of reports that are judged.
ghost use Rattle.std.specs.Prelude.{◌≡◌, ◌≢◌, ◌<◌, ◌≤◌, ℕ, List};
ghost use Rattle.moos_verdict.specs.Asked.{ReportsAsk};
ghost use Rattle.moos_verdict.specs.Cases.{BeginsReportIn, Case, IsReportIn};
ghost use Rattle.moos_verdict.specs.declared.verdict.Verdict.{Verdict};
ghost use Rattle.moos_verdict.specs.declared.verdict.Verdict.TheVariants.{Accepted, NotLawful};
ghost use Rattle.moos_verdict.specs.Judged.{IsJudgedAs};
ghost use Rattle.moos_verdict.specs.Lines.{first_lines};
ghost use Rattle.moos_verdict.specs.Scheduled.{LawfulIsScheduled, ScheduledIsLawful};

use moos_report::parts_law;

/// What holds of verdicts: a text that is accepted is the report of a lawful history, and one that gets another verdict isn't. No text gets
/// two verdicts. If one isn't lawful behind so many lines, its first lines begin the report of a lawful history up to so many, and with more
/// they begin none. It does nothing.
pub fn verdict_law()
    ensures accepted { (case : Case) (text : List ℕ) → IsJudgedAs case text Accepted → IsReportIn case text }
    ensures refused { (case : Case) (text : List ℕ) (verdict : Verdict) → verdict ≢ Accepted → IsJudgedAs case text verdict → IsReportIn case text → ⊥ }
    ensures sole { (case : Case) (text : List ℕ) (one other : Verdict) → IsJudgedAs case text one → IsJudgedAs case text other → one ≡ other }
    ensures up_to { (case : Case) (text : List ℕ) (good count : ℕ) → IsJudgedAs case text (NotLawful good) → count ≤ good → BeginsReportIn case (first_lines count text) }
    ensures beyond { (case : Case) (text : List ℕ) (good count : ℕ) → IsJudgedAs case text (NotLawful good) → good < count → BeginsReportIn case (first_lines count text) → ⊥ }
{}

/// What holds of reports: behind what was printed so far a report goes on with the line of the next entry. It does nothing.
pub fn asked_law()
    ensures { ReportsAsk }
{
    parts_law();
}

/// What is lawful in a case is lawful for its schedule, so each of its entries may come next behind those before it; and what is
/// lawful for the schedule is lawful in the case. It does nothing.
pub fn scheduled_law()
    ensures scheduled { LawfulIsScheduled }
    ensures lawful { ScheduledIsLawful }
{}
