// Laws of reports: what one tells can't be told of another history.
ghost use Rattle.moos_report.specs.Parts.{FrontsStay, PartsAddUp};
ghost use Rattle.moos_report.specs.Report.{ReportsTellTheirEnd, ReportsTell, TwoReportsTell};

/// What holds of reports: communities of which one report is printed have the same clients and the same history, whatever
/// the iterations that are printed with them. It does nothing.
pub fn report_law()
    ensures { ReportsTell }
{}

/// What holds of reports with a text behind them: if two such texts are the same, the reports tell the same clients and the same
/// history, and what follows them is the same, whatever it is. So two reports in a row tell two histories. It does
/// nothing.
pub fn reports_law()
    ensures end { ReportsTellTheirEnd }
    ensures two { TwoReportsTell }
{}

/// What holds of a report that is written while its history grows: what is written up to a place and the part behind it are
/// what is written of both; and the report of each history that goes on from there begins with it. It does nothing.
pub fn parts_law()
    ensures parts { PartsAddUp }
    ensures fronts { FrontsStay }
{}
