//! Laws of reports. Each function does nothing; its contract is the law.

ghost use Rattle.run_joined.specs.Reports.{BuffersFitRequests, ReportsAgree};

/// In every world of every run the buffer of each ticket has as many bytes as its request.
pub fn buffers_fit_requests()
    ensures { BuffersFitRequests }
{}

/// Where STATUS, LASTP, the sense area and the buffer agree with an unlinked ticket (`ReportAgrees`), the report that Free makes of
/// memory is the one that the moves make of the ticket, whatever its outcome.
pub fn reports_agree()
    ensures { ReportsAgree }
{}
