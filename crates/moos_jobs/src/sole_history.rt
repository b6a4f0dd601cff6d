// Scripts that have one history.
ghost use Rattle.moos_jobs.specs.SoleHistory.{RisingIsSole};

/// What holds of scripts, whatever they say: if no two lines have one stamp, there is one history in the order of the stamps.
/// It does nothing.
pub fn sole_history_law()
    ensures { RisingIsSole }
{}
