//! What follows of lists of events.
ghost use Rattle.binlog_events.specs.Laws.{OneList, FileIsListed};

/// Bytes have one list, and one first fault.
pub fn one_list()
    ensures { OneList }
{}

/// Of a file the list is that of its events, and there is no fault.
pub fn file_is_listed()
    ensures { FileIsListed }
{}
