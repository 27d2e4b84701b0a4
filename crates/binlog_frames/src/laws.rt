//! What follows of files: what is read is in the grammar, and the other way round.
ghost use Rattle.binlog_frames.specs.Laws.{OneReading, FoundIsFile, FileIsFound, OneEnd, FaultIsNoFile, FaultStays, FaultPlace, DamageShows};

/// Bytes are a file of one row of events at most.
pub fn one_reading()
    ensures { OneReading }
{}

/// What is read to the end is a file of these events.
pub fn found_is_file()
    ensures { FoundIsFile }
{}

/// A file is read to its end.
pub fn file_is_found()
    ensures { FileIsFound }
{}

/// Bytes end in one way.
pub fn one_end()
    ensures { OneEnd }
{}

/// Bytes with a fault are no file.
pub fn fault_is_no_file()
    ensures { FaultIsNoFile }
{}

/// A fault that `front` gave is one, whatever comes.
pub fn fault_stays()
    ensures { FaultStays }
{}

/// Bytes of which at most 32 bits in a row are not those of an event, its checksum's too, are no event in that place, by
/// `sealed_bursts_show` of crc32.
pub fn damage_shows()
    ensures { DamageShows }
{}

/// The events before a fault are those of the grammar, and its offset is where what is left begins.
pub fn fault_place()
    ensures { FaultPlace }
{}
