//! Laws: what is listed after a verdict is all there is, and no sources share a key whose marks are of one source each. A function's
//! contract is a law, and its body is empty.
ghost use Rattle.audit.specs.Others.{FaultsAreAll};
ghost use Rattle.audit.specs.Owned.{PartsAreApart};

/// The list after the verdict has each other GTID under which a journal has another transaction than the world, each other journal that
/// begins after the opening set, each other missing GTID, each other shared key, each other GTID that is in a journal without the nearest
/// earlier one at some key and, if that is the verdict, each other source of which a transaction does not apply, and nothing else.
pub fn faults_are_all()
    ensures { FaultsAreAll }
{}

/// If in each part of the marks (`are_own`) no mark that entries touch (`touches_in`) has two sources, no two sources touch a key.
pub fn parts_are_apart()
    ensures { PartsAreApart }
{}
