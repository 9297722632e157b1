//! Laws of images, each on a function that does nothing. (Those of files are in the contracts of `open` and `wrap`.)

ghost use Rattle.table_file.specs.Laws.{ActionpointsAreReadAgain, WatchpointsAreReadAgain};

/// Law: from a written table of watchpoints the readers return counts, hash and each watchpoint.
pub fn watchpoints_are_read_again()
    ensures { WatchpointsAreReadAgain }
{}

/// Law: from a written table of actionpoints, in either layout, the readers return counts, hash and each entry.
pub fn actionpoints_are_read_again()
    ensures { ActionpointsAreReadAgain }
{}
