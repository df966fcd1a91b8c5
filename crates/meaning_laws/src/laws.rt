ghost use Rattle.meaning_laws.specs.Past.{NothingRunsAfterPast, PastGivesZeros};
ghost use Rattle.meaning_laws.specs.Copies.{CopyIsTold, CopyHasTheCells};

/// What is past the bound of a loop stays so: no later statement of a list runs, and the words of the whole run are zeros.
pub fn past_ends_all()
    ensures statements { NothingRunsAfterPast }
    ensures run { PastGivesZeros }
{}

/// A struct copy is its cells: what is stored are the cells that were read, and what is read there afterwards are the same.
pub fn struct_copy()
    ensures told { CopyIsTold }
    ensures cells { CopyHasTheCells }
{}
