ghost use Rattle.iox2_worst_case.specs.FillingCommands.{WorstCaseIsReached, WorstCaseIsLeast};

/// With ample memory, for each fillable configuration, every run of a stated list of commands skips and
/// refuses none, and the publisher that its first command made holds the worst case of messages and loans
/// in the end.
pub fn worst_case_is_reached<T, U>()
    ensures { WorstCaseIsReached T U }
{}

/// With ample memory and any smaller number of slots, each run of that list refuses a loan with
/// `OutOfMemory` while fewer loans than the publisher's limit are out.
pub fn worst_case_is_least<T, U>()
    ensures { WorstCaseIsLeast T U }
{}
