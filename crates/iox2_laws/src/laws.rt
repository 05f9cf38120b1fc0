ghost use Rattle.iox2_laws.specs.Laws.{FreshIsWellFormed, WorstCaseIsEnough, SizeIsLength};

/// A new domain's state is well-formed, whatever its configuration.
pub fn fresh_is_well_formed<T, U>()
    ensures { FreshIsWellFormed T U }
{}

/// In a well-formed state a publisher holds no more different messages and loans than the worst case for
/// its loans.
pub fn holds_at_most_worst_case<T, U>()
    ensures { WorstCaseIsEnough T U }
{}

/// How many different numbers a list has is the length of any list that has each of them once.
pub fn size_is_length()
    ensures { SizeIsLength }
{}
