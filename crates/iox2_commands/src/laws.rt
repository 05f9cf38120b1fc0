ghost use Rattle.iox2_commands.specs.Laws.{StepsKeepWellFormed, StepsLift};
ghost use Rattle.iox2_commands.specs.Existence.{EveryListRuns};
ghost use Rattle.iox2_commands.specs.Isolation.{CallsLeaveOthersViews, AlikeStatesStayAlike, SubscribersAreIsolated, ViewsStayAlike};
ghost use Rattle.iox2_commands.specs.Refusals.{RunsWithoutRefusalsAreAmple, SubscribersAreIsolatedWithoutRefusals, ViewsStayAlikeWithoutRefusals};
ghost use Rattle.iox2_commands.specs.RunLaws.{ReachedStatesHoldAtMostWorstCase, WorstCaseOfSlotsGrants};
ghost use Rattle.iox2_commands.specs.RunLaws.{LoansAreGranted, SamplesNameTheirPublisher, ReceivesInOrder};
ghost use Rattle.iox2_commands.specs.RunLaws.{ReadsGiveWhatWasSent};

/// Every step from a well-formed state ends in a well-formed one with the same configuration, and no
/// counter falls, whatever handlers answer and whether or not memory is refused.
pub fn steps_keep_well_formed<T, U>()
    ensures { StepsKeepWellFormed T U }
{}

/// A step on what a domain keeps is a step from each state that it shows, to a state that it shows
/// afterwards.
pub fn steps_lift<T, U>()
    ensures { StepsLift T U }
{}

/// Every list of commands has a run on a new domain with ample memory.
pub fn every_list_runs<T, U>()
    ensures { EveryListRuns T U }
{}

/// In every state that a run from a new domain reaches, the configuration is unchanged, the state is
/// well-formed, and each publisher holds at most the worst case of different messages and loans for the
/// loans that it has out.
pub fn reached_states_hold_at_most_worst_case<T, U>()
    ensures { ReachedStatesHoldAtMostWorstCase T U }
{}

/// In a well-formed state, a static publisher with the worst case of slots grants every loan of permitted
/// length, and can't refuse it, while fewer than its limit are out and the message counter isn't at its
/// end.
pub fn worst_case_of_slots_grants<T, U>()
    ensures { WorstCaseOfSlotsGrants T U }
{}

/// In a well-formed state of a service with elements of one unit, each loan command of permitted length at
/// a static publisher with the worst case of slots, which isn't blocked, has an outcome, and each outcome
/// replies that it is loaned, while fewer loans than the publisher's limit are out and the message counter
/// isn't at its end.
pub fn loans_are_granted<T, U>()
    ensures { LoansAreGranted T U }
{}

/// In a run from any well-formed state, the reply to a receive names the publisher that sent the message
/// before, and so does the message's header.
pub fn samples_name_their_publisher<T, U>()
    ensures { SamplesNameTheirPublisher T U }
{}

/// In a run from any well-formed state, a publisher sends each number once. What a subscriber receives from
/// it is a part of what it sent, in the same order, each message at most once. What is sent to one
/// connection counts as sent.
pub fn receives_in_order<T, U>()
    ensures { ReceivesInOrder T U }
{}

/// In a run from any well-formed state, each sample has one entry, with which its message was sent before
/// it was received. Every read through the sample gives that entry, until the sample is released.
pub fn reads_give_what_was_sent<T, U>()
    ensures { ReadsGiveWhatWasSent T U }
{}

/// With ample memory and no closed subscriber left except the one that looks, a subscriber's receive,
/// `HasSamples`, update, read, release or call on its channels leaves the view of that one as it was.
pub fn calls_leave_others_views<T, U>()
    ensures { CallsLeaveOthersViews T U }
{}

/// With ample memory, one command from two independent states with equal views ends in equal views. Another
/// subscriber that it closes must have borrowed nothing, in either state. If it is the subscriber's own
/// receive, the replies must be equal.
pub fn alike_states_stay_alike<T, U>()
    ensures { AlikeStatesStayAlike T U }
{}

/// With ample memory, static publishers with the worst case of slots that never block, and other
/// subscribers that release their samples before they are closed: a subscriber's view, and all reads
/// through its samples, are the same after a list of commands and after that list with some calls of other
/// subscribers replaced by `Nothing`, as long as its own receives get the same replies.
pub fn subscribers_are_isolated<T, U>()
    ensures { SubscribersAreIsolated T U }
{}

/// At each point of two such runs, after as many commands in one as in the other, the subscriber's view is
/// the same.
pub fn views_stay_alike<T, U>()
    ensures { ViewsStayAlike T U }
{}

/// A run from a new domain in which memory might have been refused, after which the count of refused
/// connections is 0, and that made each port that could be, is a run with ample memory, whatever
/// degradation handlers answer.
pub fn runs_without_refusals_are_ample<T, U>()
    ensures { RunsWithoutRefusalsAreAmple T U }
{}

/// Subscribers are isolated in runs in which memory might have been refused, where the count of refused
/// connections and replies tell that none was.
pub fn subscribers_are_isolated_without_refusals<T, U>()
    ensures { SubscribersAreIsolatedWithoutRefusals T U }
{}

/// The same at each point of such runs.
pub fn views_stay_alike_without_refusals<T, U>()
    ensures { ViewsStayAlikeWithoutRefusals T U }
{}
