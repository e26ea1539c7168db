//! The law over runs. The function is there for the theorems that its contract states, and does nothing.
ghost use Rattle.history.specs.Laws.{MarksAnswered, MessagesAnswered, RepliesAreAnswers, RunsOrderFree, AcceptedAreRuns, StampsDecide, PayloadFree};

/// For every size and every list of calls handed to a new board, whatever cells carry beside clock and flag (V, W):
/// - marks: each accepted mark was answered its own number and the units of its immediate predecessors, and its unit's clocks are its stamp;
/// - messages: each accepted send or receipt was answered the number of its unit's marks so far;
/// - outcomes: the replies that each unit got are the answers to its accepted calls, in their order;
/// - order: the same accepted calls unit by unit give the same answers and the same board, and one more call keeps it so;
/// - accepted: a call is accepted exactly when a real run could make it, so the accepted lists are the runs;
/// - stamps: the stamps of two marks decide their causal order;
/// - payload: refusals, clocks, flags and messages do not depend on what cells carry.
pub fn law_of_runs<V, W>()
    ensures marks { MarksAnswered V }
    ensures messages { MessagesAnswered V }
    ensures outcomes { RepliesAreAnswers V }
    ensures order { RunsOrderFree V }
    ensures accepted { AcceptedAreRuns V }
    ensures stamps { StampsDecide }
    ensures payload { PayloadFree V W }
{}
