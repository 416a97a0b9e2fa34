//! Runs with what they report. This function does nothing: its clauses are computed from the definitions.
ghost use Rattle.fan_model.specs.Rows.{NothingAsked, OneQuery, NeverDue, TwoRankings, TwoPriorities, StoppedBehindAll, StoppedBeforeTheLast, Catalogue, CatalogueStopped, DocumentsBefore, OneCancelled, CancelledIsNotCounted, ManyTasks};

/// Each clause is a row of `specs/Rows.antt`: some lines, and what is reported of a run over them.
pub fn worked_rows()
    ensures nothing_asked { NothingAsked }
    ensures one_query { OneQuery }
    ensures never_due { NeverDue }
    ensures two_rankings { TwoRankings }
    ensures two_priorities { TwoPriorities }
    ensures stopped_behind_all { StoppedBehindAll }
    ensures stopped_before_the_last { StoppedBeforeTheLast }
    ensures catalogue { Catalogue }
    ensures catalogue_stopped { CatalogueStopped }
    ensures documents_before { DocumentsBefore }
    ensures one_cancelled { OneCancelled }
    ensures cancelled_is_not_counted { CancelledIsNotCounted }
    ensures many_tasks { ManyTasks }
{}
