//! Inputs with what answers them. These functions do nothing: their clauses are computed from the definitions.
ghost use Rattle.query_model.specs.Rows.{AnswersWhenDue, AnswersInOrderOfDueTicks, CancelsWhatIsNeverDue, RanksByScore, CountsRepeatsOnce, AnswersOverNoDocuments, AnswersOverDocumentsBefore, WeighsDocumentsBefore, NegatesOverDocumentsBefore, RefusesARepeatedId, CancelsBeforeDue, CancelsOnceBehindTheQuery, CancelsNoQueryWithoutDelay, DueLineIsTheFirst, OneLineOrdersByDueTick, RefusesTooManyTicks, AnswersTwoDocuments, AnswersComplements, AnswersByPriority, ReadsCapitals, AnswersACatalogue, UnknownCommandAlone, BadNumberAlone, BadWordAlone, MissingFieldAlone, ExtraFieldAlone, CutsAtLineFeeds, ReadsACutWord, SkipsALastReturn, RefusesBytes, RefusesNoExpression, WritesCanonically, GeneratesLines, SumsUp};

/// Each clause is a row of `specs/Rows.antt`: some lines, and the lines that are to be written for them.
pub fn worked_rows()
    ensures answers_when_due { AnswersWhenDue }
    ensures answers_in_order_of_due_ticks { AnswersInOrderOfDueTicks }
    ensures cancels_what_is_never_due { CancelsWhatIsNeverDue }
    ensures ranks_by_score { RanksByScore }
    ensures counts_repeats_once { CountsRepeatsOnce }
    ensures answers_over_no_documents { AnswersOverNoDocuments }
    ensures answers_over_documents_before { AnswersOverDocumentsBefore }
    ensures weighs_documents_before { WeighsDocumentsBefore }
    ensures negates_over_documents_before { NegatesOverDocumentsBefore }
    ensures refuses_a_repeated_id { RefusesARepeatedId }
    ensures cancels_before_due { CancelsBeforeDue }
    ensures cancels_once_behind_the_query { CancelsOnceBehindTheQuery }
    ensures cancels_no_query_without_delay { CancelsNoQueryWithoutDelay }
    ensures due_line_is_the_first { DueLineIsTheFirst }
    ensures one_line_orders_by_due_tick { OneLineOrdersByDueTick }
    ensures refuses_too_many_ticks { RefusesTooManyTicks }
    ensures answers_two_documents { AnswersTwoDocuments }
    ensures answers_complements { AnswersComplements }
    ensures answers_by_priority { AnswersByPriority }
    ensures reads_capitals { ReadsCapitals }
    ensures answers_a_catalogue { AnswersACatalogue }
    ensures unknown_command_alone { UnknownCommandAlone }
    ensures bad_number_alone { BadNumberAlone }
    ensures bad_word_alone { BadWordAlone }
    ensures missing_field_alone { MissingFieldAlone }
    ensures extra_field_alone { ExtraFieldAlone }
    ensures cuts_at_line_feeds { CutsAtLineFeeds }
    ensures reads_a_cut_word { ReadsACutWord }
    ensures skips_a_last_return { SkipsALastReturn }
    ensures refuses_bytes { RefusesBytes }
    ensures refuses_no_expression { RefusesNoExpression }
    ensures writes_canonically { WritesCanonically }
    ensures generates_lines { GeneratesLines }
    ensures sums_up { SumsUp }
{}
