//! The definitions, tried on records of one exchange and of two. Each function is there for its clauses.
ghost use Rattle.hx_record.specs.declared.served.CutCause.TheVariants as cut;
ghost use Rattle.hx_record.specs.declared.served.LeftCause.TheVariants as cause;
ghost use Rattle.std.specs.Prelude.{◌++◌};
ghost use Rattle.hx_record.specs.Covers.{CoversClient, CoversConn, FollowsClient, FollowsConn};
ghost use Rattle.hx_record.specs.CutSamples.{cut_at, own_answer, own_begun, own_of, part_asked, part_carried, RecountsLeft, RecountsOwn};
ghost use Rattle.hx_record.specs.Samples.{begins_at_two, client, closed_untold, closing_answer, ask, answer, first, first_line, gap_in_asks, gap_in_sent, gave_too_short, ask_too_short, leaves_out_two, left_twice, one_asked, one_carried, one_record, other_answer, second, second_as, second_moved, told_after_end, two_asked, two_carried, two_records, Recounts};
ghost use Rattle.hx_record.specs.Tiles.{TilesClient, TilesConn};

/// One exchange: its record is true, and the ranges leave no gap.
fn one_exchange()
    ensures is_true { Recounts first one_asked one_carried }
    ensures client { TilesClient one_record one_asked }
    ensures conn { TilesConn one_record one_carried }
{}

/// Two exchanges on one connection.
fn two_exchanges()
    ensures first_is_true { Recounts first two_asked two_carried }
    ensures second_is_true { Recounts second two_asked two_carried }
    ensures client { TilesClient two_records two_asked }
    ensures conn { TilesConn two_records two_carried }
{}

/// A range that is one byte short, another number, or other bytes make a record false.
fn wrong_records()
    ensures gave_too_short { ¬ Recounts gave_too_short one_asked one_carried }
    ensures ask_too_short { ¬ Recounts ask_too_short one_asked one_carried }
    ensures number_too_low { ¬ Recounts (second_as 1) two_asked two_carried }
    ensures number_too_high { ¬ Recounts (second_as 3) two_asked two_carried }
    ensures other_answer_given { ¬ Recounts first (client ask other_answer) one_carried }
    ensures closed_untold { ¬ Recounts closed_untold (client ask closing_answer) one_carried }
{}

/// What the first record covers, and what stands right behind it.
fn records_follow()
    ensures client { CoversClient one_asked.worker one_asked.session first_line 28 40 1 }
    ensures second { FollowsClient second 28 40 1 }
    ensures gap { ¬ FollowsClient second 27 40 1 }
    ensures told_again { ¬ FollowsClient second 28 40 0 }
    ensures conn { CoversConn one_carried.server one_carried.id first_line 28 40 1 }
    ensures second_on_conn { FollowsConn (second_moved 2) 28 40 1 }
    ensures counted_again { ¬ FollowsConn (second_moved 1) 28 40 1 }
    ensures read_on { ¬ RecountsOwn cause.Own (own_of 503 74) (client (ask ++ ask) own_answer) }
{}

/// A gap between two ranges, a record after the session's end, a second end, or a number that isn't the next: the
/// ranges don't tile.
fn wrong_ranges()
    ensures gap_in_asks { ¬ TilesClient gap_in_asks two_asked }
    ensures gap_in_sent { ¬ TilesConn gap_in_sent two_carried }
    ensures told_after_end { ¬ TilesClient told_after_end two_asked }
    ensures left_twice { ¬ TilesClient left_twice one_asked }
    ensures begins_at_two { ¬ TilesClient begins_at_two one_asked }
    ensures leaves_out_two { ¬ TilesClient leaves_out_two two_asked }
{}

/// An exchange whose answer came in part: the record has all of the part, and its cause is not that it came early.
fn cut_exchange()
    ensures is_true { RecountsLeft cause.Cut (cut_at 41 cut.Ended) part_asked part_carried }
    ensures took_too_short { ¬ RecountsLeft cause.Cut (cut_at 40 cut.Ended) part_asked part_carried }
    ensures not_early { ¬ RecountsLeft cause.Cut (cut_at 41 cut.Early) part_asked part_carried }
{}

/// An answer of the proxy's own is given whole, or in part where the client's link failed.
fn own_answers()
    ensures is_true { RecountsOwn cause.Own (own_of 503 74) (client ask own_answer) }
    ensures in_part { RecountsOwn cause.Fault (own_of 503 12) (client ask own_begun) }
    ensures not_whole { ¬ RecountsOwn cause.Own (own_of 503 12) (client ask own_begun) }
    ensures other_status { ¬ RecountsOwn cause.Own (own_of 502 74) (client ask own_answer) }
{}
