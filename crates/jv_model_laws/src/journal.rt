//! What holds of every journal that is legal so far. Each law is a function that does nothing.
ghost use Rattle.jv_model_laws.specs.Laws.{ReadsCiteLooks, CleansOnlyInClean, RefusedLinesHaveOneEntry, DropsOnlyGone, ExpiresOnlyGone, DrainsSettleAll, EndedLinesHaveEntries, LinesHaveEntries, ReadsAreOfFreshLooks, AnswersModel, ClosesCommitWrites, NothingPending, FreshViewsAreFreshLooks, SettlesOwed, OwedCommits, JournalsGrow, EarlierTextStays, FollowsClock, MomentsAreTheClocks, UploadsFindAll, OthersStay, EntriesAreCounted, CleansWhatIsDue, MissesHaveCauses};

/// A journal is legal so far if and only if each part of it is, from where the entries before it lead.
pub fn journals_grow()
    ensures { JournalsGrow }
{}

/// What the lines up to a number print stays, whatever later lines do.
pub fn earlier_text_stays()
    ensures { EarlierTextStays }
{}

/// Lines and moments never fall, and no moment is past the last one.
pub fn follows_clock()
    ensures { FollowsClock }
{}

/// Where the clock's answers are known, they and the ticks determine the moment of each entry that asks the clock, and
/// another entry has that of the one before it; entries of uploading threads are left out.
pub fn moments_are_the_clocks()
    ensures { MomentsAreTheClocks }
{}

/// An entry changes nothing of another client.
pub fn others_stay()
    ensures { OthersStay }
{}

/// The entries of a journal are counted.
pub fn entries_are_counted()
    ensures { EntriesAreCounted }
{}

/// The commits that count as owed are those that left blocks staged and that no later entry settled.
pub fn owed_commits()
    ensures { OwedCommits }
{}

/// A publish settles an owed commit, and so at most one settles it. An upload settles those of its own client, and a
/// `drain` those of the client that it names.
pub fn settles_owed()
    ensures { SettlesOwed }
{}

/// A view that counts as fresh is of a look that the client took at that window of the file, after it had opened the
/// file, and since which it has not changed the file. It has the file's bytes as they were just after the look.
pub fn fresh_views_are_fresh_looks()
    ensures { FreshViewsAreFreshLooks }
{}

/// A close, flush, fstat, read, truncate or copy is done only where no byte of its files is pending at the client, and
/// an umount only where none is.
pub fn nothing_pending()
    ensures { NothingPending }
{}

/// Between a write that is done and a close of the file that is done, by one client, stands its commit to each
/// position that was written, unless the client crashed meanwhile, or was answered that its session or the file is gone.
pub fn closes_commit_writes()
    ensures { ClosesCommitWrites }
{}

/// After its metadata transaction an operation is answered, and with the tree's own reply on the state before the
/// transaction.
pub fn answers_model()
    ensures { AnswersModel }
{}

/// A read returns the file's bytes as they were just after the fresh looks that it cites.
pub fn reads_are_of_fresh_looks()
    ensures { ReadsAreOfFreshLooks }
{}

/// Where an entry stands on a later line, each line before has its entries, and no other but those of uploading threads.
pub fn lines_have_entries()
    ensures { LinesHaveEntries }
{}

/// Where no line may be cut off, each line of the script has its entries at the end of the run.
pub fn ended_lines_have_entries()
    ensures { EndedLinesHaveEntries }
{}

/// A `drain` is done only where its client owes no commit.
pub fn drains_settle_all()
    ensures { DrainsSettleAll }
{}

/// Where no threads upload, an `upload` finds no block only where its client owes no commit.
pub fn uploads_find_all()
    ensures { UploadsFindAll }
{}

/// A cleaning ends only sessions whose time has come, and not the cleaner's own.
pub fn expires_only_gone()
    ensures { ExpiresOnlyGone }
{}

/// A `clean` that is done had as many items as one may have, or some request of it found no session that was due for its
/// expiry, and a later one no directory of an hour that was due.
pub fn cleans_what_is_due()
    ensures { CleansWhatIsDue }
{}

/// The row of a removed file is dropped by a cleaning only where the file is gone, and once.
pub fn drops_only_gone()
    ensures { DropsOnlyGone }
{}

/// A line whose operation is refused at its submission has that answer alone, or that memory ran out, and no other entry
/// but those of uploading threads.
pub fn refused_lines_have_one_entry()
    ensures { RefusedLinesHaveOneEntry }
{}

/// Of clients' operations only a `clean` expires sessions, purges and drops rows.
pub fn cleans_only_in_clean()
    ensures { CleansOnlyInClean }
{}

/// A read that is done is answered with the looks that it cites.
pub fn reads_cite_looks()
    ensures { ReadsCiteLooks }
{}

/// A block is missed by an operation in progress only where another client owes a byte that the operation asks for by a
/// look, or where since that look slices of the file were let go and a cleaning went on after that.
pub fn misses_have_causes()
    ensures { MissesHaveCauses }
{}
