// The laws of a book over a whole session.
ghost use Rattle.std.specs.Prelude.{◌≡◌, List, [], ◌∷◌, ◌++◌, Some, Ok};
ghost use Rattle.disk_trait.specs.Areas.{Areas};
ghost use Rattle.gate_areas.specs.Sealed.{BatchList};
ghost use Rattle.gate_areas.specs.declared.live.LiveArea.{LiveArea};
ghost use Rattle.gate_log.specs.Content.{HasBatches};
ghost use Rattle.idb_calls.specs.declared.traces.TxTrace.{TxTrace};
ghost use Rattle.item_changes.specs.Items.{Items};
ghost use Rattle.record_bytes.specs.Records.{AreRecords};
ghost use Rattle.log_history.specs.Replayed.{replayed, after_records};
ghost use Rattle.log_history.specs.Batching.{Commit, commit_of, records_of_commits, batch_payload};
ghost use Rattle.log_history.specs.Kept.{End, Dropped, FailedCommit, FailedFlush, with_doubt};
ghost use Rattle.tx_book.specs.declared.answers.Finish.{Finish};
ghost use Rattle.tx_book.specs.declared.answers.Flush.{Flush};
ghost use Rattle.tx_book.specs.Books.{BookLog, BookState, fresh, book_batches, IsFoundOr, IsFoundSo};
ghost use Rattle.tx_book.specs.Entries.{batch_with};
ghost use Rattle.tx_book.specs.Answers.{FinishIs, FlushIs};
ghost use Rattle.tx_book.specs.Follows.{FollowsCommits, FollowsFinish, FollowsFlush, IsFoundKept};

use gate_log::Disk;
use log_history::{batch_laws, replay_laws};

/// The laws of a book over a session. It is opened on what the batches of its log give. Each answer makes of the session's commits
/// what the cutting of batches says. And where the commits apply, each image is found as the items after a number of them that may be
/// kept: those of the batches that have ended or, where the last one met a fault, perhaps those of that one, too.
pub fn book_laws<D: Disk>()
    ensures opened { (opening : Items) (disk : D) (live : LiveArea) (batches : BatchList)
        → HasBatches (book_batches D.shows (fresh disk live)) batches → replayed batches ≡ Ok opening
        → FollowsCommits D.shows opening [] Dropped (fresh disk live) }
    ensures finish { (opening : Items) (commits : List Commit) (trace : TxTrace) (answer : Finish)
        (old new : BookState D)
        → FollowsCommits D.shows opening commits Dropped old.log → FinishIs D.shows trace old answer new
        → FollowsFinish D.shows opening commits trace answer new.log }
    ensures flush { (opening : Items) (commits : List Commit) (answer : Flush) (old new : BookState D)
        → FollowsCommits D.shows opening commits Dropped old.log → FlushIs D.shows old answer new
        → FollowsFlush D.shows opening commits answer new.log }
    ensures images { (opening now : Items) (commits : List Commit) (end : End) (log : BookLog D)
        (image : Areas)
        → FollowsCommits D.shows opening commits end log
        → after_records opening (records_of_commits (with_doubt commits end)) ≡ Some now
        → IsFoundSo D.shows log image → IsFoundKept opening commits end image }

    // An image of a moment within a call is found as if the call met a fault.
    ensures within_finish { (opening now : Items) (commits : List Commit) (trace : TxTrace) (log : BookLog D)
        (image : Areas)
        → FollowsCommits D.shows opening commits Dropped log
        → AreRecords (records_of_commits (batch_with trace log.waiting))
        → after_records opening (records_of_commits (commits ++ commit_of trace ∷ [])) ≡ Some now
        → IsFoundOr D.shows (batch_payload (batch_with trace log.waiting)) log image
        → IsFoundKept opening commits (FailedCommit (commit_of trace)) image }
    ensures within_flush { (opening now : Items) (commits : List Commit) (log : BookLog D) (image : Areas)
        → FollowsCommits D.shows opening commits Dropped log
        → AreRecords (records_of_commits log.waiting)
        → after_records opening (records_of_commits commits) ≡ Some now
        → IsFoundOr D.shows (batch_payload log.waiting) log image
        → IsFoundKept opening commits FailedFlush image }
{
    batch_laws();
    replay_laws();
}
