// What a fault of the host does to all names and inboxes.
ghost use Rattle.std.specs.Prelude.{◌≡◌, map};
ghost use Rattle.std.specs.List.{flat_map};
ghost use Rattle.name_queues.specs.Moves.{faulted_name};
ghost use Rattle.name_queues.specs.Mails.{lost_changes};
ghost use Rattle.name_queues.specs.Room.{put_events, HasOwedRoom, with_mail_changed};

use name_queues::{Inbox, Named, fault_name};

/// All of each name ends.
pub(crate) fn fault_names(names: &mut Vec<Named>, boxes: &mut Vec<Inbox>)
    requires { HasOwedRoom names.old.items boxes.old.items }
    ensures names { names.new.items ≡ map (λ n. (faulted_name n).named) names.old.items }
    ensures sent { boxes.new.items
        ≡ put_events (flat_map (λ n. (faulted_name n).sent) names.old.items) boxes.old.items }
{
    for place in 0..names.len() {
        let n = &mut names[place];
        fault_name(n, boxes);
    }
}

/// Every versionchange event that wasn't taken is lost.
pub(crate) fn lose_changes(boxes: &mut Vec<Inbox>)
    ensures { boxes.new.items ≡ map (with_mail_changed lost_changes) boxes.old.items }
{
    for place in 0..boxes.len() {
        let inbox = &mut boxes[place];
        inbox.lose_all();
    }
}
