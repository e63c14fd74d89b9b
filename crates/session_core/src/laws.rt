// Why a session stays right, whatever is asked and edited. A session has it by its contracts.
ghost use Rattle.session_core.specs.Laws.{EditsLeaveReplies, StaysRight};

/// An edit of a tree leaves each reply to a question on another path that doesn't stand above the edited one.
pub fn edits_leave_replies()
    ensures { EditsLeaveReplies }
{}

/// Over any list of asks and edits, each kept outcome is the request's on the tree as it is then.
pub fn stays_right()
    ensures { StaysRight }
{}
