// What holds of the definitions.
ghost use Rattle.nv_threads.specs.Threads.{threads};
ghost use Rattle.nv_replay.specs.Behind.{ChangesNoOther, FollowersAlone};
ghost use Rattle.nv_replay.specs.Unplanned.{IsPlainUnplanned};

/// Without planned lengths the monitor with its order of versions is the plain one.
pub fn unplanned_is_plain()
    ensures { IsPlainUnplanned threads }
{}

/// Only a version that follows, and hasn't seen the whole log, is let go; the others come to what they come to without that, unless it leads.
pub fn let_go_alone()
    ensures followers { FollowersAlone threads }
    ensures others { ChangesNoOther threads }
{}
