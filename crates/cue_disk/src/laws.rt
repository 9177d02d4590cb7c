// What follows from the definitions of a crash alone, for every disk.
ghost use Rattle.cue_disk.specs.Disk.{StopWithinAWrite, StopWithinASync, StableLeavesWhatIsRead, WriteLeavesTorn};
ghost use Rattle.cue_disk.specs.Plan.{PlanGoesOn};

/// A stop within a write leaves nothing that a crash right after the write may not leave, so that the moments
/// between calls speak of a stop at any time.
pub fn stop_within_a_write()
    ensures { StopWithinAWrite }
{}

/// A stop within a sync leaves nothing that a crash right before the sync may not leave.
pub fn stop_within_a_sync()
    ensures { StopWithinASync }
{}

/// If the disk is stable a crash leaves what a read gives.
pub fn stable_leaves_what_is_read()
    ensures { StableLeavesWhatIsRead }
{}

/// After one write to a stable disk a crash leaves any bytes in the written range, and the same elsewhere.
pub fn write_leaves_torn()
    ensures { WriteLeavesTorn }
{}

/// What is planned for the n-th call from now is, after one call, planned for the call before it.
pub fn plan_goes_on()
    ensures { PlanGoesOn }
{}
