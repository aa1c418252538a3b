// The worked trials of the rules hold.
ghost use Rattle.trials.specs.Trials.{Trials};

// Its contract holds the trials.
pub fn trials_hold()
    ensures trials { Trials }
{}
