// Laws of registers and places: no function here computes anything.
ghost use Rattle.lb_flat.specs.Laws.{AcceptedPlacesKeep, LivenessIsByWalks};
ghost use Rattle.lb_flat.specs.Registers.{RegistersAre};

/// Variables are kept in the registers 18 to 29, and placed code names 30 and 31 besides.
pub fn registers_are()
    ensures { RegistersAre }
{}

/// With accepted places a flat program that does nothing undefined has the same trace and end.
pub fn accepted_places_keep()
    ensures { AcceptedPlacesKeep }
{}

/// Places are apart on all walks exactly where they are by recursion on the tree.
pub fn liveness_is_by_walks()
    ensures { LivenessIsByWalks }
{}
