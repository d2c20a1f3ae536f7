//! What the definitions of the contracts say of one another. This function does nothing; it is proved to have its law.
ghost use Rattle.owner_phase.specs.Laws.{HeldIsUnderOwners};

/// What the jobs hold after the owner phase is as `take_up` asks.
pub fn what_the_owner_phase_holds_can_be_taken_up()
    ensures { HeldIsUnderOwners }
{}
