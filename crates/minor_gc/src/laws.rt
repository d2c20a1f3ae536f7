ghost use Rattle.minor_gc.specs.Laws.{MinorKeepsMore, MinorKeepsOld, NoneYoungAfter};
ghost use Rattle.minor_gc.specs.Survivors.{SurvivorsKeepSlots};

/// A minor collection frees no object that a full one would keep.
pub fn a_minor_collection_keeps_what_a_full_one_keeps()
    ensures { MinorKeepsMore }
{}

/// A minor collection frees no old object.
pub fn a_minor_collection_frees_no_old_object()
    ensures { MinorKeepsOld }
{}

/// No object is young after a collection.
pub fn no_object_is_young_after_a_collection()
    ensures { NoneYoungAfter }
{}

/// The survivors of a collection keep their slots, where no slot is weak and what a slot holds is live.
pub fn survivors_keep_their_slots()
    ensures { SurvivorsKeepSlots }
{}
