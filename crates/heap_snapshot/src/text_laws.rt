ghost use Rattle.heap_snapshot.specs.Formed.{LawfulIsWellFormed, WellFormedIsLawful};
ghost use Rattle.heap_snapshot.specs.TextLaws.{DanglesInText, StandsByText, TextTellsView, WrittenIsReadBack};

/// Bytes that stand for a view are its text, so a view has one text at most.
pub fn bytes_that_stand_for_a_view_are_its_text()
    ensures { StandsByText }
{}

/// The text of a lawful view stands for it: what is written of it is read back.
pub fn a_lawful_view_is_read_back()
    ensures { WrittenIsReadBack }
{}

/// Lawful views with one text are one view.
pub fn a_text_stands_for_one_view()
    ensures { TextTellsView }
{}

/// The line of an id that no object has is counted in the bytes.
pub fn a_dangling_id_stands_in_its_line()
    ensures { DanglesInText }
{}

/// A lawful view keeps the limits and the order, and whatever it refers to is an object of its own.
pub fn a_lawful_view_is_well_formed()
    ensures { LawfulIsWellFormed }
{}

/// A view that does so is lawful.
pub fn a_well_formed_view_is_lawful()
    ensures { WellFormedIsLawful }
{}
