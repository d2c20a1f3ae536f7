ghost use Rattle.std.specs.Prelude.{◌≡◌, ◌+◌, ◌<◌, ◌≤◌, ℕ, All, IsTrue, None, Some, true, false, length, drop, filter, sum_by, position, option_and_then, is_some, slice_get, drop, filter, IsSome, IfSome, IfOk, OnOk, OnErr};
ghost use Rattle.std.specs.Result.{result_err};
ghost use Rattle.std.specs.Str.{bytes_eq};
ghost use Rattle.heap_base.specs.declared.limits.TheConstants.{MOST_OBJECTS, MOST_SLOTS};
ghost use Rattle.heap_base.specs.Limits.{ArePossible};
ghost use Rattle.graph_meaning.specs.Answers.{RefusesBy};
ghost use Rattle.graph_meaning.specs.Heap.{edge_of, ids, is_live};
ghost use Rattle.graph_meaning.specs.Collecting.{with_only, cut_off, holders_of};
ghost use Rattle.graph_meaning.specs.Reach.{has_id};
ghost use Rattle.graph_meaning.specs.Step.{alloc_refusal, with_object, not_live, slot_refusal, target_refusal, store_refusal, with_changed_slot, slot_holding, slot_made_weak, root_refusal, with_root, is_root, kind_refusal, with_kind};
ghost use Rattle.graph_meaning.specs.Views.{heap_view};
ghost use Rattle.object_table.specs.Placed.{nothing_placed, id_in, object_in, slots_in, slot_in, IsPlaced, IsSound, TakesCell, KeepsCells, kept_ids, marked_ids, LeadsToKept, HoldKept, NoneEmptyBelow, IsStacked};
ghost use Rattle.object_table.specs.Edges.{AreEdgesAt};
ghost use Rattle.object_table.specs.Residents.{held_at, is_flagged, is_taken};
ghost use Rattle.object_table.specs.Parts.{slots_at_cell, held_unless, is_freed, StandInOrder};

use crate::cells::Cells;
use crate::edges::Edges;
use crate::ids::Ids;
use crate::kinds::Kinds;
use crate::object::Object;
use crate::roots::Roots;
use crate::slot::{Slot, is_flagged};
use crate::views::{objects_view, roots_view};
use graph_meaning::{HeapView, Refusal, Stop};
use heap_base::{Limits, MOST_KINDS, Name, ObjId, OutOfMemory};
use std::alloc::Global;
use std::marker::Model;

/// The objects of a heap in numbered cells, with their types, slots and roots. Contracts see the table that
/// it stands for, by ids, and which object each cell holds.
#[derive(Drop)]
pub struct ObjectTable {
    cells: Cells,
    ids: Ids,
    roots: Roots,
    kinds: Kinds,
    // the greatest id that was allocated, 0 before the first
    greatest: u32,
    // how many slots the objects have together
    slots: u32,
    // the most that there may be
    most: Limits,
    alloc: Global,
}

impl Model for ObjectTable {
    ghost use Rattle.object_table.specs.Placed.{PlacedTable};
    ghost use Rattle.object_table.specs.Parts.{placed_of, IsTable};

    ghost Value = { PlacedTable };

    ghost view = { λ t. placed_of (record { cells = t.cells.cells; ids = t.ids; roots = t.roots; kinds = t.kinds; greatest = t.greatest; slots = t.slots; most = t.most }) };

    ghost invariant = { λ t. IsTable (record { cells = t.cells.cells; ids = t.ids; roots = t.roots; kinds = t.kinds; greatest = t.greatest; slots = t.slots; most = t.most }) };
}

impl ObjectTable {
    /// The empty table under these limits.
    pub fn make(alloc: Global, most: Limits) -> Result<ObjectTable, OutOfMemory>
        requires possible { ArePossible most }
        ensures empty { IfOk result (λ t. t ≡ nothing_placed most) }
    {
        Ok(ObjectTable {
            cells: Cells::make(alloc),
            ids: Ids::make(alloc),
            roots: Roots::make(alloc),
            kinds: Kinds::make(alloc),
            greatest: 0,
            slots: 0,
            most,
            alloc,
        })
    }

    /// An equal table: the same objects in the same cells, with the same slots, roots and types.
    pub fn copy(&self) -> Result<ObjectTable, OutOfMemory>
        ensures { IfOk result (λ t. t ≡ self.now) }
    {
        Ok(ObjectTable {
            cells: self.cells.copy()?,
            ids: self.ids.copy()?,
            roots: self.roots.copy()?,
            kinds: self.kinds.copy()?,
            greatest: self.greatest,
            slots: self.slots,
            most: self.most,
            alloc: self.alloc,
        })
    }

    /// Why `alloc_object` would refuse this object, and `None` where it would not.
    pub fn alloc_refusal(&self, id: ObjId, kind: &Name, slots: u32) -> Option<Refusal>
        ensures refusal { result ≡ alloc_refusal self.now.table id kind.now slots }
    {
        let found = self.kinds.find(kind);
        self.refusal_of(id, kind, found, slots)
    }

    /// Adds an object with empty slots, none weak. It refuses, in this order, an id that is not above every id
    /// before (`IdNotRising`), an object too many where as many are live as there may be (`TooManyObjects`), slots that
    /// with the live ones pass their limit (`TooManySlots`), and a new type where `MOST_KINDS` were seen
    /// (`TooManyTypes`). After a refusal, and when out of memory, nothing has changed. The object takes the lowest cell
    /// that is empty.
    pub fn alloc_object(&mut self, id: ObjId, kind: &Name, slots: u32) -> Result<(), Stop>
        ensures refused { RefusesBy result (alloc_refusal self.old.table id kind.now slots) }
        ensures added { OnOk result (self.new.table ≡ with_object self.old.table id kind.now slots) }
        ensures cells { OnOk result (TakesCell self.old self.new id) }
        ensures lowest { OnOk result (NoneEmptyBelow self.new id) }
        ensures err { OnErr result (self.new ≡ self.old) }
    {
        let found = self.kinds.find(kind);
        if let Some(refusal) = self.refusal_of(id, kind, found, slots) {
            return Err(Stop::Refused(refusal));
        }
        Ok(self.add_object(id, kind, found, slots)?)
    }

    /// Lets a slot hold an object, or nothing; it stays weak where it is. It refuses, in this order, an `at` that is not live
    /// (`NotLive`), a slot that `at` does not have (`BadSlot`), and a `to` that is not live (`NotLive`).
    pub fn store(&mut self, at: ObjId, slot: u32, to: Option<ObjId>) -> Result<(), Refusal>
        ensures refused { result_err result ≡ store_refusal self.old.table at slot to }
        ensures stored { OnOk result (self.new.table ≡ with_changed_slot self.old.table at slot (slot_holding to)) }
        ensures cells { self.new.cells ≡ self.old.cells }
        ensures err { OnErr result (self.new ≡ self.old) }
    {
        let cell = self.cell_with_slot(at, slot)?;
        let held = self.target_cell(to)?;
        let weak = self.cells.at(cell).slot(slot).weak;
        self.cells.set_slot(cell, slot, Slot { held, weak });
        Ok(())
    }

    /// Makes a slot weak, or no longer weak; it holds what it held. It refuses, in this order, an `at` that is
    /// not live (`NotLive`), and a slot that `at` does not have (`BadSlot`).
    pub fn set_weak(&mut self, at: ObjId, slot: u32, weak: bool) -> Result<(), Refusal>
        ensures refused { result_err result ≡ slot_refusal self.old.table at slot }
        ensures changed { OnOk result (self.new.table ≡ with_changed_slot self.old.table at slot (slot_made_weak weak)) }
        ensures cells { self.new.cells ≡ self.old.cells }
        ensures err { OnErr result (self.new ≡ self.old) }
    {
        let cell = self.cell_with_slot(at, slot)?;
        let held = self.cells.at(cell).slot(slot).held;
        self.cells.set_slot(cell, slot, Slot { held, weak });
        Ok(())
    }

    /// Lets a root name hold an object, or takes the name away, also where it is not there. It refuses, in
    /// this order, a `to` that is not live (`NotLive`), and a new name where as many are there as there may be
    /// (`TooManyRoots`). Only a new name may want memory.
    pub fn set_root(&mut self, name: &Name, to: Option<ObjId>) -> Result<(), Stop>
        ensures refused { RefusesBy result (root_refusal self.old.table name.now to) }
        ensures set { OnOk result (self.new.table ≡ with_root self.old.table name.now to) }
        ensures cells { self.new.cells ≡ self.old.cells }
        ensures memory { result ≡ Err Stop.OutOfMemory → IsSome to × (is_root self.old.table name.now ≡ false) }
        ensures err { OnErr result (self.new ≡ self.old) }
    {
        match to {
            Some(id) => self.put_root(name, id),
            None => {
                self.roots.remove(name);
                Ok(())
            }
        }
    }

    /// The number of a type, from 0 in the order in which the types first came, and `None` where it was not seen.
    pub fn kind_number(&self, name: &Name) -> Option<u32>
        ensures number { result ≡ position (bytes_eq name.now) self.now.table.kinds }
    {
        self.kinds.find(name)
    }

    /// Why a type may not be named: `TooManyTypes` where it is new and `MOST_KINDS` were seen, else `None`.
    pub fn kind_refusal(&self, kind: &Name) -> Option<Refusal>
        ensures { result ≡ kind_refusal self.now.table kind.now }
    {
        self.refusal_by_kind(kind, self.kinds.find(kind))
    }

    /// Why nothing may be said of this id, or lead to it: `NotLive` where it is no object's, else `None`.
    pub fn not_live(&self, id: ObjId) -> Option<Refusal>
        ensures { result ≡ not_live self.now.table id }
    {
        match self.ids.find(id) {
            Some(_) => None,
            None => Some(Refusal::NotLive(id.number())),
        }
    }

    /// The number of a type, which is seen from now on. It refuses a new type where
    /// `MOST_KINDS` were seen (`TooManyTypes`).
    pub fn kind_of(&mut self, name: &Name) -> Result<u32, Stop>
        ensures refused { RefusesBy result (kind_refusal self.old.table name.now) }
        ensures number { IfOk result (λ n. position (bytes_eq name.now) self.new.table.kinds ≡ Some n) }
        ensures seen { OnOk result (self.new.table ≡ record self.old.table { kinds = with_kind self.old.table.kinds name.now }) }
        ensures cells { self.new.cells ≡ self.old.cells }
        ensures err { OnErr result (self.new ≡ self.old) }
    {
        let found = self.kinds.find(name);
        if let Some(refusal) = self.refusal_by_kind(name, found) {
            return Err(Stop::Refused(refusal));
        }
        Ok(self.kinds.learn(name, found)?)
    }

    /// How many types were seen.
    pub fn kinds(&self) -> u32
        ensures count { result ≡ length self.now.table.kinds }
    {
        self.kinds.len()
    }

    /// The name of a type.
    pub fn kind_name(&self, kind: u32) -> &Name
        requires in_range { kind < length self.now.table.kinds }
        ensures name { slice_get self.now.table.kinds kind ≡ Some result.now }
    {
        self.kinds.name(kind)
    }

    /// How many cells there are, at most `MOST_OBJECTS`. Each object stands in one of them.
    pub fn cells(&self) -> u32
        ensures count { result ≡ length self.now.cells }
        ensures placed { IsPlaced self.now }
        ensures sound { IsSound self.now.table }
    {
        self.cells.len()
    }

    /// How many objects are live.
    pub fn live(&self) -> u32
        ensures count { result ≡ length self.now.table.objects }
    {
        self.ids.len() as u32
    }

    /// The cell that holds the object, and `None` where it is not live.
    pub fn cell_of(&self, id: ObjId) -> Option<u32>
        ensures cell { IfSome result (λ cell. id_in self.now cell ≡ Some id) }
        ensures live { is_some result ≡ is_live self.now.table id }
    {
        self.ids.find(id)
    }

    /// What `cell_of` answers, in less time for ids that rise from call to call: an object is looked for from this place on among all objects
    /// by their ids, and then everywhere. The place, at first 0, is for the next call.
    pub fn cell_from(&self, id: ObjId, place: &mut usize) -> Option<u32>
        ensures cell { IfSome result (λ cell. id_in self.now cell ≡ Some id) }
        ensures live { is_some result ≡ is_live self.now.table id }
    {
        self.ids.find_from(id, place)
    }

    /// The object that a cell holds, and `None` where it is empty.
    pub fn id_at(&self, cell: u32) -> Option<ObjId>
        requires in_range { cell < length self.now.cells }
        ensures id { result ≡ id_in self.now cell }
    {
        self.cells.id_at(cell)
    }

    /// The cell of the object that is this number, from 0, among all objects by their ids.
    pub fn nth_cell(&self, number: u32) -> u32
        requires in_range { number < length self.now.table.objects }
        ensures cell { id_in self.now result ≡ slice_get (ids self.now.table) number }
    {
        self.ids.cell(number as usize)
    }

    /// The number of the type of the object in a cell.
    pub fn kind_at(&self, cell: u32) -> u32
        requires taken { IsSome (id_in self.now cell) }
        ensures number { IfSome (object_in self.now cell) (λ o. position (bytes_eq o.kind) self.now.table.kinds ≡ Some result) }
    {
        self.cells.at(cell).kind()
    }

    /// How many slots the object in a cell has.
    pub fn slots_at(&self, cell: u32) -> u32
        requires taken { IsSome (id_in self.now cell) }
        ensures count { result ≡ length (slots_in self.now cell) }
    {
        self.cells.at(cell).slots()
    }

    /// The cell of the object that an edge leads to from a slot of the object in a cell, and `None` where the
    /// slot is no edge: it is empty, or weak.
    pub fn slot_at(&self, cell: u32, slot: u32) -> Option<u32>
        requires a_slot { slot < length (slots_in self.now cell) }
        ensures leads { option_and_then (id_in self.now) result ≡ edge_of (slot_in self.now cell slot) }
        ensures in_a_cell { is_some result ≡ is_some (edge_of (slot_in self.now cell slot)) }
    {
        let slot = self.cells.at(cell).slot(slot);
        if slot.weak { None } else { slot.held }
    }

    /// What the slots of the object in a cell lead to: for whoever goes over all of them.
    pub fn edges_at(&self, cell: u32) -> Edges<'_>
        requires taken { IsSome (id_in self.now cell) }
        ensures edges { AreEdgesAt self.now cell result }
    {
        self.cells.at(cell).edges()
    }

    /// The cell of the object that a slot of the object in a cell holds, weak or not, and `None` where the slot is
    /// empty.
    pub fn held_at(&self, cell: u32, slot: u32) -> Option<u32>
        requires a_slot { slot < length (slots_in self.now cell) }
        ensures holds { option_and_then (id_in self.now) result ≡ (slot_in self.now cell slot).held }
        ensures in_a_cell { is_some result ≡ is_some (slot_in self.now cell slot).held }
    {
        let value = self.cells.at(cell).slot(slot);
        value.held
    }

    /// Whether a slot of the object in a cell is weak.
    pub fn weak_at(&self, cell: u32, slot: u32) -> bool
        requires a_slot { slot < length (slots_in self.now cell) }
        ensures weak { result ≡ (slot_in self.now cell slot).weak }
    {
        let slot = self.cells.at(cell).slot(slot);
        slot.weak
    }

    /// How many roots there are. They are numbered from 0 by the bytes of their names.
    pub fn roots(&self) -> u32
        ensures count { result ≡ length self.now.table.roots }
    {
        self.roots.len()
    }

    /// The name of a root.
    pub fn root_name(&self, root: u32) -> &Name
        requires in_range { root < length self.now.table.roots }
        ensures name { IfSome (slice_get self.now.table.roots root) (λ r. result.now ≡ r.0) }
    {
        self.roots.name(root)
    }

    /// The cell of the object that a root names.
    pub fn root_cell(&self, root: u32) -> u32
        requires in_range { root < length self.now.table.roots }
        ensures cell { IfSome (slice_get self.now.table.roots root) (λ r. id_in self.now result ≡ Some r.1) }
    {
        match self.ids.find_number(self.roots.number(root)) {
            Some(cell) => cell,
            None => unreachable!(),
        }
    }

    /// The heap as it is shown: the objects by id and the roots by name, with a weak slot as an empty one.
    pub fn view(&self) -> Result<HeapView, OutOfMemory>
        ensures view { IfOk result (λ v. v ≡ heap_view self.now.table) }
    {
        let objects = objects_view(self.alloc, &self.ids, &self.cells, &self.kinds)?;
        let roots = roots_view(self.alloc, &self.roots)?;
        Ok(HeapView { objects, roots })
    }

    /// Frees every object whose cell is not kept. Each kept object keeps its cell; a slot that held a freed one is
    /// empty then, and stays weak where it is. Cells behind the last that is kept are taken away, so what goes over all
    /// cells goes with what lives. Where none is freed and the last cell is taken, it goes over the ids alone.
    pub fn keep(&mut self, kept: &[bool])
        requires each { length kept.now ≡ length self.old.cells }
        requires closed { LeadsToKept self.old.table (kept_ids self.old.cells kept.now) }
        ensures kept { self.new.table ≡ with_only (kept_ids self.old.cells kept.now) self.old.table }
        ensures cells { KeepsCells self.old self.new (kept_ids self.old.cells kept.now) }
    {
        // nothing changes where no object is freed and no empty cell stands last
        if self.cells.is_last_taken() && self.ids.are_kept(kept) {
            return;
        }
        let freed = freed_slots(&self.ids, &self.cells, kept);
        self.cells.keep(kept);
        self.ids.keep(kept);
        self.slots -= freed;
    }

    /// The same as `keep`, where every object is kept whose id is not above this number. It looks at the others alone, so
    /// its time goes with these. It asks for objects that no kept one holds, weakly or not, and that stand in the order of
    /// their ids with no empty cell below them, as they do where nothing was freed since the first of them was added.
    pub fn keep_above(&mut self, number: u32, kept: &[bool])
        requires each { length kept.now ≡ length self.old.cells }
        requires closed { LeadsToKept self.old.table (kept_ids self.old.cells kept.now) }
        requires held { HoldKept self.old (kept_ids self.old.cells kept.now) }
        requires others { (id : ℕ) → IsTrue (is_live self.old.table id) → id ≤ number → IsTrue (has_id (kept_ids self.old.cells kept.now) id) }
        requires stacked { IsStacked self.old number }
        ensures kept { self.new.table ≡ with_only (kept_ids self.old.cells kept.now) self.old.table }
        ensures cells { KeepsCells self.old self.new (kept_ids self.old.cells kept.now) }
        ensures count { length self.new.cells ≡ length self.old.cells }
    {
        let first = self.ids.first_above(number);
        let freed = free_from(&mut self.cells, &self.ids, first, kept);
        self.ids.keep_from(first, kept);
        self.slots -= freed;
    }

    /// Empties every slot, weak or not, that holds the object of a marked cell, and takes away every root that names
    /// one. A slot stays weak where it is, and each object keeps its cell. Answers how many slots and roots these
    /// were.
    pub fn clear_to(&mut self, marked: &[bool]) -> u32
        ensures cleared { self.new.table ≡ cut_off (has_id (marked_ids self.old.cells marked.now)) self.old.table }
        ensures count { result ≡ holders_of (has_id (marked_ids self.old.cells marked.now)) self.old.table }
        ensures cells { self.new.cells ≡ self.old.cells }
    {
        let roots = self.roots.clear_to(&self.ids, marked);
        let slots = self.cells.clear_to(marked);
        slots + roots
    }

    // Why an object of this type, which was looked for, would be refused.
    fn refusal_of(&self, id: ObjId, kind: &Name, found: Option<u32>, slots: u32) -> Option<Refusal>
        requires found { found ≡ position (bytes_eq kind.now) self.now.table.kinds }
        ensures refusal { result ≡ alloc_refusal self.now.table id kind.now slots }
    {
        if id.number() <= self.greatest {
            Some(Refusal::IdNotRising(id.number()))
        } else if self.live() >= self.most.objects {
            Some(Refusal::TooManyObjects)
        } else if slots > self.most.slots - self.slots {
            Some(Refusal::TooManySlots)
        } else {
            self.refusal_by_kind(kind, found)
        }
    }

    // Why a new object may not have this type, which was looked for.
    fn refusal_by_kind(&self, kind: &Name, found: Option<u32>) -> Option<Refusal>
        requires { found ≡ position (bytes_eq kind.now) self.now.table.kinds }
        ensures { result ≡ kind_refusal self.now.table kind.now }
    {
        if found.is_none() && self.kinds.len() >= MOST_KINDS {
            Some(Refusal::TooManyTypes)
        } else {
            None
        }
    }

    // Why a root with this name may not hold this.
    fn root_refusal(&self, name: &Name, id: ObjId) -> Option<Refusal>
        ensures { result ≡ root_refusal self.now.table name.now (Some id) }
    {
        if let Some(refusal) = self.not_live(id) {
            return Some(refusal);
        }
        if self.roots.len() >= self.most.roots && !self.roots.has(name) {
            Some(Refusal::TooManyRoots)
        } else {
            None
        }
    }

    // Lets the name hold the object.
    fn put_root(&mut self, name: &Name, id: ObjId) -> Result<(), Stop>
        ensures refused { RefusesBy result (root_refusal self.old.table name.now (Some id)) }
        ensures set { OnOk result (self.new.table ≡ with_root self.old.table name.now (Some id)) }
        ensures cells { self.new.cells ≡ self.old.cells }
        ensures memory { result ≡ Err Stop.OutOfMemory → is_root self.old.table name.now ≡ false }
        ensures err { OnErr result (self.new ≡ self.old) }
    {
        if let Some(refusal) = self.root_refusal(name, id) {
            return Err(Stop::Refused(refusal));
        }
        Ok(self.roots.set(name, id)?)
    }

    // The cell of an object that has the slot, or why there is none.
    fn cell_with_slot(&self, at: ObjId, slot: u32) -> Result<u32, Refusal>
        ensures refused { result_err result ≡ slot_refusal self.now.table at slot }
        ensures cell { IfOk result (λ cell. id_in self.now cell ≡ Some at) }
    {
        let Some(cell) = self.ids.find(at) else {
            return Err(Refusal::NotLive(at.number()));
        };
        if slot >= self.cells.at(cell).slots() {
            return Err(Refusal::BadSlot(slot));
        }
        Ok(cell)
    }

    // The cell of what a slot is to hold, or why it may not hold it.
    fn target_cell(&self, to: Option<ObjId>) -> Result<Option<u32>, Refusal>
        ensures refused { result_err result ≡ target_refusal self.now.table to }
        ensures holds { IfOk result (λ cell. option_and_then (id_in self.now) cell ≡ to) }
        ensures taken { IfOk result (λ o. IfSome o (λ cell. IsSome (id_in self.now cell))) }
        ensures few { IfOk result (λ o. IfSome o (λ cell. cell < MOST_OBJECTS)) }
    {
        let Some(id) = to else {
            return Ok(None);
        };
        match self.ids.find(id) {
            Some(cell) => Ok(Some(cell)),
            None => Err(Refusal::NotLive(id.number())),
        }
    }

    // Puts the object, whose type was looked for, into the cell that comes next. All memory is taken before anything is changed
    // that would have to be changed back, but for the last id.
    fn add_object(
        &mut self,
        id: ObjId,
        kind: &Name,
        found: Option<u32>,
        slots: u32,
    ) -> Result<(), OutOfMemory>
        requires fits { alloc_refusal self.old.table id kind.now slots ≡ None }
        requires found { found ≡ position (bytes_eq kind.now) self.old.table.kinds }
        ensures added { OnOk result (self.new.table ≡ with_object self.old.table id kind.now slots) }
        ensures cells { OnOk result (TakesCell self.old self.new id) }
        ensures lowest { OnOk result (NoneEmptyBelow self.new id) }
        ensures err { OnErr result (self.new ≡ self.old) }
    {
        let number = found.unwrap_or(self.kinds.len());
        let object = Object::make(self.alloc, id, number, slots)?;
        self.cells.reserve()?;
        self.ids.push(id, self.cells.next())?;
        let Ok(_) = self.kinds.learn(kind, found) else {
            self.ids.pop();
            return Err(OutOfMemory);
        };
        self.cells.put(object);
        self.greatest = id.number();
        self.slots += slots;
        Ok(())
    }
}

// How many slots the objects have together whose cells are not kept. It looks at none of the others.
fn freed_slots(ids: &Ids, cells: &Cells, kept: &[bool]) -> u32
    requires taken { All (λ e. IsTrue (is_taken cells.now.cells e.1)) ids.now }
    requires few { sum_by (λ e. slots_at_cell cells.now.cells e.1) ids.now ≤ MOST_SLOTS }
    ensures { result + sum_by (λ e. slots_at_cell cells.now.cells e.1) (filter (λ e. is_flagged kept.now e.1) ids.now) ≡ sum_by (λ e. slots_at_cell cells.now.cells e.1) ids.now }
{
    let mut slots = 0;
    for place in (0..ids.len()).rev() {
        let cell = ids.cell(place);
        if !is_flagged(kept, cell) {
            slots += cells.at(cell).slots();
        }
    }
    slots
}

// Empties the cells that are not kept of the objects from this place on, and answers how many slots these had. They stand in
// the order of their ids, with no empty cell below them.
fn free_from(cells: &mut Cells, ids: &Ids, first: usize, kept: &[bool]) -> u32
    requires within { first ≤ length ids.now }
    requires few { sum_by (λ e. slots_at_cell cells.old.cells e.1) ids.now ≤ MOST_SLOTS }
    requires stacked { StandInOrder cells.old.cells (drop first ids.now) }
    ensures count { length cells.new.cells ≡ length cells.old.cells }
    ensures freed { (cell : ℕ) → held_at cells.new.cells cell ≡ held_unless (is_freed kept.now (drop first ids.now) cell) cells.old.cells cell }
    ensures slots { result + sum_by (λ e. slots_at_cell cells.old.cells e.1) (filter (λ e. is_flagged kept.now e.1) (drop first ids.now)) ≡ sum_by (λ e. slots_at_cell cells.old.cells e.1) (drop first ids.now) }
{
    let mut slots = 0;
    for place in (first..ids.len()).rev() {
        let cell = ids.cell(place);
        if !is_flagged(kept, cell) {
            slots += cells.at(cell).slots();
            cells.free(cell);
        }
    }
    slots
}
