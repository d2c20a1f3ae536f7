//! What has been read of a snapshot, line by line.
ghost use Rattle.std.specs.Prelude.{◌≡◌, ◌+◌, ◌&&◌, nat_le, nat_lt, length, Some, None, IfOk, OnOk, if◌then◌else◌};
ghost use Rattle.heap_base.specs.declared.limits.TheConstants.{USUAL_OBJECTS, USUAL_SLOTS};
ghost use Rattle.std.specs.Ordering.{is_lt};
ghost use Rattle.graph_meaning.specs.Heap.{name_cmp};
ghost use Rattle.heap_snapshot.specs.Lines.{line_in};
ghost use Rattle.heap_snapshot.specs.Table.{Reading, closed_reading, is_before_roots, is_empty, is_ended, is_under_way, last_name, may_add, may_root, nothing_read, objects_read, reading_where, take_line, take_said, take_slot, after_object_line, after_root_line};
ghost use Rattle.heap_snapshot.specs.Bounds.{IsBounded};

use crate::line::{Line, line_in};
use crate::stage::{OpenObject, Stage};
use crate::types::Types;
use graph_meaning::{HeapView, ObjectList, RootList, SlotList};
use heap_base::{Name, ObjId, OutOfMemory, USUAL_OBJECTS, USUAL_ROOTS, USUAL_SLOTS};
use std::alloc::Global;
use std::marker::Model;
use std::mem;

/// What has been read of a snapshot.
#[derive(Drop)]
pub(crate) struct Assembly {
    alloc: Global,
    stage: Stage,
    objects: ObjectList,
    roots: RootList,
    types: Types,
    slots: u32,
    greatest: u32,
}

impl Model for Assembly {
    ghost Value = { Reading };

    ghost view = { λ a. record { stage = a.stage; objects = a.objects; roots = a.roots; kinds = a.types; slots = a.slots; greatest = a.greatest } };
}

impl Assembly {
    /// Nothing.
    pub(crate) fn make(alloc: Global) -> Result<Assembly, OutOfMemory>
        ensures { IfOk result (λ assembly. assembly ≡ nothing_read) }
    {
        Ok(Assembly {
            alloc,
            stage: Stage::Empty,
            objects: ObjectList::empty(alloc),
            roots: RootList::empty(alloc),
            types: Types::make(alloc)?,
            slots: 0,
            greatest: 0,
        })
    }

    /// Whether the last line was the end.
    pub(crate) fn is_ended(&self) -> bool
        ensures { result ≡ is_ended self.now.stage }
    {
        matches!(self.stage, Stage::Ended)
    }

    /// The objects but for an open one, and the roots.
    pub(crate) fn into_view(self) -> HeapView
        ensures { result ≡ record { objects = self.objects; roots = self.roots } }
    {
        HeapView {
            objects: self.objects,
            roots: self.roots,
        }
    }

    /// Takes a line, unless it says nothing that may stand there.
    pub(crate) fn take(&mut self, line: &[u8]) -> Result<bool, OutOfMemory>
        requires bounded { IsBounded self.old }
        ensures { IfOk result (λ taken. (if taken then Some self.new else None) ≡ take_said self.old (line_in line.now)) }
    {
        match line_in(self.alloc, line)? {
            Some(said) => self.take_line(said),
            None => Ok(false),
        }
    }

    #[tactic(auto, unfolding(crate::specs::Table::take_line))]
    fn take_line(&mut self, line: Line) -> Result<bool, OutOfMemory>
        requires bounded { IsBounded self.old }
        ensures { IfOk result (λ taken. (if taken then Some self.new else None) ≡ take_line self.old line) }
    {
        match line {
            Line::Head => Ok(self.take_head()),
            Line::Object { id, slots, kind } => self.take_object(id, slots, kind),
            Line::Slot { slot, to } => self.take_slot(slot, to),
            Line::Root { to, name } => self.take_root(to, name),
            Line::End => self.take_end(),
        }
    }

    fn take_head(&mut self) -> bool
        ensures { (if result then Some self.new else None) ≡ reading_where (is_empty self.old.stage) (record self.old { stage = Stage.Begun }) }
    {
        if !matches!(self.stage, Stage::Empty) {
            return false;
        }
        self.stage = Stage::Begun;
        true
    }

    #[tactic(auto, unfolding(crate::specs::Table::may_add))]
    fn take_object(&mut self, id: ObjId, slots: u32, kind: Name) -> Result<bool, OutOfMemory>
        requires bounded { IsBounded self.old }
        ensures { IfOk result (λ taken. (if taken then Some self.new else None) ≡ reading_where (may_add self.old id slots kind) (after_object_line self.old id slots kind)) }
    {
        if !self.may_add(id.number(), slots) {
            return Ok(false);
        }
        if !self.types.learn(&kind)? {
            return Ok(false);
        }
        self.close()?;
        self.slots += slots;
        self.greatest = id.number();
        self.stage = Stage::InObject(OpenObject {
            id: id.number(),
            slots,
            kind,
            filled: SlotList::empty(self.alloc),
        });
        Ok(true)
    }

    // Whether an object may follow with this id and so many slots, whatever its type.
    fn may_add(&self, id: u32, slots: u32) -> bool
        requires bounded { IsBounded self.now }
        ensures { result ≡ (is_before_roots self.now.stage && nat_lt self.now.greatest id && nat_lt (length (objects_read self.now)) USUAL_OBJECTS && nat_le (self.now.slots + slots) USUAL_SLOTS) }
    {
        let (is_before_roots, open) = match &self.stage {
            Stage::Begun => (true, 0),
            Stage::InObject(_) => (true, 1),
            Stage::Empty | Stage::InRoots | Stage::Ended => (false, 0),
        };
        is_before_roots
            && self.greatest < id
            && self.objects.len() + open < USUAL_OBJECTS
            && slots <= USUAL_SLOTS - self.slots
    }

    fn take_slot(&mut self, slot: u32, to: ObjId) -> Result<bool, OutOfMemory>
        ensures { IfOk result (λ taken. (if taken then Some self.new else None) ≡ take_slot self.old slot to self.old.stage) }
    {
        match &mut self.stage {
            Stage::InObject(open) => open.name_slot(slot, to),
            Stage::Empty | Stage::Begun | Stage::InRoots | Stage::Ended => Ok(false),
        }
    }

    fn take_root(&mut self, to: ObjId, name: Name) -> Result<bool, OutOfMemory>
        requires bounded { IsBounded self.old }
        ensures { IfOk result (λ taken. (if taken then Some self.new else None) ≡ reading_where (may_root self.old name) (after_root_line self.old name to)) }
    {
        if !self.may_root(&name) {
            return Ok(false);
        }
        self.close()?;
        self.roots.push((name, to.number()))?;
        Ok(true)
    }

    #[tactic(auto, unfolding(crate::specs::Table::may_root))]
    fn may_root(&self, name: &Name) -> bool
        ensures { result ≡ may_root self.now name.now }
    {
        self.is_under_way() && self.is_above_last(name) && self.roots.len() < USUAL_ROOTS
    }

    fn take_end(&mut self) -> Result<bool, OutOfMemory>
        requires bounded { IsBounded self.old }
        ensures { IfOk result (λ taken. (if taken then Some self.new else None) ≡ reading_where (is_under_way self.old.stage) (closed_reading self.old)) }
    {
        if !self.is_under_way() {
            return Ok(false);
        }
        self.close()?;
        self.stage = Stage::Ended;
        Ok(true)
    }

    fn is_under_way(&self) -> bool
        ensures { result ≡ is_under_way self.now.stage }
    {
        match &self.stage {
            Stage::Begun | Stage::InObject(_) | Stage::InRoots => true,
            Stage::Empty | Stage::Ended => false,
        }
    }

    // Whether the name is above the last root's.
    fn is_above_last(&self, name: &Name) -> bool
        ensures { result ≡ is_lt (name_cmp (last_name self.now.roots) name.now) }
    {
        let text = name.as_str();
        let roots = self.roots.len();
        if roots == 0 {
            return true;
        }
        self.roots.at(roots - 1).0.as_str() < text
    }

    // Puts an open object to the others, with all its slots.
    fn close(&mut self) -> Result<(), OutOfMemory>
        requires bounded { IsBounded self.old }
        ensures { OnOk result (self.new ≡ record self.old { stage = Stage.InRoots; objects = objects_read self.old }) }
    {
        let stage = mem::replace(&mut self.stage, Stage::InRoots);
        if let Stage::InObject(open) = stage {
            self.objects.push(open.into_whole()?)?;
        }
        Ok(())
    }
}
