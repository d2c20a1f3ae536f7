ghost use Rattle.std.specs.Prelude.{◌≡◌, ◌-◌, ◌≤◌, ◌++◌, None, length, replicate, if◌then◌else◌, IfOk, OnOk};
ghost use Rattle.heap_snapshot.specs.Table.{may_fill, whole_object, after_slot_line};

use graph_meaning::{ObjectView, SlotList};
use heap_base::{Name, ObjId, OutOfMemory};

/// An object whose slots are being read: how many it has, and the slots up to the last that was named.
#[derive(Debug, Drop)]
pub struct OpenObject {
    pub id: u32,
    pub slots: u32,
    pub kind: Name,
    pub filled: SlotList,
}

/// What stands last in what was read of a snapshot.
#[derive(Debug, Drop)]
pub enum Stage {
    /// Nothing.
    Empty,
    /// The first line.
    Begun,
    /// An object line, or a slot line of that object.
    InObject(OpenObject),
    /// A root line.
    InRoots,
    /// The end.
    Ended,
}

impl OpenObject {
    /// Names a slot, where it is one of the object's and above the last that was named.
    pub(crate) fn name_slot(&mut self, slot: u32, to: ObjId) -> Result<bool, OutOfMemory>
        ensures { IfOk result (λ named. (named ≡ may_fill self.old slot) × (self.new ≡ (if named then after_slot_line self.old slot to else self.old))) }
    {
        if slot >= self.slots || slot < self.filled.len() {
            return Ok(false);
        }
        self.leave_empty_to(slot)?;
        self.filled.push(Some(to.number()))?;
        Ok(true)
    }

    /// The object with all its slots.
    pub(crate) fn into_whole(mut self) -> Result<ObjectView, OutOfMemory>
        requires { length self.filled ≤ self.slots }
        ensures { IfOk result (λ object. object ≡ whole_object self) }
    {
        let slots = self.slots;
        self.leave_empty_to(slots)?;
        Ok(ObjectView {
            id: self.id,
            kind: self.kind,
            slots: self.filled,
        })
    }

    // Leaves the slots below this one empty that no line named.
    fn leave_empty_to(&mut self, slot: u32) -> Result<(), OutOfMemory>
        requires { length self.old.filled ≤ slot }
        ensures { OnOk result (self.new ≡ record self.old { filled = self.old.filled ++ replicate (slot - length self.old.filled) None }) }
    {
        for _place in self.filled.len()..slot {
            self.filled.push(None)?;
        }
        Ok(())
    }
}
