//! The operations on objects, slots and roots.
ghost use Rattle.graph_meaning.specs.declared.event.Event.TheVariants.{Alloc, Store, SetWeak, Root};
ghost use Rattle.heap_parts.specs.Parts.{Steps};

use crate::parts::HeapParts;
use graph_meaning::Stop;
use heap_base::{Name, ObjId, ThreadNo};

impl HeapParts {
    /// Adds an object, also to every open region of the thread.
    pub(crate) fn alloc_object(
        &mut self,
        id: ObjId,
        kind: &Name,
        slots: u32,
        thread: ThreadNo,
    ) -> Result<(), Stop>
        ensures { Steps self.old (Alloc id kind.now slots thread) result self.new }
    {
        let Ok(()) = self.regions.reserve(thread) else {
            // what is refused is refused whether or not there is memory
            return match self.table.alloc_refusal(id, kind, slots) {
                Some(refusal) => Err(Stop::Refused(refusal)),
                None => Err(Stop::OutOfMemory),
            };
        };
        self.table.alloc_object(id, kind, slots)?;
        self.regions.note(thread, id);
        Ok(())
    }

    /// Lets a slot hold an object, or nothing.
    pub(crate) fn store(&mut self, at: ObjId, slot: u32, to: Option<ObjId>) -> Result<(), Stop>
        ensures { Steps self.old (Store at slot to) result self.new }
    {
        self.table.store(at, slot, to)?;
        Ok(())
    }

    /// Makes a slot weak, or no longer weak.
    pub(crate) fn set_weak(&mut self, at: ObjId, slot: u32, weak: bool) -> Result<(), Stop>
        ensures { Steps self.old (SetWeak at slot weak) result self.new }
    {
        self.table.set_weak(at, slot, weak)?;
        Ok(())
    }

    /// Lets a root hold an object, or takes it away.
    pub(crate) fn set_root(&mut self, name: &Name, to: Option<ObjId>) -> Result<(), Stop>
        ensures { Steps self.old (Root name.now to) result self.new }
    {
        self.table.set_root(name, to)
    }
}
