//! The operations that assert something of one object or of one type.
ghost use Rattle.graph_meaning.specs.declared.event.Event.TheVariants.{AssertDead, AssertInstances, AssertUnshared, AssertOwnedBy};
ghost use Rattle.heap_parts.specs.Parts.{Steps};

use crate::parts::HeapParts;
use graph_meaning::Stop;
use heap_base::{Name, ObjId};

impl HeapParts {
    /// The object is asserted dead.
    pub(crate) fn assert_dead(&mut self, id: ObjId) -> Result<(), Stop>
        ensures { Steps self.old (AssertDead id) result self.new }
    {
        if let Some(refusal) = self.table.not_live(id) {
            return Err(Stop::Refused(refusal));
        }
        Ok(self.registry.assert_dead(id)?)
    }

    /// The object is asserted unshared.
    pub(crate) fn assert_unshared(&mut self, id: ObjId) -> Result<(), Stop>
        ensures { Steps self.old (AssertUnshared id) result self.new }
    {
        if let Some(refusal) = self.table.not_live(id) {
            return Err(Stop::Refused(refusal));
        }
        Ok(self.registry.assert_unshared(id)?)
    }

    /// The ownee has this owner.
    pub(crate) fn assert_ownedby(&mut self, owner: ObjId, ownee: ObjId) -> Result<(), Stop>
        ensures { Steps self.old (AssertOwnedBy owner ownee) result self.new }
    {
        if let Some(refusal) = self.table.not_live(owner) {
            return Err(Stop::Refused(refusal));
        }
        if let Some(refusal) = self.table.not_live(ownee) {
            return Err(Stop::Refused(refusal));
        }
        self.registry.assert_ownedby(owner, ownee)
    }

    /// The type has this limit. The room for it is made before the type is seen, so that nothing can fail after that.
    pub(crate) fn assert_instances(&mut self, kind: &Name, limit: u32) -> Result<(), Stop>
        ensures { Steps self.old (AssertInstances kind.now limit) result self.new }
    {
        if let Some(refusal) = self.table.kind_refusal(kind) {
            return Err(Stop::Refused(refusal));
        }
        self.registry.reserve_kinds(self.table.kinds() + 1)?;
        let number = self.table.kind_of(kind)?;
        self.registry.assert_instances(number, limit);
        Ok(())
    }
}
