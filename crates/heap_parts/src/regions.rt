//! The operations on regions.
ghost use Rattle.graph_meaning.specs.declared.event.Event.TheVariants.{StartRegion, AssertAllDead};
ghost use Rattle.heap_parts.specs.Parts.{Steps};

use crate::parts::HeapParts;
use graph_meaning::Stop;
use heap_base::ThreadNo;

impl HeapParts {
    /// A region of the thread begins.
    pub(crate) fn start_region(&mut self, thread: ThreadNo) -> Result<(), Stop>
        ensures { Steps self.old (StartRegion thread) result self.new }
    {
        self.regions.start(thread)
    }

    /// The innermost region of the thread ends, and its objects are asserted dead: those that were in a region inside it are so
    /// already. The region ends last, since that takes no memory.
    pub(crate) fn assert_all_dead(&mut self, thread: ThreadNo) -> Result<(), Stop>
        ensures { Steps self.old (AssertAllDead thread) result self.new }
    {
        let unasserted = self.regions.unasserted(thread)?;
        self.registry.assert_dead_all(unasserted)?;
        Ok(self.regions.finish(thread)?)
    }
}
