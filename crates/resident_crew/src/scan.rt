//! What the workers of a trace share.
ghost use Rattle.std.specs.Prelude.{◌≡◌};
ghost use Rattle.resident_crew.specs.Scans.{shared_by_scan};
ghost use Rattle.scan_job.specs.Shared.{shared_behind};

use graph_meaning::Roles;
use header_rule::Headers;
use object_table::ObjectTable;
use scan_job::ScanShared;

/// What all jobs of a trace share, as in `ScanShared`, but owned: the workers outlive what a caller could lend.
#[derive(Drop)]
pub struct ResidentScan {
    pub headers: Headers,
    pub table: ObjectTable,
    pub roles: Roles,
}

impl ResidentScan {
    /// The same, borrowed.
    pub fn lend(&self) -> ScanShared<'_>
        ensures { shared_behind result ≡ shared_by_scan self.now }
    {
        ScanShared {
            headers: &self.headers,
            table: &self.table,
            roles: &self.roles,
        }
    }
}
