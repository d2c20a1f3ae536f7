ghost use Rattle.resident_crew.specs.Agreement.{AuditAndResidentAgree, AuditsAgree, ResidentAuditsAgree};

/// Two audits of equal traces, whose command lines differ in `--workers` alone, append equal bytes where both come to their end.
pub fn audits_with_any_workers_agree()
    ensures { AuditsAgree }
{}

/// So do two audits by workers that stay parked.
pub fn resident_audits_with_any_workers_agree()
    ensures { ResidentAuditsAgree }
{}

/// And so do one of each, where no option but `--workers` is given a value.
pub fn an_audit_and_a_resident_audit_agree()
    ensures { AuditAndResidentAgree }
{}
