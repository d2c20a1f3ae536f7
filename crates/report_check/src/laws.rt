ghost use Rattle.report_check.specs.Audited.{AuditsPassChecks, EqualIsAppended};
ghost use Rattle.report_check.specs.Checked.{ChecksEnd};

/// Where no read and no write failed, the check comes to an end, unless memory runs out.
pub fn a_check_without_faults_ends()
    ensures { ChecksEnd }
{}

/// What an audit appended at its end is never called different by a check with the same number of paths.
pub fn what_an_audit_appended_is_not_called_different()
    ensures { AuditsPassChecks }
{}

/// What a check calls equal is what an audit appends at its end.
pub fn what_a_check_calls_equal_is_appended()
    ensures { EqualIsAppended }
{}
