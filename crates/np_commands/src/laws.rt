//! Laws of the definitions, for proofs: a call gives the caller's proof the law.
ghost use Rattle.np_commands.specs.Laws.{OneTaskReason, OneCertificateReason, OnePlanReason, OneOfCertificate, OneOfPlan};

/// A task, the bytes of a certificate and those of a plan are refused for one reason at most.
pub fn one_reason()
    ensures task { OneTaskReason }
    ensures certificate { OneCertificateReason }
    ensures plan { OnePlanReason }
{}

/// Of a certificate alone, and of a certificate and the steps of a plan, one answer at most is true.
pub fn one_answer()
    ensures alone { OneOfCertificate }
    ensures beside { OneOfPlan }
{}
