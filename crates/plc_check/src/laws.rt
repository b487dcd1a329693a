// What `certify` shows and what `verify` judges, together.
ghost use Rattle.plc_check.specs.Certified.{CertificatesAreVerified};

/// The law that what [`crate::certify`] shows is accepted by whoever reads it: the text of a certificate, with a line
/// feed after it, is read, and the certificate that is read is valid. It may differ in the types of shared pointers,
/// which the text leaves out and a judge puts in again.
pub fn certificates_are_verified()
    ensures { CertificatesAreVerified }
{}
