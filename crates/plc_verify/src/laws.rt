// What a valid certificate shows, by the definitions alone.
ghost use Rattle.plc_verify.specs.Validity.{ValidCertificatesProve};

/// A flow and an outline with a valid certificate have a typing, and the outline holds: just what makes a
/// program safe, whoever wrote the certificate.
pub fn valid_certificates_prove()
    ensures { ValidCertificatesProve }
{}
