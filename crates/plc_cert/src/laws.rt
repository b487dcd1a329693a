// Writing and reading together. Each law is the contract of a function without a body, over the words
// that the contracts of `write` and `read` cite.
ghost use Rattle.std.specs.Prelude.{◌≡◌, ◌++◌, ◌∷◌, [], ℕ, List, Some, Ok};
ghost use Rattle.plc_cert.specs.declared.cert.Cert.{Cert};
ghost use Rattle.plc_cert.specs.Shape.{json_of, reading};
ghost use Rattle.plc_cert.specs.Written.{cert, text};
ghost use Rattle.plc_cert.specs.Fits.{CertFits, IsInRange, stored, read_back};

/// What reading the text of any certificate answers, also with a line feed after it: that certificate, without the
/// types of shared pointers; that there is no such version, exactly where it is another than 1 and 2; or else that
/// `env` isn't of its form, exactly where a local of some point has guarantees of none of the four sets. A law's
/// numbers have no bound, so it asks that those of the certificate are such as a `Cert` can hold.
pub fn each_text_has_its_answer()
    ensures { (c : Cert) → IsInRange c
        → (reading (text c) ≡ read_back c) × (reading (text c ++ 10 ∷ []) ≡ read_back c) }
{}

/// The text of a certificate of version 1 or 2 whose guarantees are of the four sets is read as that
/// certificate, without the types of shared pointers. That its other numbers are in range is so of every
/// `Cert`.
pub fn written_is_read()
    ensures { (c : Cert) → CertFits c → reading (text c) ≡ Ok (stored c) }
{}

/// The text of such a certificate with a line feed after it is read as that certificate too.
pub fn line_is_read()
    ensures { (c : Cert) → CertFits c → reading (text c ++ 10 ∷ []) ≡ Ok (stored c) }
{}

/// Bytes that are read are, as a JSON value, the one that their certificate is written as; the version of
/// that certificate is 1 or 2, and its guarantees are of the four sets.
pub fn only_written_is_read()
    ensures { (bytes : List ℕ) (c : Cert) → reading bytes ≡ Ok c
        → (json_of bytes ≡ Some (cert c)) × CertFits c }
{}
