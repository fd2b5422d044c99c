//! What the answers to certificates mean, each law as the contract of a function that does nothing.
ghost use Rattle.cert_verdicts.specs.Laws.{CertificateIsAccepted, JudgedIsUnique};

/// Two answers to the same bytes are one answer, want of memory aside: neither the number of workers nor their schedule changes it.
pub fn judged_is_unique()
    ensures { JudgedIsUnique }
{}

/// Bytes that are read to a certificate which is accepted are answered so, or memory runs out.
pub fn certificate_is_accepted()
    ensures { CertificateIsAccepted }
{}
