//! Laws of certificates' text, each as the contract of a function that does nothing.
#![tactic(auto)]

ghost use Rattle.certificate_laws.specs.Laws.{CertTextIsRead, WrittenIsRead, ReadIsWritten, RefusedForGood, OverIsNamed};

/// The text of a certificate is read to what it says, where it is not too long.
pub fn cert_text_is_read()
    ensures { CertTextIsRead }
{}

/// What is written of a certificate is read back as it.
pub fn written_is_read()
    ensures { WrittenIsRead }
{}

/// What is read is the text of what it says, byte by byte, and its numbers are in range.
pub fn read_is_written()
    ensures { ReadIsWritten }
{}

/// A refusal by form names the first byte with which no certificate's text goes on, or the file's length where its end is too early:
/// some certificate's text begins with the bytes before it.
pub fn refused_for_good()
    ensures { RefusedForGood }
{}

/// A refusal by the limit means that the file has too many bytes.
pub fn over_is_named()
    ensures { OverIsNamed }
{}
