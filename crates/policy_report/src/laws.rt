//! Reports and certificates are read again, and only reports are read as reports.
ghost use Rattle.policy_report.specs.Edits.{EditTextsAreExact, EditsAreToldApart};
ghost use Rattle.policy_report.specs.Lengths.{ReportsAreShort};
ghost use Rattle.policy_report.specs.Recertifying.{CertificatesAreWritten};
ghost use Rattle.policy_report.specs.Recertifying.{CertificatesAreReadAgain};
ghost use Rattle.policy_report.specs.Recertifying.{OnlyCertificatesAreTaken, BudgetsAreRefused};
ghost use Rattle.policy_report.specs.Rereading.{ReportsAreReadAgain, OnlyReportsAreTaken};
ghost use Rattle.policy_report.specs.ServiceWords.{ServiceWordsAreExact, RangeWordsAreExact};
ghost use Rattle.policy_report.specs.ServiceWords.{NamesAreNoServices};

/// A reader that takes the lines of a report in order gives back its head, its verdicts and its
/// end.
pub fn reports_are_read_again()
    ensures { ReportsAreReadAgain }
{}

/// A text of which a reader takes each line, the last one as the end, is the report of verdicts
/// that have the policies' kinds.
pub fn only_reports_are_taken()
    ensures { OnlyReportsAreTaken }
{}

/// No two edits of a network have one text.
pub fn edits_are_told_apart()
    ensures { EditsAreToldApart }
{}

/// Where no two edits have one text, an edit is found by its text and by no other.
pub fn edit_texts_are_exact()
    ensures { EditTextsAreExact }
{}

/// What is written for a claim is its certificate. A reader that takes the lines of a certificate
/// in order gives back its head, its edits, its verdicts, its steps and its end.
pub fn certificates_are_read_again()
    ensures written { CertificatesAreWritten }
    ensures read { CertificatesAreReadAgain }
{}

/// A text of which a reader takes each line, the first one as the head of a repair and the last one
/// as the end, is the certificate of a claim.
pub fn only_certificates_are_taken()
    ensures { OnlyCertificatesAreTaken }
{}

/// Where the budget was used up, the second line is refused as one that claims nothing.
pub fn budgets_are_refused()
    ensures { BudgetsAreRefused }
{}

/// A report of short witnesses has at most `limits::PROOF_LIMIT` bytes.
pub fn reports_are_short()
    ensures { ReportsAreShort }
{}

/// What is read as a service, or as a range of services, is its word, and the word is read as it.
/// No router's name is such a word, so that the names after a class begin where its words end.
pub fn service_words_are_exact()
    ensures service { ServiceWordsAreExact }
    ensures range { RangeWordsAreExact }
    ensures names { NamesAreNoServices }
{}
