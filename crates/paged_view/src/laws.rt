//! Laws of the definitions in `specs/`. Each function does nothing; its contract is the law.
ghost use Rattle.paged_view.specs.RecordLaws.{ReadsAsAppended};

/// A record that was appended is the record that is read, as soon as all of its bytes were given, and
/// not before.
pub fn reads_as_appended()
    ensures { ReadsAsAppended }
{}
