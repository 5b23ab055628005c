ghost use Rattle.flow_types.specs.Records.{ReadsAsWritten};
ghost use Rattle.record_codec.specs.Laws.{HasOneTuple, IsRecordOfRead, IsWithinWidest};

/// The law of records: whose record bytes are, that tuple they are read as. So the record of any tuple of
/// a schema is the record of the tuple that it is read as, and two tuples with one record are one.
pub fn record_reads_as_written()
    ensures reads { ReadsAsWritten }
    ensures record { IsRecordOfRead }
    ensures one { HasOneTuple }
{}

/// No record of a schema is longer than its widest.
pub fn record_is_within_widest()
    ensures { IsWithinWidest }
{}
