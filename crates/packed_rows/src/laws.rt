ghost use Rattle.packed_rows.specs.Packed.{PacksReadAsWritten};

/// The law of packed rows: whose rows bytes are, those they are read as. So they are no other rows'.
pub fn packed_reads_as_written()
    ensures { PacksReadAsWritten }
{}
