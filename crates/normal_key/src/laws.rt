ghost use Rattle.normal_key.specs.Laws.{IsRankOfSteps, TellsRecords};

/// What an order by a key says of records: its test is true exactly of the records of the schema, and with
/// the whole row it is the rank of their rows by the fields of the key and then by the items.
pub fn order_is_of_rows()
    ensures records { TellsRecords }
    ensures rank { IsRankOfSteps }
{}
