ghost use Rattle.expr_core.specs.Laws.{ColumnsOfASchema};

/// Columns whose types are those of a schema meet what `columns_into` asks of their width, and what it
/// gives is then a record of that schema, where the columns' literals are values.
pub fn columns_of_a_schema()
    ensures { ColumnsOfASchema }
{}
