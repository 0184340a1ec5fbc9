ghost use Rattle.column_input.specs.Laws.{EachRecordIsRead, GivesFirst, GivesTable, NameFindsColumn};

/// No record of a file is left out.
pub fn each_record_is_read()
    ensures { EachRecordIsRead }
{}

/// Records have a table or a first fault, and never both.
pub fn columns_or_fault()
    ensures table { GivesTable }
    ensures first { GivesFirst }
{}

/// A name of a table finds its column.
pub fn name_finds_column()
    ensures { NameFindsColumn }
{}
