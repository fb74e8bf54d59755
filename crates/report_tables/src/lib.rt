// The report's first tables read back: rows of fields, a table of rows, the row of the totals. specs/TablesRead.antt says what each reader answers.

#![tactic(auto)]

pub mod fields;
pub mod rows;
pub mod totals;
