//! Tests of texts and tables: cells, lines, rules, tables, translation, the lines of tables
//! that have a fault by themselves, and those that can act on texts over an alphabet.
mod acting;
mod again;
mod cells;
mod forward;
mod lines;
mod survey;
mod table;
