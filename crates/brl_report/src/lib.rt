//! Reports. `report` has a clash: the two texts, their cells, and for each text the steps of its
//! translation from the first one that the other text doesn't have. `push_clash_line` has the same
//! clash in one line, with the two rules at which its texts diverge. `trace_report` has one text,
//! its cells and all its steps. `survey_report` has the lines of a table that have a fault by
//! themselves, `skipped_report` the dictionaries that a survey skipped. `report_of_cut` says how
//! many lines of a table are kept in a cut of it. `rules_report` has the rules of a table by their
//! numbers, `unused_report` those that no text uses.
//!
//! Room 5, the program (docs/dev/ARCHITECTURE.md). The definitions begin in `specs/Report.antt`.
#![tactic(auto)]

mod clash_line;
mod clash_report;
mod counts;
mod cut_report;
mod header;
mod row;
mod rows;
mod rules;
mod side;
mod skipped;
mod sources;
mod steps;
mod survey;
mod trace;
mod unused;

pub use clash_line::push_clash_line;
pub use clash_report::{ReportFault, report, report_with};
pub use cut_report::report_of_cut;
pub use rules::{
    Wanted, first_line, first_unknown, own_number, push_source_line, push_words, rule_numbers,
    rule_words, rules_report,
};
pub use skipped::skipped_report;
pub use survey::survey_report;
pub use trace::trace_report;
pub use unused::unused_report;
