//! `run`, the program over any files and streams.
//!
//! `alphabet` reads of which characters texts are made. `program` has what each command's words
//! lead to. `translate`, `clash`, `trace`, `rules`, `survey` and `cut` do the work of these
//! commands by the files of a table, `search`, `clashes`, `unused` and `check` that of theirs,
//! `acting` finds and reports the lines of a table that can act on some texts, `slips` lists rules
//! that look like typing errors, and `explain` has what a fault means.
//! `loaded_table` has the table of a file with its lines, `notices` writes the notices of a table
//! that is searched or surveyed, `remarks` the rules that are there again, `suspects` has what a
//! survey or a cut finds that was hardly meant so, and `certificate` has the answer with a
//! certificate that was found. `baselines` has the files of pairs of rules that `clashes` reads and
//! writes, `excusing` what such a file excuses of a `check` or a `search`. Every command but
//! `translate` gives an `Answer` (brl_answers).
//!
//! Room 5, the program (docs/dev/ARCHITECTURE.md). The definitions begin in `specs/Running.antt`.
#![tactic(auto)]

mod acting;
mod alphabet;
mod baselines;
mod certificate;
mod check;
mod clash;
mod clashes;
mod cut;
mod excusing;
mod explain;
mod file_text;
mod loaded_table;
mod notices;
mod program;
mod remarks;
mod rules;
mod same_file;
mod search;
mod shown;
mod slips;
mod survey;
mod suspects;
mod trace;
mod translate;
mod unused;

pub use brl_answers::{CreateFault, Files, NewFileFault, SinkFault};
pub use brl_stream::{
    Counting, Failed, Form, Input, Lacking, LineFault, Output, StreamFault,
    translate_defined_lines, translate_lines,
};
pub use check::{CheckedFiles, check_by_words};
pub use clash::compare_by_words;
pub use clashes::{ListedClashes, list_clashes_by_words};
pub use cut::{CutRequest, cut_by_words};
pub use explain::explain_line;
pub use program::run;
pub use rules::list_rules_by_file;
pub use search::{SearchedFiles, search_by_words};
pub use slips::list_slips_by_file;
pub use survey::{SurveyRequest, survey_by_words};
pub use trace::trace_by_word;
pub use translate::{Translation, translate_by_file};
pub use unused::list_unused_by_words;
