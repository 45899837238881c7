//! What a list of clashes is asked for.
use crate::representatives::Firsts;
use crate::{Kind, ListForm};
use brl_lines::Line;
use brl_pairs::Excused;
use brl_rules::Table;
use brl_without::LeftOut;

/// Which clashes are listed, and how: those of a table of these lines, for texts that use none of
/// `left_out`, beside what a file excuses, in a form. A section may find `limit` states, pairs and
/// pairs of rules.
#[derive(Clone, Copy)]
pub struct ListRequest<'a> {
    pub table: &'a Table,
    pub lines: &'a [Line<'a>],
    pub left_out: &'a LeftOut,
    pub excused: &'a Excused,
    pub limit: u32,
    pub form: ListForm<'a>,
}

/// A list, and what is worked out once before its sections are found. `kept` has the characters
/// that aren't left out. `kinds` has the kinds of these characters; each kind has a section.
/// `firsts` says which own definitions represent others.
#[derive(Clone, Copy)]
pub(crate) struct Plan<'a> {
    pub asked: ListRequest<'a>,
    pub kept: &'a [char],
    pub kinds: &'a [Kind],
    pub firsts: &'a Firsts,
}
