//! The words of the command line.
ghost use Rattle.brl_cli.specs.Replies.{IsReplyTo};

use crate::build::command_line;
use crate::read::found_work;
use brl_cells::Form;
use brl_failure::Failure;
use clap::error::{Error, ErrorKind};
use std::alloc::Global;
use std::fmt::Display;

/// What the words ask for: a task, and the folders in which the files of tables are looked for that
/// aren't at their usual paths, in order.
#[derive(Drop)]
pub struct Work<'a> {
    pub task: Task<'a>,
    pub folders: Vec<String>,
}

/// A task.
#[derive(Drop)]
pub enum Task<'a> {
    /// Translate the input to this form by the table whose file is at this path. Where `lacking` is
    /// set, lines with a character that the table doesn't define are passed over, and these
    /// characters are listed at the end. Else the first such line ends the work.
    Translate {
        table: &'a str,
        form: Form,
        lacking: bool,
    },
    /// Answer a question.
    Ask(Question<'a>),
}

/// What is answered by one text. `table` is the path of a table's file, as `cert`, `accept` and
/// `dir` are paths. `alphabet` says of which characters the texts are made that are asked about.
/// The file at `accept` names pairs of rules and sets of characters, as a list of clashes writes
/// it; without it nothing is excused.
#[derive(Drop)]
pub enum Question<'a> {
    /// Whether two texts clash.
    Clash {
        table: &'a str,
        left: &'a str,
        right: &'a str,
        options: TextOptions,
    },
    /// Whether the file at `cert` has a certificate for the table, where the pairs of rules that
    /// are excused may diverge, and the characters of a set may be exchanged.
    Check {
        table: &'a str,
        cert: &'a str,
        accept: Option<&'a str>,
        alphabet: AlphabetOption<'a>,
    },
    /// Whether two texts clash, but for what is excused. A certificate goes to the file at `cert`.
    /// At most `limit` states and `limit` pairs may be found.
    Search {
        table: &'a str,
        cert: &'a str,
        limit: u32,
        accept: Option<&'a str>,
        alphabet: AlphabetOption<'a>,
    },
    /// At which pairs of rules clashing texts diverge. At most `limit` states, pairs and pairs of
    /// rules may be found for each section. The first `first` pairs of each are shown, all where it
    /// is 0; those of one kind, where its key is given; and where neither is, the kinds of them. A
    /// list in columns is for programs.
    Clashes {
        table: &'a str,
        limit: u32,
        first: Option<u32>,
        key: Option<&'a str>,
        columns: bool,
        alphabet: AlphabetOption<'a>,
        pairs: PairFiles<'a>,
    },
    /// Which lines of tables are outside the profile or faulty. A brief answer has the counts of
    /// such lines alone. Where characters are given, which lines of the tables can act on texts of
    /// these.
    Survey {
        tables: Vec<&'a str>,
        brief: bool,
        only: Option<&'a str>,
    },
    /// Which rules of the table have these numbers; where none are given, which it has.
    Rules {
        table: &'a str,
        numbers: Vec<u32>,
    },
    /// Which rules of the table no text uses. At most `limit` states may be found.
    Unused {
        table: &'a str,
        limit: u32,
        alphabet: AlphabetOption<'a>,
    },
    /// What the fault of this line means.
    Explain {
        line: &'a str,
    },
    /// Which lines of the table are read, as a table of its own in the folder `dir`. More lines are
    /// read where they are rewritten. Where characters are given, also which lines of the table can
    /// act on texts of these.
    Cut {
        table: &'a str,
        dir: &'a str,
        rewrite: bool,
        only: Option<&'a str>,
    },
    /// What the steps of a text's translation are.
    Trace {
        table: &'a str,
        text: &'a str,
        options: TextOptions,
    },
    /// Which rules of the table have the cells of their own characters but for one or two. An
    /// answer in columns is for programs.
    Slips {
        table: &'a str,
        columns: bool,
    },
}

/// The characters of which texts are made, as an option spells them.
#[derive(Clone, Copy)]
pub enum AlphabetOption<'a> {
    /// All that the table defines: there is no such option.
    All,
    /// All that the table defines but these.
    Without(&'a str),
    /// These.
    Only(&'a str),
}

/// How texts are read, and what is shown of their steps.
#[derive(Clone, Copy)]
pub struct TextOptions {
    /// Whether texts are read as they are spelled in operands of a table.
    pub escapes: bool,
    /// Whether each step is followed by the lines of the table by which it is made.
    pub lines: bool,
}

/// The files of pairs of rules of a list of clashes, by their paths.
#[derive(Clone, Copy)]
pub struct PairFiles<'a> {
    /// The file that names the accepted pairs, which are left out of the list.
    pub accept: Option<&'a str>,
    /// The file that gets the pairs of the list.
    pub write: Option<&'a str>,
    /// Whether the stale lines of the file of accepted pairs are taken out of it.
    pub prune: bool,
}

/// Why there is nothing to run: help, the version, or a use fault, with the text of `clap` that
/// answers the words.
#[derive(Drop)]
pub enum NotATask {
    /// They ask for help or the version. The text goes to standard output.
    Help(String),
    /// They have a fault, or `clap` had not enough memory. The text goes to standard error.
    UseFault(String),
}

/// The words of a command line; the first is the program's name.
pub trait Words<'a> {
    ghost use Rattle.std.specs.Prelude.{Result};
    ghost use Rattle.brl_failure.specs.declared.failure.Failure.{Failure};
    ghost use Rattle.brl_cli.specs.declared.command.NotATask.{NotATask};
    ghost use Rattle.brl_cli.specs.declared.command.Work.{Work};

    // whether the words may ask for this
    ghost asks: { Self → Result Work (Failure NotATask) → Type 0 };

    /// What the words ask for: a task with its folders, or a text of help or of a use fault.
    fn work(self, alloc: Global) -> Result<Work<'a>, Failure<NotATask>>
        ensures { asks self result };
}

impl<'a> Words<'a> for &'a [String] {
    // No contract says what `clap` makes of words, so they may ask for anything.
    ghost asks = { λ _ _. Unit {0} };

    fn work(self, alloc: Global) -> Result<Work<'a>, Failure<NotATask>> {
        match read_words(alloc, self) {
            Ok(work) => Ok(work),
            Err(error) => Err(reply_to(alloc, error.kind(), &error)),
        }
    }
}

/// What the words ask for. An error has the text that answers them.
fn read_words<'a>(alloc: Global, words: &'a [String]) -> Result<Work<'a>, Error> {
    let mut command = command_line(alloc)?;
    let matches = command.try_get_matches_from_mut(words)?;
    match found_work(alloc, &matches)? {
        Some(work) => Ok(work),
        None => Err(command.error(ErrorKind::MissingSubcommand, "no command was given")?),
    }
}

/// What answers words for which `clap` has an error of this kind: what is shown of it.
fn reply_to<D: Display>(alloc: Global, kind: ErrorKind, error: &D) -> Failure<NotATask>
    ensures { IsReplyTo kind (D.output error.now) result }
{
    let Ok(text) = error.to_string(alloc) else {
        return Failure::Memory;
    };
    Failure::Fault(match kind {
        ErrorKind::DisplayHelp | ErrorKind::DisplayVersion => NotATask::Help(text),
        _ => NotATask::UseFault(text),
    })
}
