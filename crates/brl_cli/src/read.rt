//! What words ask for that `clap` has read: a reader for each command.

use crate::command::{AlphabetOption, PairFiles, Question, Task, TextOptions, Work};
use crate::pages::{ASCII, UNICODE};
use brl_cells::Form;
use clap::ArgMatches;
use std::alloc::{AllocError, Global};

/// The work that words ask for, if they name a command.
pub fn found_work<'a>(
    alloc: Global,
    matches: &ArgMatches<'a>,
) -> Result<Option<Work<'a>>, AllocError> {
    let Some((name, found)) = matches.subcommand() else {
        return Ok(None);
    };
    let Some(task) = found_task(alloc, name, found)? else {
        return Ok(None);
    };
    let folders = found_folders(alloc, found)?;
    Ok(Some(Work { task, folders }))
}

fn found_folders(alloc: Global, found: &ArgMatches<'_>) -> Result<Vec<String>, AllocError> {
    let mut folders = Vec::new(alloc);
    for folder in found.get_strs("path").unwrap_or_default() {
        folders.push(String::from_str(alloc, folder)?)?;
    }
    Ok(folders)
}

/// The task of the words after the name of a command.
fn found_task<'a>(
    alloc: Global,
    name: &str,
    found: &ArgMatches<'a>,
) -> Result<Option<Task<'a>>, AllocError> {
    Ok(match name {
        "translate" => translate(found),
        "survey" => survey(alloc, found)?.map(Task::Ask),
        "rules" => rules(alloc, found)?.map(Task::Ask),
        _ => question(name, found).map(Task::Ask),
    })
}

/// The question of the words after the name of a command, whose answer takes no list of words.
fn question<'a>(name: &str, found: &ArgMatches<'a>) -> Option<Question<'a>> {
    match name {
        "clash" => clash(found),
        "check" => check(found),
        "search" => search(found),
        "clashes" => clashes(found),
        "cut" => cut(found),
        "trace" => trace(found),
        "unused" => unused(found),
        "slips" => slips(found),
        "explain" => explain(found),
        _ => None,
    }
}

fn translate<'a>(found: &ArgMatches<'a>) -> Option<Task<'a>> {
    Some(Task::Translate {
        table: found.get_str("TABLE")?,
        form: form_of(found.get_str("form")?)?,
        lacking: found.get_flag("lacking"),
    })
}

/// The form of this name.
fn form_of(name: &str) -> Option<Form> {
    match name {
        ASCII => Some(Form::Ascii),
        UNICODE => Some(Form::Unicode),
        _ => None,
    }
}

fn clash<'a>(found: &ArgMatches<'a>) -> Option<Question<'a>> {
    Some(Question::Clash {
        table: found.get_str("TABLE")?,
        left: found.get_str("LEFT")?,
        right: found.get_str("RIGHT")?,
        options: text_options(found),
    })
}

fn text_options(found: &ArgMatches<'_>) -> TextOptions {
    TextOptions {
        escapes: found.get_flag("escapes"),
        lines: found.get_flag("lines"),
    }
}

/// Of which characters texts are made; at most one of the two options is there.
fn alphabet_option<'a>(found: &ArgMatches<'a>) -> AlphabetOption<'a> {
    match (found.get_str("without"), found.get_str("only")) {
        (None, None) => AlphabetOption::All,
        (Some(word), _) => AlphabetOption::Without(word),
        (None, Some(word)) => AlphabetOption::Only(word),
    }
}

fn check<'a>(found: &ArgMatches<'a>) -> Option<Question<'a>> {
    Some(Question::Check {
        table: found.get_str("TABLE")?,
        cert: found.get_str("CERT")?,
        accept: found.get_str("accept"),
        alphabet: alphabet_option(found),
    })
}

fn search<'a>(found: &ArgMatches<'a>) -> Option<Question<'a>> {
    Some(Question::Search {
        table: found.get_str("TABLE")?,
        cert: found.get_str("OUT")?,
        limit: found.get_one("limit")?,
        accept: found.get_str("accept"),
        alphabet: alphabet_option(found),
    })
}

fn clashes<'a>(found: &ArgMatches<'a>) -> Option<Question<'a>> {
    Some(Question::Clashes {
        table: found.get_str("TABLE")?,
        limit: found.get_one("limit")?,
        first: found.get_one("first"),
        key: found.get_str("kind"),
        columns: found.get_flag("tsv"),
        alphabet: alphabet_option(found),
        pairs: PairFiles {
            accept: found.get_str("accept"),
            write: found.get_str("write"),
            prune: found.get_flag("prune"),
        },
    })
}

fn survey<'a>(alloc: Global, found: &ArgMatches<'a>) -> Result<Option<Question<'a>>, AllocError> {
    let Some(tables) = found.get_strs("TABLE") else {
        return Ok(None);
    };
    let tables = Vec::from_slice(alloc, tables)?;
    Ok(Some(Question::Survey {
        tables,
        brief: found.get_flag("brief"),
        only: found.get_str("only"),
    }))
}

fn cut<'a>(found: &ArgMatches<'a>) -> Option<Question<'a>> {
    Some(Question::Cut {
        table: found.get_str("TABLE")?,
        dir: found.get_str("DIR")?,
        rewrite: found.get_flag("rewrite"),
        only: found.get_str("only"),
    })
}

fn trace<'a>(found: &ArgMatches<'a>) -> Option<Question<'a>> {
    Some(Question::Trace {
        table: found.get_str("TABLE")?,
        text: found.get_str("TEXT")?,
        options: text_options(found),
    })
}

fn rules<'a>(alloc: Global, found: &ArgMatches<'a>) -> Result<Option<Question<'a>>, AllocError> {
    let Some(table) = found.get_str("TABLE") else {
        return Ok(None);
    };
    let mut numbers = Vec::new(alloc);
    for word in found.get_strs("N").unwrap_or_default() {
        let Ok(number) = word.parse::<u32>() else {
            return Ok(None);
        };
        numbers.push(number)?;
    }
    Ok(Some(Question::Rules { table, numbers }))
}

fn unused<'a>(found: &ArgMatches<'a>) -> Option<Question<'a>> {
    Some(Question::Unused {
        table: found.get_str("TABLE")?,
        limit: found.get_one("limit")?,
        alphabet: alphabet_option(found),
    })
}

fn slips<'a>(found: &ArgMatches<'a>) -> Option<Question<'a>> {
    Some(Question::Slips {
        table: found.get_str("TABLE")?,
        columns: found.get_flag("tsv"),
    })
}

fn explain<'a>(found: &ArgMatches<'a>) -> Option<Question<'a>> {
    Some(Question::Explain {
        line: found.get_str("FAULT")?,
    })
}
