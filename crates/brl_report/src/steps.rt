//! The steps of a translation with their characters, and where two translations diverge.
ghost use Rattle.std.specs.Prelude.{◌≡◌, IsTrue, IfErr, IfOk, take, drop};
ghost use Rattle.brl_failure.specs.Failure.{IfFault};
ghost use Rattle.brl_forward.specs.Faults.{IsFaultOf};
ghost use Rattle.brl_report.specs.Steps.{are_same, common_prefix, report_steps, step_after};
ghost use Rattle.brl_rules.specs.Text.{is_text};

use brl_cells::Chars;
use brl_failure::Failure;
use brl_forward::{ForwardFault, Traced, trace};
use brl_rules::{Context, Table, choice_laws, translation_laws};
use std::alloc::{AllocError, Global};

/// A step of a translation, with the characters that it reads.
#[derive(Drop)]
pub struct ReportStep {
    pub step: Traced,
    pub characters: Chars,
    /// What is known of the characters before it.
    pub here: Context,
    /// Whether it begins in a run of capitals.
    pub run: bool,
}

/// The characters that a step reads of its text.
fn taken(alloc: Global, text: &[char], step: &Traced) -> Result<Chars, AllocError>
    ensures { IfOk result (λ characters. characters ≡ take step.now.length (drop step.now.start text.now)) }
{
    let rest = text.get(step.start..).unwrap_or_default();
    let front = rest.get(..step.length).unwrap_or(rest);
    Ok(Chars::from_vec(Vec::from_slice(alloc, front)?))
}

/// The steps of a text's translation. `UnknownChar` where the table doesn't define a character.
pub fn traced_steps(
    alloc: Global,
    table: &Table,
    text: &[char],
) -> Result<Vec<ReportStep>, Failure<ForwardFault>>
    ensures steps { IfOk result (λ steps. steps.items ≡ report_steps table.now text.now) }
    ensures text { IfOk result (λ _. IsTrue (is_text table.now text.now)) }
    ensures fault { IfErr result (IfFault (IsFaultOf table.now text.now)) }
{
    choice_laws();
    translation_laws();
    let steps = trace(alloc, table, text)?;
    let mut found = Vec::new(alloc);
    let mut here = Context::START;
    for step in steps {
        let reported = step_after(alloc, table, text, here, step)?;
        here = table.context_after(here, reported.characters.as_slice());
        found.push(reported)?;
    }
    Ok(found)
}

/// A step with the characters that it reads, after this context.
fn step_after(
    alloc: Global,
    table: &Table,
    text: &[char],
    here: Context,
    step: Traced,
) -> Result<ReportStep, AllocError>
    ensures { IfOk result (λ reported. reported ≡ step_after table.now text.now here step) }
{
    let characters = taken(alloc, text, &step)?;
    let rest = text.get(step.start..).unwrap_or_default();
    let run = table.is_in_caps_run(here.classes, rest);
    Ok(ReportStep {
        step,
        characters,
        here,
        run,
    })
}

/// The steps of the translation of a text whose characters the table defines.
pub fn report_steps(
    alloc: Global,
    table: &Table,
    text: &[char],
) -> Result<Vec<ReportStep>, AllocError>
    requires { IsTrue (is_text table.now text.now) }
    ensures { IfOk result (λ steps. steps.items ≡ report_steps table.now text.now) }
{
    match traced_steps(alloc, table, text) {
        Ok(steps) => Ok(steps),
        Err(Failure::Fault(_)) => unreachable!(),
        Err(Failure::Memory) => Err(AllocError),
    }
}

/// Whether the rules, the characters and the cells of two steps are the same.
fn are_same(one: &ReportStep, other: &ReportStep) -> bool
    ensures { result ≡ are_same one.now other.now }
{
    one.step.rule == other.step.rule
        && one.characters.as_slice() == other.characters.as_slice()
        && one.step.cells.as_slice() == other.step.cells.as_slice()
}

/// The number of steps that two translations have in common before they diverge.
pub fn common_prefix(left: &[ReportStep], right: &[ReportStep]) -> usize
    ensures { result ≡ common_prefix left.now right.now }
{
    let mut count = 0;
    while count < left.len() && count < right.len() && are_same(&left[count], &right[count]) {
        count += 1;
    }
    count
}
