//! The lines of a table by which a step is made.
ghost use Rattle.std.specs.Prelude.{◌≡◌, ◌++◌, IfOk, OnOk, flat_map, map, string_bytes};
ghost use Rattle.brl_lines.specs.Views.{line_view};
ghost use Rattle.brl_report.specs.Sources.{sign_source, sign_sources, step_sources};

use crate::rules::{Lined, RuleForm, Wanted, push_source};
use crate::steps::ReportStep;
use brl_rules::{Info, Sign};
use std::alloc::AllocError;

impl Lined<'_> {
    /// The lines by which a step is made, among the lines of a table: those of its indicators, and
    /// that of its rule; none where no lines are given. Each has its file and number, and its
    /// words.
    pub(crate) fn step_sources(&self, step: &ReportStep) -> Result<String, AllocError>
        ensures { IfOk result (λ text. string_bytes text ≡ step_sources self.now.table.now (map line_view self.now.lines.now) step.now) }
    {
        let mut text = String::new(self.alloc);
        if self.lines.is_empty() {
            return Ok(text);
        }
        self.push_sign_sources(step, &mut text)?;
        self.push_rule(step.step.rule, RuleForm::Source, &mut text)?;
        Ok(text)
    }

    /// Appends the lines of the indicators of a step.
    fn push_sign_sources(&self, step: &ReportStep, text: &mut String) -> Result<(), AllocError>
        ensures { OnOk result (string_bytes text.new ≡ string_bytes text.old ++ sign_sources self.now.table.now (map line_view self.now.lines.now) step.now) }
    {
        let Some(first) = step.characters.as_slice().first() else {
            return Ok(());
        };
        let Some(info) = self.table.info(*first) else {
            return Ok(());
        };
        self.push_signs(step, info, &Sign::ORDER, text)
    }

    /// Appends the lines of those of these indicators that are used before the character with this
    /// info.
    fn push_signs(
        &self,
        step: &ReportStep,
        info: &Info,
        signs: &[Sign],
        text: &mut String,
    ) -> Result<(), AllocError>
        ensures { OnOk result (string_bytes text.new ≡ string_bytes text.old ++ flat_map (sign_source self.now.table.now (map line_view self.now.lines.now) step.now info.now) signs.now) }
    {
        for sign in signs {
            self.push_sign_source(step, info, *sign, text)?;
        }
        Ok(())
    }

    /// Appends the line of an indicator, where it is used before the character with this info.
    fn push_sign_source(
        &self,
        step: &ReportStep,
        info: &Info,
        sign: Sign,
        text: &mut String,
    ) -> Result<(), AllocError>
        ensures { OnOk result (string_bytes text.new ≡ string_bytes text.old ++ sign_source self.now.table.now (map line_view self.now.lines.now) step.now info.now sign) }
    {
        if self.table.uses_indicator(step.here, step.run, info, sign) {
            push_source(self.lines, Wanted::Giving(sign), text)?;
        }
        Ok(())
    }
}
