//! The versions of certificates: which states each lists, and how it writes them.
ghost use Rattle.std.specs.Prelude.{◌≡◌, ◌++◌, ◌∷◌, [], ℕ, Bool, map, refl, IfOk, OnOk};
ghost use Rattle.brl_cert.specs.Lines.{StateFormat, after_blanks};
ghost use Rattle.brl_cert.specs.Dues.{dues_format, word_format};
ghost use Rattle.brl_cert.specs.Valid.{IsDuesState, IsWindowState};
ghost use Rattle.brl_cert.specs.Window.{lenient_window, window_format};

use crate::dues_line::{push_dues, push_word, read_dues, read_word};
use crate::field::{push_chars, push_flag, push_number, read_chars, read_context, read_flag};
use brl_pairs::Key;
use brl_states::{DuesState, WindowState};
use std::alloc::{AllocError, Global};

/// A version of certificates: which machine's states it lists, and how it writes them. Two versions
/// may write the states of one machine differently.
pub trait Version {
    type State: Key;

    // How states are written, and when two of them are equal.
    ghost form: { StateFormat Self.State };

    // Which states are in range. In versions 1 and 2 no run of capitals goes to a state: they have
    // no field for one.
    ghost is_state: { Self.State → Type 0 };

    /// Appends the fields of a state, each after a blank.
    fn push_fields(out: &mut Vec<u8>, state: &Self::State) -> Result<(), AllocError>
        ensures written { OnOk result (out.new.items ≡ out.old.items ++ after_blanks (form.fields state.now)) }
        ensures in_range { OnOk result (is_state state.now) };

    /// The state of lenient fields.
    fn read_fields(alloc: Global, fields: &[&[u8]]) -> Result<Option<Self::State>, AllocError>
        ensures { IfOk result (λ state. state ≡ form.lenient (map (λ field. field.now) fields.now)) };

    // The equality of the format is that of the state type.
    ghost same: { form.same ≡ Self.State.eq };
}

/// Version 1 lists states of a window machine.
pub struct Version1;

/// Version 2 lists states of a machine with dues.
pub struct Version2;

/// Version 3 lists states of a machine with dues, each with whether a run of capitals goes to it.
pub struct Version3;

impl Version for Version1 {
    type State = WindowState;

    ghost form = { window_format };

    ghost is_state = { IsWindowState };

    fn push_fields(out: &mut Vec<u8>, state: &WindowState) -> Result<(), AllocError> {
        out.push(b' ')?;
        push_number(out, u32::from(state.before.0))?;
        out.push(b' ')?;
        push_flag(out, state.numeric)?;
        out.push(b' ')?;
        push_flag(out, state.ended)?;
        out.push(b' ')?;
        push_chars(out, state.coming.as_slice())
    }

    fn read_fields(alloc: Global, fields: &[&[u8]]) -> Result<Option<WindowState>, AllocError> {
        let [before, numeric, ended, coming] = fields else {
            return Ok(None);
        };
        read_window(alloc, before, numeric, ended, coming)
    }

    ghost same = { refl };
}

impl Version for Version2 {
    type State = DuesState;

    ghost form = { dues_format };

    ghost is_state = { IsDuesState };

    fn push_fields(out: &mut Vec<u8>, state: &DuesState) -> Result<(), AllocError> {
        push_dues(out, state)
    }

    fn read_fields(alloc: Global, fields: &[&[u8]]) -> Result<Option<DuesState>, AllocError> {
        read_dues(alloc, fields)
    }

    ghost same = { refl };
}

impl Version for Version3 {
    type State = DuesState;

    ghost form = { word_format };

    ghost is_state = { IsDuesState };

    fn push_fields(out: &mut Vec<u8>, state: &DuesState) -> Result<(), AllocError> {
        push_word(out, state)
    }

    fn read_fields(alloc: Global, fields: &[&[u8]]) -> Result<Option<DuesState>, AllocError> {
        read_word(alloc, fields)
    }

    ghost same = { refl };
}

/// The window state of four lenient fields.
fn read_window(
    alloc: Global,
    before: &[u8],
    numeric: &[u8],
    ended: &[u8],
    coming: &[u8],
) -> Result<Option<WindowState>, AllocError>
    ensures { IfOk result (λ state. state ≡ lenient_window (before.now ∷ numeric.now ∷ ended.now ∷ coming.now ∷ [])) }
{
    let Some(here) = read_context(before, numeric, false) else {
        return Ok(None);
    };
    let Some(ended) = read_flag(ended) else {
        return Ok(None);
    };
    let Some(coming) = read_chars(alloc, coming)? else {
        return Ok(None);
    };
    Ok(Some(WindowState::from_context(here, ended, coming)))
}
