//! Leads, and a machine of two letters through every generic function.
use brl_cells::{Cell, Cells, read_dots, write_dots};
use brl_examples::{
    Letters, letters_are_unambiguous, letters_diverge_at_their_rules, letters_diverge_where_listed,
    numbered_letters_are_unambiguous, numbered_letters_diverge_at_their_rules,
    runs_of_letters_are_closed,
};
use brl_pairs::{Advanced, Machine, Pair, Step, advance, advance_law};
use brl_testing::for_rows_of_3;
use std::alloc::{AllocError, Global};
use std::test::Fail;

/// The state after a machine's last step from its start, and how many steps there are.
fn last_state<M: Machine>(
    alloc: Global,
    machine: &M,
) -> Result<(Option<M::State>, usize), AllocError> {
    let mut listed = machine.moves(alloc, &machine.start())?;
    let count = listed.len();
    Ok((listed.pop().map(|step| step.next), count))
}

/// A pair whose runs have given the same cells, and whether both may end.
fn level<M: Machine>(alloc: Global, machine: &M) -> (Pair<M::State>, bool) {
    let pair = Pair {
        ahead: machine.start(),
        behind: machine.start(),
        lead: Cells::new(alloc),
    };
    let both = machine.ends(&pair.ahead) && machine.ends(&pair.behind);
    (pair, both)
}

/// Whether there are two steps and the second reads `b`.
fn are_steps_of_letters(listed: &[Step<bool>]) -> bool {
    match listed {
        [_, second] => {
            second.rule == 1
                && second.reads.as_slice() == ['b'].as_slice()
                && second.cells.as_slice() == [Cell(1), Cell(3)].as_slice()
        }
        _ => false,
    }
}

#[test]
fn steps_of_letters(rt: HostRuntime) -> Result<(), Fail> {
    let listed = Letters.moves(rt.alloc(), &Letters.start())?;
    assert!(rt; are_steps_of_letters(listed.as_slice()));
    Ok(())
}

#[test]
fn the_last_step_of_letters(rt: HostRuntime) -> Result<(), Fail> {
    let (last, count) = last_state(rt.alloc(), &Letters)?;
    assert!(rt; last == Some(true) && count == 2);
    Ok(())
}

#[test]
fn pairs_of_letters(rt: HostRuntime) {
    let (pair, both) = level(rt.alloc(), &Letters);
    assert!(rt; both && pair.lead.is_empty() && !pair.ahead && !pair.behind);
    letters_are_unambiguous();
    numbered_letters_are_unambiguous();
    letters_diverge_at_their_rules();
    numbered_letters_diverge_at_their_rules();
    runs_of_letters_are_closed();
    letters_diverge_where_listed();
    advance_law(&Letters);
}

/// The dots of a lead, those of the cells that the run behind gives, and what becomes of the lead.
const LEADS: &str = "\
1-12|1|still:12
1|1|still:
1|1-12|swapped:12
|1|swapped:1
1-12|12|apart
";

/// The cells of dots: none of no dots.
fn cells_of(alloc: Global, dots: &str) -> Result<Cells, Fail> {
    if dots.is_empty() {
        return Ok(Cells::new(alloc));
    }
    Ok(read_dots(alloc, dots, 16)?)
}

/// What becomes of a lead, with the dots of its rest.
fn advanced_text(alloc: Global, lead: &[Cell], cells: &[Cell]) -> Result<String, Fail> {
    let (word, rest) = match advance(lead, cells) {
        Advanced::Still(rest) => ("still:", rest),
        Advanced::Swapped(rest) => ("swapped:", rest),
        Advanced::Apart => return Ok(String::from_str(alloc, "apart")?),
    };
    let dots = write_dots(alloc, rest)?;
    Ok(format!(in alloc; "{word}{dots}")?)
}

fn advanced(alloc: Global, lead: &str, cells: &str) -> Result<String, Fail> {
    let lead = cells_of(alloc, lead)?;
    let cells = cells_of(alloc, cells)?;
    advanced_text(alloc, lead.as_slice(), cells.as_slice())
}

#[test]
fn worked_leads(rt: HostRuntime) -> Result<(), Fail> {
    for_rows_of_3(rt.alloc(), LEADS, advanced)
}
