//! Cells, lines, tables and translation.
use brl_acting::{ActingLine, Letters, acting_of_table};
use brl_cells::{Cell, Cells, DotsFault, read_dots, to_ascii, to_unicode, write_dots};
use brl_cut::{Cut, CutFault, CutTable, cut_table, mark_lines, written_root};
use brl_failure::Failure;
use brl_forward::{Clash, ConfirmFault, ForwardFault, Traced, confirm, trace, translate};
use brl_lines::{
    CharsFault, FileSource, GatherFault, Gathered, GatheredFile, IncludeReason, LeftInclude, Line,
    LoadFault, Loaded, MapSource, Source, SourceFault, Token, WithoutDictionaries, chars_of,
    folder, gather, last_part, load, load_without_dictionaries,
};
use brl_report::skipped_report;
use brl_table::{
    Class, Cond, Info, Notice, Place, Rule, Sign, Table, TableFault, good_characters, holds,
    read_table,
};
use brl_testing::{lend, one_file, table_of};
use std::alloc::Global;
use std::rt::Files;
use std::test::Fail;

/// A table of two letters, and a rule for both.
const RULE: &str = "letter a 1; letter b 12; always ab 14";

/// Whether a call is refused with a fault.
pub fn is_refused<T: Drop, E: Drop>(answer: Result<T, Failure<E>>) -> bool {
    matches!(&answer, Err(Failure::Fault(_)))
}

fn is_spelled(alloc: Global, text: &str, want: &str) -> Result<bool, Fail> {
    let cells: Cells = read_dots(alloc, text, 16)?;
    lend(
        write_dots(alloc, cells.as_slice())?,
        |spelled| Ok(spelled.as_str() == want),
    )
}

fn dots_fault(alloc: Global, text: &str) -> Option<DotsFault> {
    match read_dots(alloc, text, 16) {
        Err(Failure::Fault(fault)) => Some(fault),
        _ => None,
    }
}

fn spells_cells(alloc: Global) -> Result<bool, Fail> {
    Ok(
        is_spelled(alloc, "21-0", "12-0")?
            && dots_fault(alloc, "11") == Some(DotsFault::RepeatedDot)
            && to_ascii(Cell(1)) == Some(b'A')
            && to_unicode(Cell(1)) == '\u{2801}',
    )
}

fn source_fault<S: Source>(alloc: Global, source: &mut S) -> Option<SourceFault> {
    match source.read(alloc, "u.ctb") {
        Err(Failure::Fault(fault)) => Some(fault),
        _ => None,
    }
}

/// Whether a source without the file `u.ctb` says so, and hasn't failed.
fn lacks_a_file<S: Source>(alloc: Global, source: &mut S) -> bool {
    source_fault(alloc, source) == Some(SourceFault::NotFound) && source.failures() == 0
}

fn is_not_loaded<S: Source>(alloc: Global, source: &mut S) -> bool {
    let loaded: Result<Loaded, Failure<LoadFault>> = load(alloc, source, "u.ctb");
    is_refused(loaded)
}

fn has_one_file(alloc: Global) -> Result<bool, Fail> {
    let mut files: MapSource = one_file(alloc, "t.ctb", b"letter a 1\n")?;
    Ok(lacks_a_file(alloc, &mut files) && is_not_loaded(alloc, &mut files))
}

/// Whether a source over the files of a system hasn't failed yet.
fn is_calm<R: Files + Drop>(system: R) -> bool {
    lend(FileSource::new(system), |source| source.failures() == 0)
}

fn is_line(line: &Line<'_>) -> bool {
    let opcode: Token<'_> = line.opcode;
    line.file == "t.ctb" && line.line == 1 && opcode.text == "letter" && opcode.start == 0
}

/// Whether these are the one line of `letter`, and make a table.
fn make_a_table(alloc: Global, lines: &[Line<'_>]) -> bool {
    let table: Result<Table, Failure<TableFault>> = read_table(alloc, lines);
    lines.iter().all(|line| is_line(line)) && table.is_ok()
}

fn is_read(alloc: Global, loaded: &Loaded) -> Result<bool, Fail> {
    let lines = loaded.lines(alloc)?;
    Ok(make_a_table(alloc, lines.as_slice()))
}

fn is_loaded(alloc: Global, files: &mut MapSource) -> Result<bool, Fail> {
    let loaded = load(alloc, files, "t.ctb")?;
    is_read(alloc, &loaded)
}

fn reads_lines(alloc: Global) -> Result<bool, Fail> {
    let mut files = one_file(alloc, "t.ctb", b"letter a 1\n")?;
    is_loaded(alloc, &mut files)
}

fn refuses_an_escape(alloc: Global) -> bool {
    let bad: Result<Vec<char>, Failure<CharsFault>> = chars_of(alloc, "\\q");
    is_refused(bad)
}

/// Whether a rule is `ab` of line 3, anywhere, with the cell 1-4.
fn is_rule(rule: &Rule) -> bool {
    let place: Place = rule.place;
    let before: Cond = place.before();
    place == Place::Always
        && holds(before, Class::LETTER)
        && holds(place.after(Class::LETTER), Class::SPACE)
        && rule.chars.as_slice() == ['a', 'b'].as_slice()
        && rule.cells.as_slice() == [Cell(9)].as_slice()
        && rule.line == 3
}

/// Whether an info is that of a table's second character, a letter.
fn is_second(info: &Info) -> bool {
    info.number == 1 && info.classes == Class::LETTER
}

fn has_two_characters(table: &Table) -> bool {
    table.char_count() == 2
        && table.char_at(1) == 'b'
        && table.info('b').is_some_and(|info| is_second(info))
        && table.info('c').is_none()
}

fn has_its_rule(table: &Table) -> bool {
    table.rules_in_rank().len() == 1
        && table.rules_in_rank().iter().all(|rule| is_rule(rule))
        && table.choose(Class::SPACE, &['a', 'b']) == Some(0)
        && table.indicator(Sign::NumSign).is_empty()
}

/// Whether a table's first notice is that of `a` at line 2, with the name of its file.
fn is_noticed(table: &Table) -> bool {
    table.law();
    match table.notices().first() {
        Some(
            Notice {
                character,
                file,
                line,
            },
        ) => *character == 'a' && *line == 2 && table.file_name(*file) == "t.ctb",
        None => false,
    }
}

fn has_a_notice(alloc: Global) -> Result<bool, Fail> {
    let table = table_of(alloc, "letter a 1; letter a 12")?;
    Ok(is_noticed(&table))
}

fn is_translated(alloc: Global, table: &Table) -> bool {
    match translate(alloc, table, &['a', 'b', 'a']) {
        Ok(cells) => cells.as_slice() == [Cell(9), Cell(1)].as_slice(),
        Err(_) => false,
    }
}

/// Whether the first of two steps reads two characters by the first rule.
fn are_steps(steps: &[Traced]) -> bool {
    match steps {
        [first, _] => first.rule == 0 && first.length == 2 && first.indicators == 0,
        _ => false,
    }
}

fn is_traced(alloc: Global, table: &Table) -> bool {
    match trace(alloc, table, &['a', 'b', 'a']) {
        Ok(steps) => are_steps(steps.as_slice()),
        Err(_) => false,
    }
}

fn knows_no_z(alloc: Global, table: &Table) -> bool {
    let one: Result<Vec<Cell>, Failure<ForwardFault>> = translate(alloc, table, &['z']);
    let two: Result<Option<Clash>, Failure<ConfirmFault>> = confirm(alloc, table, &['a'], &['z']);
    is_refused(one) && is_refused(two)
}

/// Whether the table of a rule is read, and translates by it.
fn has_a_rule(alloc: Global) -> Result<bool, Fail> {
    let table = table_of(alloc, RULE)?;
    Ok(
        has_two_characters(&table)
            && has_its_rule(&table)
            && is_translated(alloc, &table)
            && is_traced(alloc, &table)
            && knows_no_z(alloc, &table),
    )
}

fn is_clash(clash: &Clash) -> bool {
    clash.left() == ['a', 'b'].as_slice()
        && clash.right() == ['x'].as_slice()
        && clash.cells() == [Cell(1), Cell(3)].as_slice()
}

fn clashes(alloc: Global, table: &Table) -> bool {
    match confirm(alloc, table, &['a', 'b'], &['x']) {
        Ok(Some(clash)) => is_clash(&clash),
        _ => false,
    }
}

fn has_a_clash(alloc: Global) -> Result<bool, Fail> {
    let table = table_of(alloc, "letter a 1; letter b 12; letter x 1-12")?;
    Ok(clashes(alloc, &table))
}

fn is_left_out(left: &LeftInclude) -> bool {
    left.name.as_str() == "u" && left.reason == IncludeReason::Missing && left.line == 2
}

fn is_gathered(gathered: &Gathered) -> bool {
    let files: &[GatheredFile] = gathered.files.as_slice();
    let names: &[String] = gathered.names.as_slice();
    files.len() == 1 && names.len() == 1 && gathered.left_out.iter().all(|left| is_left_out(left))
}

/// Whether a cut keeps one line of three, and a slash parts folders and the last parts of paths.
fn is_cut(cut: &Cut) -> bool {
    cut.line_files.len() == 1
        && cut.left_out.len() == 2
        && folder("o/t.ctb") == "o/"
        && last_part("o/t.ctb") == "t.ctb"
}

fn has_a_cut(alloc: Global) -> Result<bool, Fail> {
    let mut files = one_file(alloc, "t.ctb", b"letter a 1\ninclude u\npass2 @1 2\n")?;
    let gathered: Result<Gathered, Failure<GatherFault>> = gather(alloc, &mut files, "t.ctb");
    let of: Result<CutTable, Failure<CutFault>> = cut_table(alloc, &mut files, "t.ctb", "o", false);
    let of = of?;
    Ok(is_gathered(&gathered?) && is_cut(&of.cut) && can_act(alloc, &of)?)
}

/// Whether two lines of a table can act on texts of `a`, which its cut defines, and are marked.
fn can_act(alloc: Global, of: &CutTable) -> Result<bool, Fail> {
    let left_out = of.cut.left_out.as_slice();
    let acting: Vec<ActingLine> = acting_of_table(
        alloc,
        &of.whole,
        &of.gathered,
        left_out,
        &['a'],
    )?;
    let mut places = Vec::new(alloc);
    for line in acting {
        places.push(line.place)?;
    }
    let marked = mark_lines(alloc, of, "t.ctb", "o", places.as_slice())?;
    let root = written_root(alloc, "o", "t.ctb")?;
    let letters = Letters::of_lines(alloc, of.whole.lines(alloc)?.as_slice())?;
    Ok(
        letters.has('a')
            && letters.takes_sign('a')
            && !letters.has('b')
            && of.table.char_count() == 1
            && marked.len() == 1
            && marked[0].path.as_str() == root.as_str()
            && marked[0].bytes.as_slice() == MARKED,
    )
}

/// The file of a cut whose two lines that are left out can act.
const MARKED: &[u8] = b"letter a 1
# can act: # L1 NotFound u: include u
# can act: # B1 OutsideProfile pass2: pass2 @1 2
";

/// Whether a table without its dictionary has one character, `a`.
fn is_without_dictionary(alloc: Global, table: &WithoutDictionaries) -> Result<bool, Fail> {
    let skipped = skipped_report(alloc, table.skipped.as_slice())?;
    let lines = table.loaded.lines(alloc)?;
    let characters = good_characters(alloc, lines.as_slice())?;
    Ok(
        skipped.as_str() == "skipped: h.dic at t.ctb:2\n"
            && characters.len() == 1
            && characters.contains_key(&'a'),
    )
}

fn skips_a_dictionary(alloc: Global) -> Result<bool, Fail> {
    let mut files = one_file(alloc, "t.ctb", b"letter a 1\ninclude h.dic\n")?;
    let loaded: Result<WithoutDictionaries, Failure<LoadFault>> = load_without_dictionaries(
        alloc, &mut files, "t.ctb",
    );
    is_without_dictionary(alloc, &loaded?)
}

fn are_reached(alloc: Global) -> Result<bool, Fail> {
    Ok(
        spells_cells(alloc)?
            && has_one_file(alloc)?
            && reads_lines(alloc)?
            && refuses_an_escape(alloc)
            && has_a_notice(alloc)?
            && has_a_rule(alloc)?
            && has_a_clash(alloc)?
            && has_a_cut(alloc)?
            && skips_a_dictionary(alloc)?,
    )
}

#[test]
fn calls_of_tables(rt: HostRuntime) -> Result<(), Fail> {
    assert!(rt; is_calm(&rt) && are_reached(rt.alloc())?);
    Ok(())
}
