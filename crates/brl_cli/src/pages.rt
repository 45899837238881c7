//! The words that `brl` knows: a page for each command, with a row for each operand and option.

use Takes::{
    MaybeName, MaybeNumber, Name, Number, Numbers, Operand, Operands, Switch, SwitchBeside,
    SwitchBut, Text, TextBut, Texts,
};

/// A command, as its help shows it.
pub struct Page {
    pub name: &'static str,
    /// What `brl --help` says of it.
    pub about: &'static str,
    /// What its own help says above the usage; it begins with `about`.
    pub long_about: &'static str,
    /// What follows the options there.
    pub example: &'static str,
    /// Its operands and options, each in their order. `PATH` comes after these options.
    pub arguments: &'static [Argument],
}

/// An operand or an option: its name, what it takes, and what the help says of it.
#[derive(Clone, Copy)]
pub struct Argument(pub &'static str, pub Takes, pub &'static str);

/// What an operand or an option takes.
#[derive(Clone, Copy)]
pub enum Takes {
    /// An operand: a word, which must be there.
    Operand,
    /// An operand: one word or more.
    Operands,
    /// An operand: any number of numbers.
    Numbers,
    /// An option without a value.
    Switch,
    /// An option without a value that needs the first of these options and bars the second.
    SwitchBeside(&'static str, &'static str),
    /// An option without a value that bars another option.
    SwitchBut(&'static str),
    /// An option with a text, whose value the help calls so.
    Text(&'static str),
    /// An option with a text, whose value the help calls so, and that bars another option.
    TextBut(&'static str, &'static str),
    /// An option with a text, whose value the help calls so, and which may be given again.
    Texts(&'static str),
    /// An option with a number, which is this one where the words don't say.
    Number(&'static str),
    /// An option with one of these names, whose value the help calls so. It is the first name where
    /// the words don't say.
    Name(&'static str, &'static [&'static str; 2]),
    /// An option with a number, which may be missing.
    MaybeNumber,
    /// An option with one of these names, whose value the help calls so, which may be missing.
    MaybeName(&'static str, &'static [&'static str; 13]),
}

/// The keys of the kinds of pairs of rules.
const KIND_KEYS: [&str; 13] = [
    "alike", "rules", "cells", "case", "several", "begins", "word", "asdigit", "number", "sets",
    "again", "unseen", "braille",
];

/// The name of Braille ASCII on the command line.
pub const ASCII: &str = "ascii";

/// The name of Unicode braille on the command line.
pub const UNICODE: &str = "unicode";

/// How many states, and how many pairs, a search may find where the words give no limit.
const USUAL_LIMIT: &str = "1000000";

/// The option that each command has.
pub const PATH: Argument = Argument(
    "path",
    Texts("DIR"),
    "Look for files of tables in this folder, too; may be given again",
);

const TABLE: Argument = Argument("TABLE", Operand, "The table's file");

const LIMIT: Argument = Argument(
    "limit",
    Number(USUAL_LIMIT),
    "How many states, and how many pairs, may be found",
);

const WITHOUT: Argument = Argument(
    "without",
    Text("CHARS"),
    "Look only at texts that use none of these characters",
);

const ONLY: Argument = Argument(
    "only",
    TextBut("CHARS", "without"),
    "Look only at texts of these characters; x..y is all from x to y",
);

const EXCUSED: Argument = Argument(
    "accept",
    Text("FILE"),
    "Accept the pairs of rules that this file names, and exchange the characters of its sets",
);

const ESCAPES: Argument = Argument(
    "escapes",
    Switch,
    "Read texts as they are spelled in tables and reports",
);

const LINES: Argument = Argument(
    "lines",
    Switch,
    "Show the lines of the table by which each step is made",
);

/// What `brl --help` says first.
pub const ABOUT: &str =
    "Translates text into braille by liblouis tables, and decides whether texts look alike";

/// What follows the options in `brl --help`.
pub const STATUSES: &str = "Exit status:
  0  the work was done; of two texts: they don't clash; of a certificate: it is accepted;
     of a search: it found a certificate; of rules: some text uses each, none looks like a typing error
  1  two texts clash; a certificate is refused; no text uses some rule; one looks like a typing error;
     an opcode that is surveyed or cut isn't liblouis'
  2  the words, a file, the table, a text, the input or the output had a fault, which standard error names in one line
  3  there was not enough memory, a search decided nothing, or a table is too wide for a certificate of version 1

'brl COMMAND --help' says more of a command, with an example.";

/// A page, whose own help begins with what `brl --help` says of it.
macro_rules! page {
    (
        $name:literal: $about:literal,
        arguments: [$($argument:expr),* $(,)?],
        help: $help:literal,
        example: $example:literal,
    ) => {
        Page {
            name: $name,
            about: $about,
            long_about: concat!($about, "\n\n", $help),
            example: $example,
            arguments: &[$($argument),*],
        }
    };
}

/// The commands on texts and on all texts, which `brl --help` shows first. The prover's steps don't
/// suffice for one list of all commands.
pub static TEXT_PAGES: [Page; 4] = [
    page! {
        "translate": "Translates text into braille by a liblouis table",
        arguments: [
            Argument("form", Name("FORM", &[ASCII, UNICODE]), "How cells are written"),
            Argument("lacking", Switch,
                "Pass over lines with characters that the table doesn't define, and list these"),
            TABLE,
        ],
        help: "Reads standard input line by line and writes the cells of each line to standard
output, as North American Braille ASCII or as Unicode braille. A line is written
before the next is translated. The first fault ends the work: standard error
names it with its line, and the lines before it have been written.

With --lacking, nothing is written for a line with a character that the table
doesn't define, and the work goes on. At the end standard error gets a line for
each such character: how it is spelled in a table, its code point, how often it
occurs and its first line, in the order of these. Then the status is 2. Another
fault ends the work as before, without this list.",
        example: "A table is a UTF-8 file. A line defines a character: an opcode (as letter,
digit, punctuation or space), the character (\\s is a blank) and its dots (0 is
the blank cell, - joins cells). Or it has a rule: where in a word it applies (as
always, word or endword), characters and dots. Or it includes another file. A
line that begins with # is a comment.

Example, a table of four characters and a text:
  printf '%s\\n' 'space \\s 0' 'letter a 1' 'letter b 12' 'letter c 14' > first.ctb
  echo 'abc a' | brl translate first.ctb

It prints:
  ABC A",
    },
    page! {
        "clash": "Says whether two texts look alike in braille",
        arguments: [
            ESCAPES,
            LINES,
            TABLE,
            Argument("LEFT", Operand, "A text"),
            Argument("RIGHT", Operand, "Another text"),
        ],
        help: "Translates both texts by a liblouis table. Where they differ and give the same
cells, they clash: standard output gets their report, and the exit status is 1.
Else it gets 'no clash', and the status is 0.

The report has the texts and their cells, and then of each text the steps of its
translation from where the two diverge: the characters, their cells, and the
file and line of the rule. A blank is written \\s, a backslash \\\\, and control
characters as in a table, so that each text can be copied into one. With
--escapes LEFT and RIGHT are read like that, so texts of a report are given as
they are there. Else a blank is a blank, and a backslash one: a report's \\s would
be a backslash and an s.

With --lines each step is followed by the lines of the table by which it is made:
those of its indicators, and that of its rule.",
        example: "Example, a table in which x looks like ab:
  printf '%s\\n' 'letter a 1' 'letter b 12' 'letter x 1-12' > alike.ctb
  brl clash alike.ctb ab x

It prints:
  left: ab
  right: x
  cells: 1-12
  left from 0:
    a  1   alike.ctb:1
    b  12  alike.ctb:2
  right from 0:
    x  1-12  alike.ctb:3",
    },
    page! {
        "check": "Says whether a certificate proves a table unambiguous",
        arguments: [WITHOUT, ONLY, EXCUSED, TABLE, Argument("CERT", Operand, "The certificate's file")],
        help: "A certificate lists states and pairs of states. Where it is accepted, standard
output gets how many there are, and no two different texts over the table's
characters give the same cells, however long they are. Whoever made the
certificate need not be trusted. Else standard output gets why it is refused,
and the exit status is 1; a refusal doesn't say that two texts look alike.

With --without it is judged for the texts that use none of CHARS, with --only
for those made of CHARS alone, and the last line of an acceptance names these.
CHARS are spelled as in a table. With --only x..y is all characters from x to y
that the table defines.

With --accept it is judged but for what FILE names, as 'brl clashes' writes it:
two texts with the same cells are the same step by step, but that characters of
a set of FILE may stand for each other, to their ends or up to a place where
they go on by a pair of rules of FILE. The second line says how many these are.",
        example: "Example, a table of one letter and its certificate:
  printf 'letter a 1\\n' > a.ctb
  printf 'BRLCERT 1\\nstate 1 0 0 -\\nstate 8 0 0 61\\nstate 8 0 1 -\\n' > a.cert
  printf 'pair 1 2 -\\nend 3 1\\n' >> a.cert
  brl check a.ctb a.cert

It prints:
  accepted: 3 states, 1 pairs",
    },
    page! {
        "search": "Decides whether any two texts look alike by a table",
        arguments: [
            LIMIT,
            WITHOUT,
            ONLY,
            EXCUSED,
            TABLE,
            Argument("OUT", Operand, "The file that gets a certificate"),
        ],
        help: "Searches for a certificate that no two different texts over the table's
characters give the same cells, however long they are. Where there is one, it is
written to OUT, and standard output gets how many states and pairs it lists;
'brl check' accepts it. Where two texts clash, standard output gets their report,
the exit status is 1, and OUT isn't written. No character of one of them, nor one
of each, can be left out so that they still clash. Where more than N states or
more than N pairs are found, nothing is decided, and the status is 3.

With --without only texts that use none of CHARS are searched, with --only those
made of CHARS alone, and the last line after 'certified' names these; 'brl check'
with the same option accepts the certificate. CHARS are spelled as in a table:
\\s is a blank, \\x00a0 a no-break space. With --only x..y is all characters from
x to y that the table defines.

With --accept the pairs of rules and the sets of characters that FILE names are
no clashes, as 'brl clashes' writes them; the second line says how many these
are, and 'brl check' with the same option accepts the certificate. Where some
characters of a set can't stand for each other everywhere, 'not exchangeable' is
printed, and the status is 3.",
        example: "Example, a table of two letters:
  printf '%s\\n' 'letter a 1' 'letter b 12' > ab.ctb
  brl search ab.ctb ab.cert
  brl check ab.ctb ab.cert

It prints:
  certified: 2 states, 0 pairs
  accepted: 2 states, 0 pairs",
    },
];

/// The command that lists clashes, whose page is the longest.
pub static LIST_PAGES: [Page; 1] = [page! {
        "clashes": "Lists every pair of rules by which texts look alike",
        arguments: [
            Argument("first", MaybeNumber, "Show a line for each of the first N pairs of a section; 0 for all"),
            Argument("kind", MaybeName("KEY", &KIND_KEYS), "Show the pairs of one kind alone"),
            Argument("tsv", SwitchBut("first"), "Print a line for each pair, with tabs between columns"),
            LIMIT,
            WITHOUT,
            ONLY,
            Argument("accept", Text("FILE"), "Leave the pairs of rules out that this file names"),
            Argument("write", Text("FILE"), "Write the pairs of rules that are listed to this file"),
            Argument("prune", SwitchBeside("accept", "write"),
                "Take the stale lines out of the file of --accept"),
            TABLE,
        ],
        help: "Where two texts have the same cells, their translations go the same way up to a
place, and there use two different rules, or one that takes other characters or
begins a run of capitals in one of them alone. Standard output gets every pair
of rules at which such texts diverge, however long they are, and no others:
first for texts of small letters and blanks, then with digits, with capitals,
with marks, and for all characters. Each section is printed when it is found. A
pair is listed once, in the first section that it diverges in. Its line has two
texts, their cells, and of each rule the file and line, the opcode and the
characters. The most suspicious come first: texts of the same length by how few
characters differ, then short texts.

A section of more than 12 pairs has a line for each kind of them: how many there
are, and examples. Kinds without examples are in its last lines, by the key that
--kind takes. Before all sections come rules that look like slips, as brl slips
shows them. With --first each pair has a line, N of a section, or all for 0, and
with --kind each pair of one kind. With --tsv the first line names columns, and
each pair has a line, with the file, the line and the words of each rule; there
are no other lines. The kinds, the first whose test holds:
  sets     the pair of the first characters of sets represents it
  braille  a text has a braille pattern
  unseen   a text has an unseen character but the blank, or a rule defines one
  case     capitals alone differ
  again    the pair of small letters represents it
  asdigit  one text has more digits, and both begin with the same digit
  number   one text has more digits
  cells    the characters have the same cells, each the one at its place
  alike    the texts have one length, and one or two letters differ
  rules    two rules with the same cells
  begins   two rules with other cells
  several  a character with the cells of several others
  word     a rule with the cells of other texts

Characters with the same cells, classes and flags that are in no rule are listed
as sets before the sections, and one of each set represents the others there.
More than three sets are one line, unless --first or --kind is given.

The last line says how many pairs of rules there are, and the exit status is 1;
where there are none, the table is unambiguous, and the status is 0. Where a list
has more than N states, pairs of states or pairs of rules, there may be others
than those listed, and the status is 3: --limit 10000 is a first look at a large
table.

With --write the pairs that are listed go to FILE, a line for each: what its two
rules say, with ' / ' between them. A line 'exchange' with the characters of a
set stands for the pairs of their own definitions. Where there may be others,
FILE stays as it was. With --accept the pairs that FILE names so are left out,
and the last line says how many pairs and sets FILE names. Where no other is
left, the status is 0. With both options the pairs that are left are written.

A line of FILE whose pair isn't listed, unless there may be others, or that names
no two rules and no set of the table, is stale: it accepts nothing, standard
error names it, and where no other pair is left, the status is 2. With --prune
such lines are taken out of FILE; nothing is added.

With --without only texts that use none of CHARS are looked at, with --only those
made of CHARS alone, and a line after the last one names these. CHARS are spelled
as in a table. With --only x..y is all characters from x to y that the table
defines.",
        example: "Example, a table with two words that have the cells of a shorter text:
  printf '%s\\n' 'letter a 1' 'letter b 12' 'letter c 14' > three.ctb
  printf '%s\\n' 'word abc 1-12' 'word bca 12-14' >> three.ctb
  brl clashes three.ctb

It prints:
  small letters: 2 pairs of rules diverge, and no others
    abc / ab  1-12  three.ctb:4 word abc  three.ctb:1 letter a
    bca / bc  12-14  three.ctb:5 word bca  three.ctb:2 letter b
  2 pairs of rules diverge, and no others",
    }];

/// The commands on lines and steps.
pub static LINE_PAGES: [Page; 3] = [
    page! {
        "survey": "Lists the lines of tables that are outside the profile or faulty",
        arguments: [
            Argument("brief", Switch, "Leave the lists of faults and dictionaries out"),
            Argument("only", Text("CHARS"), "Say which lines can act on texts of these characters"),
            Argument("TABLE", Operands, "The files of tables"),
        ],
        help: "Reads each TABLE with the files that it includes, and each line by itself: a
faulty line defines nothing, and the lines after it are read all the same.
Standard output gets the fault of each faulty line, how many of these lines
there are of each opcode, how many lines of each file with such lines are read,
and how many of all. Comments, blank lines and lines that include a file aren't
counted. Hyphenation dictionaries, whose names end in .dic, are skipped, with a
line for each. With --brief the faults and the dictionaries aren't listed. With
several TABLEs the lines of each come after its name; one that can't be loaded
is named on standard error, the others are surveyed, and the exit status is 2.

Characters that a rule or a list names and no line defines (B5 to B7) are looked
for once no line has another fault. Of an opcode that isn't read the counts say
whether liblouis has it: where it hasn't, or where no line defines a character,
the exit status is 1. Standard error gets a notice for each line that defines a
character again, in tables whose lines are all read. A survey gives no verdict on
ambiguity.

With --only the report of a TABLE is that of brl cut TABLE DIR --rewrite with the
same --only, and nothing is written: how many lines the cut keeps, and which lines
of the whole table can act on texts of these characters. Where one can, the exit
status is 1; a TABLE whose cut doesn't define one of CHARS is named on standard
error.",
        example: "Example, a table in which one of four lines is read:
  printf '%s\\n' 'letter a 1' 'pass2 @1 @2' 'letter b 9' 'pass2 @2 @3' > far.ctb
  brl survey far.ctb

It prints:
  B1 OutsideProfile pass2 at far.ctb:2
  B4 BadDots 9 at far.ctb:3
  B1 OutsideProfile pass2 at far.ctb:4
  opcode pass2: 2 (not in the profile)
  opcode letter: 1
  file far.ctb: 1 of 4 lines are read
  undefined characters (B5 to B7) are looked for once no line has another fault
  1 of 4 lines are read
  no verdict: a survey doesn't decide whether two texts have the same cells",
    },
    page! {
        "cut": "Writes the lines of a table that are read as a table of its own",
        arguments: [
            Argument("rewrite", Switch, "Also read four more forms of lines, as they are rewritten"),
            Argument("only", Text("CHARS"), "Say which lines can act on texts of these characters"),
            TABLE,
            Argument("DIR", Operand, "The folder that gets the files"),
        ],
        help: "Reads TABLE with the files that it includes. Each file is written under its name
into the folder DIR, line by line: a line that is read stays, and one that isn't
becomes a comment that says why. DIR is made where it isn't there. Files that are
there already are never overwritten: nothing is written then, and the exit status
is 2. A file that was found in a folder of --path is written under the name in the
line that includes it, so DIR has the whole table, and is read without --path.

Where the opcode of a line that is left out isn't one of liblouis', as of one that
is misspelt, the exit status is 1. The files are written all the same.

With --rewrite four more forms of lines are read, and written as they are read: a
line that defines a character after noback; base uppercase U L, which is uplow UL
with the dots of L; contraction X of small letters, which is word X with the dots
of nocontractsign, of letsign and of these letters; and the last letsign line,
which includes letsign-made.cti, a file that is made: a word line for each letter
that may stand alone. Rules that begin with such a letter alone get its dots too.

With --only it is also said which lines of the whole table can act on texts of
these characters: lines that are left out, and lines that are read in another
way than liblouis does. Where none can, what brl search, check, clashes and
unused say with the same --only holds of TABLE; this rests on what tests found
of liblouis. Where one can, the exit status is 1, and the files are written all
the same; there '# can act: ' is before each line that is left out and can act.
CHARS are spelled as in a table, x..y is all characters from x to y that the cut
defines, and the blank always belongs to them.",
        example: "Example, a table in which one of three lines isn't read:
  printf '%s\\n' 'letter a 1' 'pass2 @1 @2' 'letter b 12' > far.ctb
  brl cut far.ctb near > cut.txt
  head -n 1 near/far.ctb

It prints:
  letter a 1",
    },
    page! {
        "trace": "Shows the steps of a text's translation",
        arguments: [ESCAPES, LINES, TABLE, Argument("TEXT", Operand, "A text")],
        help: "Translates the text by a liblouis table. Standard output gets the text, its cells,
and a line for each step: the characters that it reads, the cells of the
indicators before them (- for none), the cells of the rule, and the file and line
of the rule. A blank is written \\s, a backslash \\\\, and control characters as in
a table. With --escapes TEXT is read like that, so a text of a report is given as
it is there. Else a blank is a blank, and a backslash one.

With --lines each step is followed by the lines of the table by which it is made:
those of its indicators, and that of its rule.",
        example: "Example, a table of a letter, its capital and a digit:
  printf '%s\\n' 'uplow Aa 1' 'capsletter 6' 'litdigit 1 1' 'numsign 3456' > steps.ctb
  brl trace steps.ctb Aa1

It prints:
  text: Aa1
  cells: 6-1-1-3456-1
    A  6     1  steps.ctb:1
    a  -     1  steps.ctb:1
    1  3456  1  steps.ctb:3",
    },
];

/// The commands on rules and faults.
pub static RULE_PAGES: [Page; 4] = [
    page! {
        "rules": "Lists the rules of a table by their numbers",
        arguments: [TABLE, Argument("N", Numbers, "The numbers of rules")],
        help: "Reads a liblouis table. Standard output gets a line for each rule with one of the
numbers N, or where none is given for each of its rules: the number, the opcode,
the characters, the cells, and the file and line of the rule. A trace, a report
and a refusal of a certificate speak of these rules, and a refusal names them by
these numbers.

The rules come in the order in which they are tried: longer ones first. After
them come the characters, each with the line that gives it its cells.",
        example: "Example, a table of two letters and a rule:
  printf '%s\\n' 'letter a 1' 'letter b 12' 'always ab 14' > ranked.ctb
  brl rules ranked.ctb

It prints:
  0  always  ab  14  ranked.ctb:3
  1  letter  a  1  ranked.ctb:1
  2  letter  b  12  ranked.ctb:2",
    },
    page! {
        "unused": "Lists the rules of a table that no text uses",
        arguments: [
            Argument("limit", Number(USUAL_LIMIT), "How many states may be found"),
            WITHOUT,
            ONLY,
            TABLE,
        ],
        help: "Reads a liblouis table. Standard output gets a line for each rule that the
translation of no text over the table's characters uses, however long the text
is, and for no other rule: the line of 'brl rules', and after it the rule that is
chosen in its place where its characters are a whole text, with the file and
line, the opcode and the characters. The cells that a line gives a character are
a rule too.

The last line says how many rules these are, and how many the table has. Where
there are some, the exit status is 1, else 0. Where more than N states are found,
no rule is listed, and the status is 3.

With --without only texts that use none of CHARS are looked at, with --only those
made of CHARS alone, and a line after the last one names these. CHARS are spelled
as in a table. With --only x..y is all characters from x to y that the table
defines.",
        example: "Example, a table that has one rule twice:
  printf '%s\n' 'letter a 1' 'letter b 12' 'always ab 3' 'always ab 4' > twice.ctb
  brl unused twice.ctb

It prints:
  1  always  ab  4  twice.ctb:4  in its place:  twice.ctb:3 always ab
  1 of 4 rules is used by no text",
    },
    page! {
        "slips": "Lists rules that look like typing errors",
        arguments: [Argument("tsv", Switch, "Write named columns with tabs between them"), TABLE],
        help: "Reads TABLE with the files that it includes; lines that aren't read are passed
over. A rule of four letters or more, and of four cells or more, is listed where
its cells are those of its own characters, spelled by shorter rules and single
characters, but for one or two: a cell that stands for another, two that are
exchanged, one too many, one that is missing, or of seven cells or more two that
stand for others. Its line has the number of its line, its opcode, its characters,
and which cell it is. So do two rules with the same cells of which one letter
differs. Those that are wrong most often come first.

A difference in four rules or more is an author's habit, or one fault that was
copied, and is one line with their number. Nothing is decided: a rule that is
listed may be meant, and one that isn't may be wrong. Where rules are listed, the
exit status is 1, else 0.

With --tsv the first line names columns, and each rule, habit or pair of rules
has a line of them, with tabs between.",
        example: "Example, a table in which the cells of a word are misspelt:
  printf '%s\\n' 'letter a 1' 'letter b 12' 'letter c 14' > cab.ctb
  printf '%s\\n' 'word cabba 14-1-12-14-1' >> cab.ctb
  brl slips cab.ctb

It prints:
  likely slips: 1 line
    cab.ctb
      4 word cabba  cell 4 is 14 c for 12 b",
    },
    page! {
        "explain": "Says what a fault means",
        arguments: [Argument("FAULT", Operand, "A code, or a line")],
        help: "Takes the code of a fault, or a whole line that names one, as it was printed.
Standard output gets the form of its line, when it comes, for a line of a table
what it names, and what to do about it. Of a whole line it also gets which dots
are wrong, and the characters that can't be seen or may be taken for others,
spelled by their numbers. Where the file is there that it names, it gets the
table's line too, the line that defined an indicator first, or the first byte
that isn't UTF-8.",
        example: "Example:
  brl explain 'U1 NoAscii at line 5'

It prints:
  U1 NoAscii at line M
  When: a cell has dot 7 or 8, which Braille ASCII has no mark for
  What to do: Use `--form unicode`.",
    },
];
