//! The texts of all faults with a code, of notices and of remarks. tools/faults-list makes the
//! tables of docs/guide/FAULTS.md of them.

/// What explains each fault: a line with its own form, or with several, which commas part; when it
/// comes; for a line of a table what the fault's line names; and what to do about it. Words in
/// capitals are for what differs.
pub const FAULTS: [&str; 51] = [
    "Memory\n\
     When: an allocation failed, which says nothing of the table, the text or the certificate\n\
     What to do: Give the program more memory, or search with a smaller `--limit`.\n",
    "notice DefinedAgain CHARACTER\n\
     When: a line defines a character again, which is no fault: the first line gives its cells, as in liblouis\n\
     Named: the character\n\
     What to do: Nothing, if the first line is meant. If not, take it out.\n",
    "remark RuleAgain RULE / RULE\n\
     When: a rule is for the characters of another, at the same places, with other dots, which is no fault: the other is used\n\
     Named: the rule, and the one that is used\n\
     What to do: Take the one out that isn't meant.\n",
    "L8 TooManyIncludes\n\
     When: 1,024 include lines were followed before\n\
     What to do: Join files.\n",
    "L4 Cycle\n\
     When: the file includes itself, at once or by others\n\
     What to do: Take one of the include lines out.\n",
    "L5 TooDeep\n\
     When: the file would be 17 deep, the table being 1\n\
     What to do: Include it from a file nearer to the table.\n",
    "L1 NotFound\n\
     When: there is no file at this path\n\
     What to do: A name is taken from the table's folder, from those of `--path`, or from `/`. Look for a misspelled one.\n",
    "L2 ReadFailed\n\
     When: the file is there and can't be read\n\
     What to do: Check its permissions, and whether it is a folder.\n",
    "L9 TooLarge\n\
     When: the file has more than 16,777,216 bytes\n\
     What to do: Take out what isn't a table.\n",
    "L3 NotUtf8\n\
     When: the file's bytes aren't UTF-8\n\
     What to do: Save it as UTF-8; older tables are often in Latin-1.\n",
    "L6 LineTooLong\n\
     When: the line has more than 2,048 bytes\n\
     What to do: Break the line, or shorten its comment.\n",
    "B1 OutsideProfile\n\
     When: the opcode isn't read, or isn't a rule's after `noback` or `nofor`\n\
     Named: the opcode, the prefix left out\n\
     What to do: TUTORIAL.md, \"A table of liblouis\".\n",
    "B2 MissingOperand\n\
     When: the opcode needs another operand\n\
     Named: the opcode, or a prefix that ends its line\n\
     What to do: Add it.\n",
    "B3 BadCharacters\n\
     When: the operand has a bad escape, or isn't one character, or for `uplow` two different ones\n\
     Named: the operand\n\
     What to do: TABLES.md lists the escapes; a backslash itself is `\\\\`.\n",
    "B4 BadDots\n\
     When: the operand spells no cells, or more than 16, or has `,` or `=` where that isn't allowed\n\
     Named: the operand\n\
     What to do: A cell is dots 1 to 8, each once, or `0`; `-` joins cells: `1-12`. Virtual dots (9, a to f) aren't read.\n",
    "B8 TooMany\n\
     When: the rule has more than 32 characters, or it is character 1,025 or used rule 4,097\n\
     Named: the opcode\n\
     What to do: Shorten the rule or the table.\n",
    "B9 IndicatorTwice\n\
     When: an earlier line defines the indicator\n\
     Named: the opcode\n\
     What to do: Keep one; `capsign` and `capsletter` are one, `begcapsword` and `endcapsword` each its own.\n",
    "B5 UndefinedInRule\n\
     When: no line defines a character of the rule, be it used or not\n\
     Named: the operand\n\
     What to do: Define it, as by `letter` or `punctuation`, or take the rule out.\n",
    "B6 UndefinedInList\n\
     When: no line defines a character of `numericmodechars` or `numericnocontchars`\n\
     Named: the operand\n\
     What to do: Define it.\n",
    "B7 TwoRoles\n\
     When: a character of `numericnocontchars` has a `litdigit` line, and so is a digit\n\
     Named: the operand\n\
     What to do: Take it out of the list.\n",
    "U3 InputFailed at line M\n\
     When: reading the input failed\n\
     What to do: Check the device or the pipe.\n",
    "U5 InputLineTooLong at line M\n\
     When: the line has more than 65,536 bytes\n\
     What to do: Break it.\n",
    "U2 InputNotUtf8 at line M\n\
     When: the line isn't UTF-8\n\
     What to do: Convert the input.\n",
    "F2 BadText WORD\n\
     When: the text, which is read with `--escapes`, has a bad escape\n\
     What to do: TABLES.md lists the escapes; a backslash itself is `\\\\`.\n",
    "F1 UnknownChar N at line M, or at left, at right, at text\n\
     When: the table doesn't define the character there\n\
     What to do: Define it in the table, or leave it out of the text.\n",
    "U1 NoAscii at line M\n\
     When: a cell has dot 7 or 8, which Braille ASCII has no mark for\n\
     What to do: Use `--form unicode`.\n",
    "U4 OutputFailed at line M, or without a line\n\
     When: writing failed; some first bytes may be written\n\
     What to do: Check the free space, or the program that reads the pipe.\n",
    "U6 InputTooLong at line M\n\
     When: the input has more than 16,777,216 bytes; the lines before are written\n\
     What to do: Translate it in parts.\n",
    "U9 BadLeftOut WORD\n\
     When: the word of `--without` has a bad escape\n\
     What to do: TABLES.md lists the escapes; a backslash itself is `\\\\`.\n",
    "U8 UndefinedLeftOut CHARACTER\n\
     When: the table doesn't define it: the first such character of `--without`\n\
     What to do: Leave it out: no text of the table has it.\n",
    "U11 BadOnly WORD\n\
     When: the word of `--only` has a bad escape, or no character\n\
     What to do: TABLES.md lists the escapes; a backslash itself is `\\\\`.\n",
    "U10 UndefinedOnly CHARACTERS\n\
     When: the table doesn't define it: the first such character of `--only`, or range in which no character is defined\n\
     What to do: Leave it out: no text of the table has it.\n",
    "U7 CannotWrite PATH\n\
     When: a file can't be written; after `written before it:` come the files of a cut that are\n\
     What to do: Check the permissions of the file and its folder, and the free space. Cut into another folder, or remove these files.\n",
    "P1 NoSuchRules\n\
     When: the line isn't what two rules of the table say, with ` / ` between them\n\
     Named: the line\n\
     What to do: Read what `brl clashes --accept` lists: the rule may have changed. Then take the line out by `--prune`.\n",
    "P2 NotListed\n\
     When: the line's pair of rules isn't listed, and the list has all\n\
     Named: the line\n\
     What to do: Take the line out by `brl clashes --prune`; or it was accepted with another `--without` or `--only`: give that one.\n",
    "P3 NoSuchSet\n\
     When: the line begins with `exchange`, and what follows isn't two characters or more of one set of the table\n\
     Named: the line\n\
     What to do: `brl clashes` lists the sets, by cells, classes and flags, but for what is in a rule. `--prune` takes the line out.\n",
    "K8 Truncated\n\
     When: the line has no line feed, or there is no `end` line\n\
     What to do: The file was cut: copy it again.\n",
    "K2 Syntax\n\
     When: the line isn't of the form of a line that may come here\n\
     What to do: Take the file as it was written: an editor may have changed it.\n",
    "K3 NotCanonical\n\
     When: the line has that form, but not the one spelling\n\
     What to do: Take the file as it was written: an editor may have changed it.\n",
    "K1 Version\n\
     When: the header names no version from 1 to 3\n\
     What to do: Search again.\n",
    "K4 DuplicateState\n\
     When: an earlier line has the state\n\
     What to do: Mend the program that wrote it: `brl search` writes none.\n",
    "K6 NoSuchState\n\
     When: the pair names a state that isn't there\n\
     What to do: Mend the program that wrote it: `brl search` writes none.\n",
    "K5 DuplicatePair\n\
     When: an earlier line has the pair, in this order\n\
     What to do: Mend the program that wrote it: `brl search` writes none.\n",
    "K7 WrongCount\n\
     When: the `end` line has other numbers of states or pairs\n\
     What to do: Mend the program that wrote it; or lines were lost: copy the file again.\n",
    "K9 OldVersion\n\
     When: versions 1 and 2 have no runs of capitals, and the table defines `begcapsword`\n\
     What to do: Search again: version 3 is for every table.\n",
    "W1 TooWide\n\
     When: the certificate is of version 1, and the table has more than 10,000 steps from the start\n\
     What to do: Search again: version 3 is for every table.\n",
    "A1 NoStart\n\
     When: the start isn't among the states\n\
     What to do: The certificate was made for another table, an earlier state of it, or another `--without` or `--only`: search again.\n",
    "A2 StateMissing state S rule R\n\
     When: a step of rule R from state S ends in none of the states\n\
     What to do: The certificate was made for another table, an earlier state of it, or another `--without` or `--only`: search again.\n",
    "A3 SplitMissing state S rules R R\n\
     When: after two steps of these rules from state S a pair is missing\n\
     What to do: The certificate was made for another table, an earlier state of it, or another `--without` or `--only`: search again.\n",
    "A4 PairMissing pair P rule R\n\
     When: after a step of rule R from pair P a pair is missing\n\
     What to do: The certificate was made for another table, an earlier state of it, or another `--without` or `--only`: search again.\n",
    "A5 BothEnd pair P\n\
     When: a pair with no lead has two states that end\n\
     What to do: The certificate was made for another table, an earlier state of it, or another `--without` or `--only`: search again.\n",
];
