//! What the program answers.

/// Files, the words, the lines of an input, those that are written to standard output and to
/// standard error, and the status.
pub const TRANSLATIONS: &str = "\
t.ctb: space \\s 0; letter a 1; letter b 12; letter c 14|brl,translate,t.ctb|abc a|ABC A||0
t.ctb: space \\s 0; letter a 1; letter b 12; letter c 14|brl,translate,t.ctb||||0
t.ctb: space \\s 0; letter a 1; letter b 12; letter c 14|brl,translate,t.ctb|az||F1 UnknownChar 1 at line 1|2
t.ctb: space \\s 0; letter a 1; letter b 12; letter c 14|brl,translate,t.ctb|ab; c; az; b|AB; C|F1 UnknownChar 1 at line 3|2
t.ctb: letter q 17|brl,translate,t.ctb|q||U1 NoAscii at line 1|2
t.ctb: space \\s 0; letter a 1; letter b 12; letter c 14|brl,translate,--lacking,t.ctb|az; b; zyaz; c|B; C|lacking z U+007A: count 3, first line 1; lacking y U+0079: count 1, first line 3|2
t.ctb: space \\s 0; letter a 1; letter b 12; letter c 14|brl,translate,--lacking,t.ctb|abc a|ABC A||0
t.ctb: space \\s 0; letter a 1; letter b 12; letter c 14|brl,translate,--lacking,t.ctb||||0
t.ctb: letter a 1|brl,translate,--lacking,t.ctb|a; a a; \u{e9}\u{1f600}|A|lacking \\s U+0020: count 1, first line 2; lacking \u{e9} U+00E9: count 1, first line 3; lacking \u{1f600} U+1F600: count 1, first line 3|2
t.ctb: letter q 17|brl,translate,--lacking,t.ctb|z; q; y||U1 NoAscii at line 2|2
t.ctb: letter q 17|brl,translate,--lacking,--form,unicode,t.ctb|zq; q|\u{2841}|lacking z U+007A: count 1, first line 1|2
t.ctb: letter a|brl,translate,--lacking,t.ctb|a||B2 MissingOperand letter at t.ctb:1|2
t.ctb: include u & one/u: letter a 1 & two/u: letter a 2|brl,translate,--path,one,--path,two,t.ctb|a|A||0
t.ctb: include u & one/u: letter a 1 & two/u: letter a 2|brl,translate,--path,two,--path,one,t.ctb|a|1||0
t.ctb: include u & one/u: letter a 1|brl,translate,--path=one/,t.ctb,--lacking|a|A||0
t.ctb: include u & u: letter a 12 & one/u: letter a 1|brl,translate,--path,one,t.ctb|a|B||0
t.ctb: include u & one/u: letter a 1|brl,translate,t.ctb|a||L1 NotFound u at t.ctb:1|2
t.ctb: include u & one/u: letter a|brl,translate,--path,one,t.ctb|a||B2 MissingOperand letter at one/u:1|2
one/t.ctb: letter a 1|brl,translate,--path,one,t.ctb|a|A||0
t.ctb: pass2 @1 @2|brl,translate,t.ctb|||B1 OutsideProfile pass2 at t.ctb:1|2
t.ctb: letter a 1; letter a 12|brl,translate,t.ctb|a|A||0
t.ctb: letter a|brl,translate,t.ctb|||B2 MissingOperand letter at t.ctb:1|2
t.ctb: letter ab 1|brl,translate,t.ctb|||B3 BadCharacters ab at t.ctb:1|2
t.ctb: letter \\q 1|brl,translate,t.ctb|||B3 BadCharacters \\q at t.ctb:1|2
t.ctb: letter a 19|brl,translate,t.ctb|||B4 BadDots 19 at t.ctb:1|2
t.ctb: letter a 1-|brl,translate,t.ctb|||B4 BadDots 1- at t.ctb:1|2
t.ctb: letter a 9|brl,translate,t.ctb|||B4 BadDots 9 at t.ctb:1|2
t.ctb: letter a 01|brl,translate,t.ctb|||B4 BadDots 01 at t.ctb:1|2
t.ctb: letter a 11|brl,translate,t.ctb|||B4 BadDots 11 at t.ctb:1|2
t.ctb: letter a 1-1-1-1-1-1-1-1-1-1-1-1-1-1-1-1-1|brl,translate,t.ctb|||B4 BadDots 1-1-1-1-1-1-1-1-1-1-1-1-1-1-1-1-1 at t.ctb:1|2
t.ctb: letter a 21-0|brl,translate,t.ctb|a|B ||0
t.ctb: \u{feff}letter a 1\r; punctuation . 256 full stop\r|brl,translate,t.ctb|a.\r|A4||0
t.ctb: letter \u{e9} 123456-1|brl,translate,t.ctb|\u{e9}\u{e9}|=A=A||0
t.ctb: letter a 1; letter b 12; letter x 1-12; always ab 14|brl,translate,t.ctb|aab|AC||0
t.ctb: space \\s 0; letter b 12; letter u 136; letter t 2345; word but 12; word b 56-12|brl,translate,t.ctb|b but|;B B||0
t.ctb: space \\s 0; letter a 1; letter b 12; punctuation . 256; begword ab 14; endword ab 15; word ab 16; midword ab 24|brl,translate,t.ctb|ab aba aab aaba ab.|* CA AE AIA *4||0
t.ctb: space \\s 0; letter a 1; letter b 12; partword ab 14|brl,translate,t.ctb|ab aba aab|AB CA AC||0
t.ctb: letter a 1; always a 14; always a 15|brl,translate,t.ctb|a|C||0
t.ctb: letter a 1; letter b 12; always ab 14; word ab 15|brl,translate,t.ctb|ab|E||0
t.ctb: letter a 1; letter b 12; always ab 14; word ab 15|brl,translate,t.ctb|aab|AC||0
t.ctb: letter a 1; letter b 12; noback always ab 14; nofor always ba 15; display \\x2801 1|brl,translate,t.ctb|abba|CBA||0
t.ctb: letter a 1; always ab 14|brl,translate,t.ctb|||B5 UndefinedInRule ab at t.ctb:2|2
t.ctb: letter a 1; nofor always ab 14|brl,translate,t.ctb|||B5 UndefinedInRule ab at t.ctb:2|2
t.ctb: always ab =|brl,translate,t.ctb|||B5 UndefinedInRule ab at t.ctb:1|2
t.ctb: always ab =; letter a 1; letter b 12; letter c 14; always ab 14|brl,translate,t.ctb|abc|ABC||0
t.ctb: letter a 1; letter b 12; letter c 14; always ab 14; always ab =|brl,translate,t.ctb|abc|CC||0
t.ctb: letter a 1; always aaaaaaaaaaaaaaaaaaaaaaaaaaaaaaaa 14|brl,translate,t.ctb|aaaaaaaaaaaaaaaaaaaaaaaaaaaaaaaaa|CA||0
t.ctb: letter a 1; always aaaaaaaaaaaaaaaaaaaaaaaaaaaaaaaaa 14|brl,translate,t.ctb|||B8 TooMany always at t.ctb:2|2
t.ctb: noback|brl,translate,t.ctb|||B2 MissingOperand noback at t.ctb:1|2
t.ctb: nofor always a|brl,translate,t.ctb|||B2 MissingOperand always at t.ctb:1|2
t.ctb: noback letter a 1|brl,translate,t.ctb|||B1 OutsideProfile letter at t.ctb:1|2
t.ctb: letter a =|brl,translate,t.ctb|||B4 BadDots = at t.ctb:1|2
t.ctb: always \\q 14|brl,translate,t.ctb|||B3 BadCharacters \\q at t.ctb:1|2
t.ctb: digit 1 1; lowercase b 12; uppercase C 14; sign + 346; math = 2356|brl,translate,t.ctb|1bC+=|ABC+7||0
t.ctb: letter a 1; # letter a; ; letter b|brl,translate,t.ctb|a||B2 MissingOperand letter at t.ctb:4|2
t.ctb: space \\s 0; letter a 1|brl,translate,t.ctb,--form,ascii|a |A ||0
t.ctb: space \\s 0; letter a 1|brl,translate,t.ctb,--form,unicode|a |\u{2801}\u{2800}||0
t.ctb: letter q 17|brl,translate,--form=unicode,t.ctb|q|\u{2841}||0
t.ctb: letter a 1; litdigit 1 1; numsign 3456|brl,translate,t.ctb|1a|#AA||0
t.ctb: letter a 1; litdigit 1 1; numsign 3456|brl,translate,t.ctb|11|#AA||0
t.ctb: letter a 1; litdigit 1 1; numsign 3456; nocontractsign 56; numericnocontchars a|brl,translate,t.ctb|1a|#A;A||0
t.ctb: uplow Aa 1; uplow Bb 12; capsletter 6; always ab 14|brl,translate,t.ctb|Ab|,C||0
t.ctb: uplow Aa 1; uplow Bb 12; capsletter 6; always ab 14|brl,translate,t.ctb|aB|A,B||0
t.ctb: uplow Aa 1; uplow Bb 12; uplow Cc 14; capsletter 6; begcapsword 6-6; endcapsword 6-3|brl,translate,t.ctb|ABc|,,AB,'C||0
t.ctb: uplow Aa 1; uplow Bb 12; uplow Cc 14; capsletter 6; begcapsword 6-6; endcapsword 6-3|brl,translate,t.ctb|Ab|,AB||0
t.ctb: uplow Aa 1; uplow Bb 12; uplow Cc 14; capsletter 6; begcapsword 6-6; endcapsword 6-3|brl,translate,t.ctb|aBC|A,,BC||0
t.ctb: uplow Aa 1; uplow Bb 12; uplow Cc 14; capsletter 6; begcapsword 6-6; endcapsword 6-3|brl,translate,t.ctb|AbC|,AB,C||0
t.ctb: uplow Aa 1; uplow Bb 12; uplow Cc 14; capsletter 6; begcapsword 6-6; endcapsword 6-3; always ab 1456|brl,translate,t.ctb|AB|,,?||0
t.ctb: uplow Aa 1; uplow Bb 12; uplow Cc 14; capsletter 6; begcapsword 6-6; endcapsword 6-3; always ab 1456|brl,translate,t.ctb|Ab|,?||0
t.ctb: uplow Aa 1; uplow Bb 12; uplow Cc 14; capsletter 6; begcapsword 6-6; endcapsword 6-3; always ab 1456|brl,translate,t.ctb|ABc|,,?,'C||0
t.ctb: uplow Aa 1; uplow Bb 12; uplow Cc 14; capsletter 6; begcapsword 6-6; endcapsword 6-3; always bc 1456|brl,translate,t.ctb|aBc|A,?||0
t.ctb: uplow Aa 1; uplow Bb 12; uplow Cc 14; capsletter 6; begcapsword 6-6; endcapsword 6-3; always bc 1456|brl,translate,t.ctb|ABc|,,AB,'C||0
t.ctb: uplow Aa 1,12; capsign 6|brl,translate,t.ctb|Aa|,AB||0
t.ctb: litdigit 1 1; numsign 3456; punctuation . 256|brl,translate,t.ctb|1.1|#A4#A||0
t.ctb: litdigit 1 1; numsign 3456; punctuation . 256|brl,translate,t.ctb|.1|4#A||0
t.ctb: litdigit 1 1; numsign 3456; punctuation . 256; numericmodechars .|brl,translate,t.ctb|1.1|#A4A||0
t.ctb: litdigit 1 1; numsign 3456; punctuation . 256; numericmodechars .|brl,translate,t.ctb|.1|4#A||0
t.ctb: numericmodechars .; punctuation . 256; litdigit 1 1; numsign 3456|brl,translate,t.ctb|1.1|#A4A||0
t.ctb: litdigit 1 1; letter t 2345; letter h 125; numsign 3456; endnum th 1456|brl,translate,t.ctb|1th|#A?||0
t.ctb: litdigit 1 1; letter t 2345; letter h 125; numsign 3456; endnum th 1456|brl,translate,t.ctb|th|TH||0
t.ctb: numsign 6; numsign 6|brl,translate,t.ctb|||B9 IndicatorTwice numsign at t.ctb:2|2
t.ctb: capsletter 6; capsign 6|brl,translate,t.ctb|||B9 IndicatorTwice capsign at t.ctb:2|2
t.ctb: numericmodechars .|brl,translate,t.ctb|||B6 UndefinedInList . at t.ctb:1|2
t.ctb: litdigit 1 1; numericnocontchars 1|brl,translate,t.ctb|||B7 TwoRoles 1 at t.ctb:2|2
t.ctb: uplow Aa 1,2,3|brl,translate,t.ctb|||B4 BadDots 1,2,3 at t.ctb:1|2
";

/// Tables of several files, in the same form.
pub const INCLUDES: &str = "\
d/t.ctb: include u.ctb & d/u.ctb: include v/w.ctb & d/v/w.ctb: include x.ctb & d/x.ctb: letter a 1|brl,translate,d/t.ctb|a|A||0
d/t.ctb: include /v.ctb & /v.ctb: letter a 1|brl,translate,d/t.ctb|a|A||0
t.ctb: letter a 1; include u.ctb; letter b 12 & u.ctb: letter a 12; letter c 14|brl,translate,t.ctb|abc|ABC||0
t.ctb: include u.ctb & u.ctb: include t.ctb|brl,translate,t.ctb|||L4 Cycle t.ctb at u.ctb:1|2
t.ctb: include u|brl,translate,t.ctb|||L1 NotFound u at t.ctb:1|2
t.ctb: include|brl,translate,t.ctb|||B2 MissingOperand include at t.ctb:1|2
t.ctb: letter a; include u|brl,translate,t.ctb|||L1 NotFound u at t.ctb:2|2
t.ctb: include u; pass2 @1 @2 & u: letter a 1; letter a 19|brl,translate,t.ctb|||B4 BadDots 19 at u:2|2
";

/// Two texts, in the same form.
pub const COMPARISONS: &str = "\
t.ctb: letter a 21-0; letter b 12-0|brl,clash,t.ctb,a,b||left: a; right: b; cells: 12-0; left from 0:;   a  12-0  t.ctb:1; right from 0:;   b  12-0  t.ctb:2||1
t.ctb: letter a 1; letter b 12; letter x 1-12|brl,clash,t.ctb,ab,x||left: ab; right: x; cells: 1-12; left from 0:;   a  1   t.ctb:1;   b  12  t.ctb:2; right from 0:;   x  1-12  t.ctb:3||1
t.ctb: letter \u{56fd} 1; letter b 12; letter x 1-12|brl,clash,t.ctb,\u{56fd}b,x||left: \u{56fd}b; right: x; cells: 1-12; left from 0:;   \u{56fd}  1   t.ctb:1;   b   12  t.ctb:2; right from 0:;   x  1-12  t.ctb:3||1
t.ctb: letter a 1; letter b 12; letter x 1-12|brl,clash,t.ctb,x,ab||left: x; right: ab; cells: 1-12; left from 0:;   x  1-12  t.ctb:3; right from 0:;   a  1   t.ctb:1;   b  12  t.ctb:2||1
t.ctb: letter a 1; letter b 12; letter x 1-12|brl,clash,t.ctb,ab,ab||no clash||0
t.ctb: letter a 1; letter b 12; letter x 1-12|brl,clash,t.ctb,a,b||no clash||0
t.ctb: letter a 1; letter b 12; letter x 1-12|brl,clash,t.ctb,xab,abx||left: xab; right: abx; cells: 1-12-1-12; left from 0:;   x  1-12  t.ctb:3;   a  1     t.ctb:1;   b  12    t.ctb:2; right from 0:;   a  1     t.ctb:1;   b  12    t.ctb:2;   x  1-12  t.ctb:3||1
t.ctb: letter a 1; letter b 12; letter x 1-12|brl,clash,t.ctb,zb,y|||F1 UnknownChar 0 at left|2
t.ctb: letter a 1; letter b 12; letter x 1-12|brl,clash,t.ctb,a,z|||F1 UnknownChar 0 at right|2
t.ctb: letter a 1; letter b 12; letter x 1-12|brl,clash,t.ctb,abz,a|||F1 UnknownChar 2 at left|2
t.ctb: letter a 1; letter b 12; letter x 1-12|brl,clash,t.ctb,z,z|||F1 UnknownChar 0 at left|2
t.ctb: space \\s 1; punctuation \\\\ 1; space \\t 1; space \\x0001 1; letter \u{56fd} 1|brl,clash,t.ctb,\u{56fd},\u{e9}|||F1 UnknownChar 0 at right|2
t.ctb: letter a 0-123456; letter b 87-12; letter c 0-123456-78-12|brl,clash,t.ctb,ab,c||left: ab; right: c; cells: 0-123456-78-12; left from 0:;   a  0-123456  t.ctb:1;   b  78-12     t.ctb:2; right from 0:;   c  0-123456-78-12  t.ctb:3||1
t.ctb: letter a 19|brl,clash,t.ctb,z,y|||B4 BadDots 19 at t.ctb:1|2
t.ctb: letter a 1; letter b 12; letter c 14; always ab 14|brl,clash,t.ctb,ab,c||left: ab; right: c; cells: 14; left from 0:;   ab  14  t.ctb:4; right from 0:;   c  14  t.ctb:3||1
t.ctb: space \\s 0; letter b 12; letter u 136; letter t 2345; word but 12|brl,clash,t.ctb,but,b||left: but; right: b; cells: 12; left from 0:;   but  12  t.ctb:5; right from 0:;   b  12  t.ctb:2||1
t.ctb: letter a 1; letter b 12; letter x 1-12; always ab 14|brl,clash,t.ctb,ab,x||no clash||0
t.ctb: uplow Aa 1; capsletter 6-1; begcapsword 6|brl,clash,t.ctb,A,AA||left: A; right: AA; cells: 6-1-1; left from 0:;   A  6-1-1  t.ctb:1; right from 0:;   A  6-1  t.ctb:1;   A  1    t.ctb:1||1
t.ctb: letter a 1; letter b 12; letter x 1-12|brl,clash,t.ctb,,||no clash||0
t.ctb: letter a 1; letter b 12; letter x 1-12|brl,clash,t.ctb,,a||no clash||0
t.ctb: space \\s 1; punctuation \\\\ 1; space \\t 1; space \\x0001 1; letter \u{56fd} 1|brl,clash,t.ctb, ,\\||left: \\s; right: \\\\; cells: 1; left from 0:;   \\s  1  t.ctb:1; right from 0:;   \\\\  1  t.ctb:2||1
t.ctb: space \\s 1; punctuation \\\\ 1; space \\t 1; space \\x0001 1; letter \u{56fd} 1|brl,clash,t.ctb,\t\u{1},\u{56fd} ||left: \\t\\x0001; right: \u{56fd}\\s; cells: 1-1; left from 0:;   \\t      1  t.ctb:3;   \\x0001  1  t.ctb:4; right from 0:;   \u{56fd}  1  t.ctb:5;   \\s  1  t.ctb:1||1
t.ctb: letter a 1; litdigit 1 1; numsign 3456|brl,clash,t.ctb,1a,11||left: 1a; right: 11; cells: 3456-1-1; left from 1:;   a  1  t.ctb:1; right from 1:;   1  1  t.ctb:2||1
t.ctb: uplow Aa 1|brl,clash,t.ctb,A,a||left: A; right: a; cells: 1; left from 0:;   A  1  t.ctb:1; right from 0:;   a  1  t.ctb:1||1
";

/// The words that check the certificate `c` for the table `t.ctb`.
pub const CHECK: &str = "brl,check,t.ctb,c";

/// Certificates, in the same form.
pub const CHECKS: &str = "\
t.ctb: letter a 1 & c: BRLCERT 1; state 1 0 0 -; state 8 0 0 61; state 8 0 1 -; pair 1 2 -; end 3 1|brl,check,t.ctb,c||accepted: 3 states, 1 pairs||0
t.ctb: # & c: BRLCERT 1; state 1 0 0 -; end 1 0|brl,check,t.ctb,c||accepted: 1 states, 0 pairs||0
t.ctb: include u & u: letter a 1 & c: BRLCERT 1; state 1 0 0 -; state 8 0 0 61; state 8 0 1 -; pair 1 2 -; end 3 1|brl,check,t.ctb,c||accepted: 3 states, 1 pairs||0
t.ctb: letter a 1 & c: BRLCERT 1; end 0 0|brl,check,t.ctb,c||refused: A1 NoStart||1
t.ctb: letter a 1 & c: BRLCERT 1; state 1 0 0 -; end 1 0|brl,check,t.ctb,c||refused: A2 StateMissing state 0 rule 0||1
t.ctb: letter a 1 & c: BRLCERT 1; state 1 0 0 -; state 8 0 0 61; state 8 0 1 -; end 3 0|brl,check,t.ctb,c||refused: A3 SplitMissing state 0 rules 0 0||1
t.ctb: letter a 1 & c: BRLCERT 1; state 1 0 0 -; state 8 0 0 61; state 8 0 1 -; pair 2 1 -; end 3 1|brl,check,t.ctb,c||refused: A4 PairMissing pair 0 rule 0||1
t.ctb: letter a 1 & c: BRLCERT 1; state 1 0 0 -; state 8 0 0 61; state 8 0 1 -; pair 1 2 -; pair 2 2 -; end 3 2|brl,check,t.ctb,c||refused: A5 BothEnd pair 1||1
t.ctb: letter a 1 & c: BRLCERT 1; state 1 0 0 -; state 8 0 0 61; state 8 0 1 -; pair 1 2 -|brl,check,t.ctb,c||refused: K8 Truncated line 6||1
t.ctb: letter a 1 & c: BRLCERT 1; state 1 0 0 -; state 8 0 0 061; state 8 0 1 -; pair 1 2 -; end 3 1|brl,check,t.ctb,c||refused: K3 NotCanonical line 3||1
t.ctb: letter a 1 & c: BRLCERT 1; state 1 0 0 -; state 8 0 0 61; state 8 0 0 61; state 8 0 1 -; pair 1 2 -; end 3 1|brl,check,t.ctb,c||refused: K4 DuplicateState line 4||1
t.ctb: letter a 1 & c: BRLCERT 1; state 1 0 0 -; state 8 0 0 61; state 8 0 1 -; pair 1 2 -; pair 1 2 -; end 3 1|brl,check,t.ctb,c||refused: K5 DuplicatePair line 6||1
t.ctb: letter a 1 & c: BRLCERT 1; state 1 0 0 -; state 8 0 0 61; state 8 0 1 -; pair 1 3 -; end 3 1|brl,check,t.ctb,c||refused: K6 NoSuchState line 5||1
t.ctb: letter a 1 & c: BRLCERT 1; state 1 0 0 -; state 8 0 0 61; state 8 0 1 -; pair 1 2 -; end 3 2|brl,check,t.ctb,c||refused: K7 WrongCount line 6||1
t.ctb: letter a 1 & c: BRLCERT 9; state 1 0 0 -; state 8 0 0 61; state 8 0 1 -; pair 1 2 -; end 3 1|brl,check,t.ctb,c||refused: K1 Version line 1||1
t.ctb: letter a 1 & c: BRLCERT 2; state 1 0 0 -; state 8 0 0 61; state 8 0 1 -; pair 1 2 -; end 3 1|brl,check,t.ctb,c||refused: K2 Syntax line 2||1
t.ctb: # & c: BRLCERT 2; state 1 0; end 1 0|brl,check,t.ctb,c||accepted: 1 states, 0 pairs||0
t.ctb: uplow Aa 1; uplow Bb 12; uplow Cc 14; capsletter 6; begcapsword 6-6; endcapsword 6-3 & c: BRLCERT 2; end 0 0|brl,check,t.ctb,c||refused: K9 OldVersion line 1||1
t.ctb: uplow Aa 1; uplow Bb 12; uplow Cc 14; capsletter 6; begcapsword 6-6; endcapsword 6-3 & c: BRLCERT 3; end 0 0|brl,check,t.ctb,c||refused: A1 NoStart||1
t.ctb: # & c: BRLCERT 3; state 1 0 0; end 1 0|brl,check,t.ctb,c||accepted: 1 states, 0 pairs||0
t.ctb: letter a 1; letter b 12; letter x 1-12; always ab 14 & c: BRLCERT 2; state 1 0; state 8 0; state 8 0 b62*; pair 1 2 12; end 3 1|brl,check,t.ctb,c||accepted: 3 states, 1 pairs||0
t.ctb: letter a 1; letter b 12; letter x 1-12 & c: BRLCERT 2; state 1 0; state 8 0; state 8 0 b62*; pair 1 2 12; end 3 1|brl,check,t.ctb,c||refused: A3 SplitMissing state 0 rules 0 2||1
t.ctb: # & c: BRLCERT 2; end 0 0|brl,check,t.ctb,c||refused: A1 NoStart||1
t.ctb: letter a 1 & c: BRLCERT 2; state 1 0; end 1 0|brl,check,t.ctb,c||refused: A2 StateMissing state 0 rule 0||1
t.ctb: uplow Aa 1 & c: BRLCERT 2; state 1 0; state 24 0; state 40 0; pair 1 2 -; end 3 1|brl,check,t.ctb,c||refused: A4 PairMissing pair 0 rule 0||1
t.ctb: uplow Aa 1 & c: BRLCERT 2; state 1 0; state 24 0; state 40 0; pair 1 2 -; pair 1 1 -; pair 2 2 -; pair 2 1 1; pair 1 1 1; pair 2 2 1; pair 1 2 1; end 3 7|brl,check,t.ctb,c||refused: A5 BothEnd pair 0||1
t.ctb: letter a 1 & c: BRLCERT 2; state 1 0 n*; end 1 0|brl,check,t.ctb,c||refused: K2 Syntax line 2||1
t.ctb: letter a 1; letter b 12; always ab 14; word ab 15 & c: BRLCERT 3; state 1 0 0; state 8 0 0; state 8 0 0 b62* b62+3; state 8 0 0 b62*; end 4 0|brl,check,t.ctb,c||refused: A2 StateMissing state 0 rule 0||1
t.ctb: pass2 @1 @2 & c: BRLCERT 1; end 0 0|brl,check,t.ctb,c|||B1 OutsideProfile pass2 at t.ctb:1|2
t.ctb: include t.ctb & c: BRLCERT 1; end 0 0|brl,check,t.ctb,c|||L4 Cycle t.ctb at t.ctb:1|2
|brl,check,t.ctb,c|||L1 NotFound c|2
c: BRLCERT 1|brl,check,t.ctb,c|||L1 NotFound t.ctb|2
";

/// Texts with escapes, in the same form.
pub const ESCAPES: &str = "\
t.ctb: space \\s 0; letter a 1; letter s 234; punctuation \\\\ 0|brl,clash,--escapes,t.ctb,a\\sa,a\\\\a||left: a\\sa; right: a\\\\a; cells: 1-0-1; left from 1:;   \\s  0  t.ctb:1;   a   1  t.ctb:2; right from 1:;   \\\\  0  t.ctb:4;   a   1  t.ctb:2||1
t.ctb: space \\s 0; letter a 1; letter s 234; punctuation \\\\ 0|brl,clash,t.ctb,a\\sa,a\\\\a||no clash||0
t.ctb: space \\s 0; letter a 1; letter s 234; punctuation \\\\ 0|brl,clash,t.ctb,a\\x005c,a ,--escapes||left: a\\\\; right: a\\s; cells: 1-0; left from 1:;   \\\\  0  t.ctb:4; right from 1:;   \\s  0  t.ctb:1||1
t.ctb: letter a 1; letter \\x0000 1|brl,clash,--escapes,t.ctb,\\x0000,a||left: \\x0000; right: a; cells: 1; left from 0:;   \\x0000  1  t.ctb:2; right from 0:;   a  1  t.ctb:1||1
t.ctb: letter a 1|brl,clash,--escapes,t.ctb,\\x0061,a||no clash||0
t.ctb: letter a 1|brl,clash,--escapes,t.ctb,a,a\\x0062|||F1 UnknownChar 1 at right|2
|brl,clash,--escapes,t.ctb,a\\q,\\x12|||F2 BadText a\\q|2
|brl,clash,--escapes,t.ctb,a,\\x12|||F2 BadText \\x12|2
|brl,clash,--escapes,t.ctb,a,b|||L1 NotFound t.ctb|2
|brl,clash,t.ctb,a\\q,\\x12|||L1 NotFound t.ctb|2
t.ctb: space \\s 0; letter a 1; letter s 234; punctuation \\\\ 0|brl,trace,--escapes,t.ctb,\\s\\\\a||text: \\s\\\\a; cells: 0-0-1;   \\s  -  0  t.ctb:1;   \\\\  -  0  t.ctb:4;   a   -  1  t.ctb:2||0
t.ctb: space \\s 0; letter a 1; letter s 234; punctuation \\\\ 0|brl,trace,t.ctb,\\s||text: \\\\s; cells: 0-234;   \\\\  -  0    t.ctb:4;   s   -  234  t.ctb:3||0
t.ctb: letter a 1|brl,trace,--escapes,t.ctb,||text: ; cells: ||0
t.ctb: letter a 1|brl,trace,t.ctb,\\y00061,--escapes||text: a; cells: 1;   a  -  1  t.ctb:1||0
|brl,trace,--escapes,t.ctb,a\\|||F2 BadText a\\|2
|brl,trace,t.ctb,a\\|||L1 NotFound t.ctb|2
";

/// Searches that write no file, in the same form.
pub const SEARCHES: &str = "\
t.ctb: letter a 1; letter b 12; letter x 1-12|brl,search,t.ctb,o,--limit,0||limit: 1 states, 0 pairs||3
t.ctb: letter a 19|brl,search,t.ctb,o|||B4 BadDots 19 at t.ctb:1|2
t.ctb: include u|brl,search,t.ctb,o|||L1 NotFound u at t.ctb:1|2
t.ctb: letter a 1; letter a 1; letter b 12; letter b 1; letter x 19|brl,search,t.ctb,o|||B4 BadDots 19 at t.ctb:5|2
";

/// Cuts, in the same form.
pub const CUTS: &str = "\
t.ctb: letter a 1|brl,cut,t.ctb,o||1 of 1 lines are kept; no verdict: a cut doesn't decide whether two texts have the same cells||0
t.ctb: letter a 1; alway a 2|brl,cut,t.ctb,o||1 of 2 lines are kept; opcode alway: 1 (not in liblouis); file t.ctb: 1 of 2 lines are read; no verdict: a cut doesn't decide whether two texts have the same cells||1
t.ctb: letter a 1; letter a 2; context a 2|brl,cut,t.ctb,o||2 of 3 lines are kept; opcode context: 1 (not in the profile); file t.ctb: 2 of 3 lines are read; no verdict: a cut doesn't decide whether two texts have the same cells||0
t.ctb: #|brl,cut,t.ctb,o||0 of 0 lines are kept; no verdict: a cut doesn't decide whether two texts have the same cells||0
t.ctb: letter a 1; pass2 @1 2; include u; include u; include v; include w.dic; always ab 12 & u: letter b 9|brl,cut,t.ctb,o||1 of 7 lines are kept; opcode include: 3; opcode always: 1; opcode letter: 1; opcode pass2: 1 (not in the profile); file t.ctb: 1 of 6 lines are read; file u: 0 of 1 lines are read; no verdict: a cut doesn't decide whether two texts have the same cells||0
t.ctb: include ../u|brl,cut,t.ctb,o|||error: include ../u at t.ctb:1 leads out of the table's folder|2
t.ctb: letter a 1 & o/t.ctb: #|brl,cut,t.ctb,o|||error: o/t.ctb is there already|2
t.ctb: letter a 1|brl,cut,u.ctb,o|||L1 NotFound u.ctb|2
t.ctb: include u; letter b 1 & one/u: letter a 1; pass2 x & two/u: letter a 2|brl,cut,--path,one,--path,two,t.ctb,o||2 of 3 lines are kept; opcode pass2: 1 (not in the profile); file one/u: 1 of 2 lines are read; no verdict: a cut doesn't decide whether two texts have the same cells||0
t.ctb: include u & one/u: letter a 1 & o/u: #|brl,cut,--path,one,t.ctb,o|||error: o/u is there already|2
one/t.ctb: include ../u & one/u: letter a 1|brl,cut,--path,one,t.ctb,o|||error: include ../u at one/t.ctb:1 leads out of the table's folder|2
t.ctb: letter a 1; letter b 12; space \\s 0|brl,cut,t.ctb,o,--only,a..b||3 of 3 lines are kept; no verdict: a cut doesn't decide whether two texts have the same cells; only: ab; no line can act on these texts: what --only decides of o/t.ctb holds of t.ctb||0
t.ctb: letter a 1; space \\s 0; letsign 56; emphclass b|brl,cut,t.ctb,o,--only,a||2 of 4 lines are kept; opcode emphclass: 1 (not in the profile); opcode letsign: 1 (not in the profile); file t.ctb: 2 of 4 lines are read; no verdict: a cut doesn't decide whether two texts have the same cells; only: a; can act: opcode letsign: 1, the first at t.ctb:3; 1 line can act on these texts||1
t.ctb: letter a 1; letter b 12; pass2 @12 2; include n; pass2 @1 3; pass2 @1-1 3|brl,cut,t.ctb,o,--only,a||2 of 6 lines are kept; opcode pass2: 3 (not in the profile); opcode include: 1; file t.ctb: 2 of 6 lines are read; no verdict: a cut doesn't decide whether two texts have the same cells; only: a; can act: opcode pass2: 2, the first at t.ctb:5; can act: opcode include: 1, the first at t.ctb:4; 3 lines can act on these texts||1
t.ctb: uplow Aa 1; begcaps 56|brl,cut,t.ctb,o,--only,a||1 of 2 lines are kept; opcode begcaps: 1 (not in the profile); file t.ctb: 1 of 2 lines are read; no verdict: a cut doesn't decide whether two texts have the same cells; only: a; no line can act on these texts: what --only decides of o/t.ctb holds of t.ctb||0
t.ctb: uplow Aa 1; begcaps 56|brl,cut,t.ctb,o,--only,aA||1 of 2 lines are kept; opcode begcaps: 1 (not in the profile); file t.ctb: 1 of 2 lines are read; no verdict: a cut doesn't decide whether two texts have the same cells; only: aA; can act: opcode begcaps: 1, the first at t.ctb:2; 1 line can act on these texts||1
t.ctb: letter a 1; alway a 2|brl,cut,t.ctb,o,--only,a||1 of 2 lines are kept; opcode alway: 1 (not in liblouis); file t.ctb: 1 of 2 lines are read; no verdict: a cut doesn't decide whether two texts have the same cells; only: a; can act: opcode alway: 1, the first at t.ctb:2; 1 line can act on these texts||1
t.ctb: letter a 1|brl,cut,t.ctb,o,--only,b|||U10 UndefinedOnly b|2
t.ctb: letter b 9|brl,cut,t.ctb,o,--only,b|||U10 UndefinedOnly b|2
|brl,cut,t.ctb,o,--only,a\\q|||U11 BadOnly a\\q|2
|brl,cut,t.ctb,o,--only,a|||L1 NotFound t.ctb|2
";

/// Surveys, in the same form.
pub const SURVEYS: &str = "\
t.ctb: letter a 1; letter b 12; always ab 3; always ab 4; word ab 4|brl,survey,t.ctb||5 of 5 lines are read; no verdict: a survey doesn't decide whether two texts have the same cells|remark RuleAgain always ab 4 / always ab 3|0
t.ctb: letter a 1; letter b 12; always ab 3; always ab 3; word ab 4; always ba 4|brl,survey,t.ctb||6 of 6 lines are read; no verdict: a survey doesn't decide whether two texts have the same cells||0
t.ctb: letter a 1; letter b 12; word ab 3; always ba 3; word ab 4; word ab 3; word ab 5|brl,survey,--brief,t.ctb||7 of 7 lines are read; no verdict: a survey doesn't decide whether two texts have the same cells|remark RuleAgain word ab 4 / word ab 3; remark RuleAgain word ab 5 / word ab 3|0
t.ctb: letter a 1; letter b 12; letter a 2; always ab 3; always ab 4 & u.ctb: #; letter a 1; always a 12; always a 14|brl,survey,--brief,t.ctb,u.ctb||table: t.ctb; 5 of 5 lines are read; table: u.ctb; 3 of 3 lines are read; no verdict: a survey doesn't decide whether two texts have the same cells|notice DefinedAgain a at t.ctb:3; remark RuleAgain always ab 4 / always ab 3; remark RuleAgain always a 14 / always a 12|0
t.ctb: letter a 1|brl,survey,t.ctb||1 of 1 lines are read; no verdict: a survey doesn't decide whether two texts have the same cells||0
t.ctb: letter a 1; letter a 2|brl,survey,t.ctb||2 of 2 lines are read; no verdict: a survey doesn't decide whether two texts have the same cells|notice DefinedAgain a at t.ctb:2|0
t.ctb: letter a 1; letter a 2 & u.ctb: letter b 1; letter a 2; letter a 3|brl,survey,--brief,u.ctb,t.ctb||table: u.ctb; 3 of 3 lines are read; table: t.ctb; 2 of 2 lines are read; no verdict: a survey doesn't decide whether two texts have the same cells|notice DefinedAgain a at u.ctb:3; notice DefinedAgain a at t.ctb:2|0
t.ctb: letter a 1; letter a 2; letter b 9|brl,survey,--brief,t.ctb||opcode letter: 1; file t.ctb: 2 of 3 lines are read; undefined characters (B5 to B7) are looked for once no line has another fault; 2 of 3 lines are read; no verdict: a survey doesn't decide whether two texts have the same cells||0
t.ctb: letter a 1; alway a 12|brl,survey,--brief,t.ctb||opcode alway: 1 (not in liblouis); file t.ctb: 1 of 2 lines are read; undefined characters (B5 to B7) are looked for once no line has another fault; 1 of 2 lines are read; no verdict: a survey doesn't decide whether two texts have the same cells||1
t.ctb: letter a 1; noback alway a 12|brl,survey,--brief,t.ctb||opcode noback alway: 1 (not in liblouis); file t.ctb: 1 of 2 lines are read; undefined characters (B5 to B7) are looked for once no line has another fault; 1 of 2 lines are read; no verdict: a survey doesn't decide whether two texts have the same cells||1
t.ctb: letter a 1; alway a 12 & u.ctb: letter a 1|brl,survey,--brief,t.ctb,u.ctb,v.ctb||table: t.ctb; opcode alway: 1 (not in liblouis); file t.ctb: 1 of 2 lines are read; undefined characters (B5 to B7) are looked for once no line has another fault; 1 of 2 lines are read; table: u.ctb; 1 of 1 lines are read; no verdict: a survey doesn't decide whether two texts have the same cells|L1 NotFound v.ctb|2
t.ctb: letter a 1; alway a 12 & u.ctb: letter a 1|brl,survey,--brief,t.ctb,u.ctb||table: t.ctb; opcode alway: 1 (not in liblouis); file t.ctb: 1 of 2 lines are read; undefined characters (B5 to B7) are looked for once no line has another fault; 1 of 2 lines are read; table: u.ctb; 1 of 1 lines are read; no verdict: a survey doesn't decide whether two texts have the same cells||1
t.ctb: #|brl,survey,t.ctb||no line defines a character; 0 of 0 lines are read; no verdict: a survey doesn't decide whether two texts have the same cells||1
t.ctb: letter a 1; pass2 @1 @2; letter b 9; pass2 @2 @3|brl,survey,t.ctb||B1 OutsideProfile pass2 at t.ctb:2; B4 BadDots 9 at t.ctb:3; B1 OutsideProfile pass2 at t.ctb:4; opcode pass2: 2 (not in the profile); opcode letter: 1; file t.ctb: 1 of 4 lines are read; undefined characters (B5 to B7) are looked for once no line has another fault; 1 of 4 lines are read; no verdict: a survey doesn't decide whether two texts have the same cells||0
t.ctb: letter a 1; pass2 @1 @2; letter b 9; pass2 @2 @3|brl,survey,--brief,t.ctb||opcode pass2: 2 (not in the profile); opcode letter: 1; file t.ctb: 1 of 4 lines are read; undefined characters (B5 to B7) are looked for once no line has another fault; 1 of 4 lines are read; no verdict: a survey doesn't decide whether two texts have the same cells||0
t.ctb: letter \\x0020\\q 1|brl,survey,t.ctb||B3 BadCharacters \\x0020\\q at t.ctb:1; opcode letter: 1; file t.ctb: 0 of 1 lines are read; undefined characters (B5 to B7) are looked for once no line has another fault; no line defines a character; 0 of 1 lines are read; no verdict: a survey doesn't decide whether two texts have the same cells||1
t.ctb: include u; pass2 x & u: letter a 9; letter b 1|brl,survey,t.ctb||B4 BadDots 9 at u:1; B1 OutsideProfile pass2 at t.ctb:2; opcode letter: 1; opcode pass2: 1 (not in the profile); file t.ctb: 0 of 1 lines are read; file u: 1 of 2 lines are read; undefined characters (B5 to B7) are looked for once no line has another fault; 1 of 3 lines are read; no verdict: a survey doesn't decide whether two texts have the same cells||0
t.ctb: include u; include v; always b 1 & u: letter a 1 & v: always aa 2; always ab 3|brl,survey,t.ctb||B5 UndefinedInRule ab at v:2; B5 UndefinedInRule b at t.ctb:3; opcode always: 2; file t.ctb: 0 of 1 lines are read; file v: 1 of 2 lines are read; 2 of 4 lines are read; no verdict: a survey doesn't decide whether two texts have the same cells||0
t.ctb: letter a 1 & u.ctb: letter a 9|brl,survey,t.ctb,u.ctb||table: t.ctb; 1 of 1 lines are read; table: u.ctb; B4 BadDots 9 at u.ctb:1; opcode letter: 1; file u.ctb: 0 of 1 lines are read; undefined characters (B5 to B7) are looked for once no line has another fault; no line defines a character; 0 of 1 lines are read; no verdict: a survey doesn't decide whether two texts have the same cells||1
t.ctb: #|brl,survey,t.ctb,t.ctb||table: t.ctb; no line defines a character; 0 of 0 lines are read; table: t.ctb; no line defines a character; 0 of 0 lines are read; no verdict: a survey doesn't decide whether two texts have the same cells||1
t.ctb: letter a 9|brl,survey,v.ctb,t.ctb,w.ctb||table: t.ctb; B4 BadDots 9 at t.ctb:1; opcode letter: 1; file t.ctb: 0 of 1 lines are read; undefined characters (B5 to B7) are looked for once no line has another fault; no line defines a character; 0 of 1 lines are read; no verdict: a survey doesn't decide whether two texts have the same cells|L1 NotFound v.ctb; L1 NotFound w.ctb|2
t.ctb: letter a 1; include u; include h.dic & u: include /x/h.dic; include u.dic/v & u.dic/v: letter b 9|brl,survey,t.ctb||skipped: /x/h.dic at u:1; skipped: h.dic at t.ctb:3; B4 BadDots 9 at u.dic/v:1; opcode letter: 1; file u.dic/v: 0 of 1 lines are read; undefined characters (B5 to B7) are looked for once no line has another fault; 1 of 2 lines are read; no verdict: a survey doesn't decide whether two texts have the same cells||0
t.ctb: letter a 1; include h.dic & h.dic: UTF-8|brl,survey,--brief,t.ctb||1 of 1 lines are read; no verdict: a survey doesn't decide whether two texts have the same cells||0
t.ctb: letter a 1; include d//u; include h.dic & h.dic: UTF-8 & d//u: letter b 2|brl,survey,t.ctb||skipped: h.dic at t.ctb:3; 2 of 2 lines are read; no verdict: a survey doesn't decide whether two texts have the same cells||0
t.ctb: letter a 1; include u; include u & u: letter b 2|brl,survey,t.ctb||3 of 3 lines are read; no verdict: a survey doesn't decide whether two texts have the same cells|notice DefinedAgain b at u:1|0
t.ctb: letter a 1; include h.dic; include u|brl,survey,t.ctb||no verdict: a survey doesn't decide whether two texts have the same cells|L1 NotFound u at t.ctb:3|2
t.ctb: letter a 9; include t.ctb|brl,survey,t.ctb||no verdict: a survey doesn't decide whether two texts have the same cells|L4 Cycle t.ctb at t.ctb:2|2
|brl,survey,t.ctb||no verdict: a survey doesn't decide whether two texts have the same cells|L1 NotFound t.ctb|2
t.ctb: include u; letter a 1 & one/u: letter b 9 & two/u: letter c 14|brl,survey,--path,one,--path,two,t.ctb||B4 BadDots 9 at one/u:1; opcode letter: 1; file one/u: 0 of 1 lines are read; undefined characters (B5 to B7) are looked for once no line has another fault; 1 of 2 lines are read; no verdict: a survey doesn't decide whether two texts have the same cells||0
t.ctb: include u; include h.dic & two/u: letter c 14|brl,survey,--path,one,--path,two,t.ctb||skipped: h.dic at t.ctb:2; 1 of 1 lines are read; no verdict: a survey doesn't decide whether two texts have the same cells||0
t.ctb: letter a 1; letter b 12; space \\s 0|brl,survey,--only,a..b,t.ctb||3 of 3 lines are kept, 0 of them rewritten; only: ab; no line can act on these texts: what --only decides of a cut with --rewrite holds of t.ctb; no verdict: a survey doesn't decide whether two texts have the same cells||0
t.ctb: letter a 1; space \\s 0; letsign 56; emphclass b|brl,survey,--only,a,t.ctb||3 of 4 lines are kept, 0 of them rewritten; opcode emphclass: 1 (not in the profile); file t.ctb: 2 of 3 lines are read; only: a; no line can act on these texts: what --only decides of a cut with --rewrite holds of t.ctb; no verdict: a survey doesn't decide whether two texts have the same cells||0
t.ctb: noback sign a 1; letter b 2; letsign 56; noletsign b|brl,survey,--brief,--only,ab,t.ctb||2 of 3 lines are kept, 1 of them rewritten; opcode noletsign: 1 (not in the profile); file t.ctb: 2 of 3 lines are read; only: ab; no line can act on these texts: what --only decides of a cut with --rewrite holds of t.ctb; no verdict: a survey doesn't decide whether two texts have the same cells||0
t.ctb: letter a 1; noback pass2 @1 2; pass2 @1-1 2; nofor context \"b\" @1|brl,survey,--only,a,t.ctb||1 of 4 lines are kept, 0 of them rewritten; opcode noback pass2: 1 (not in the profile); opcode nofor context: 1 (not in the profile); opcode pass2: 1 (not in the profile); file t.ctb: 1 of 4 lines are read; only: a; can act: opcode pass2: 2, the first at t.ctb:2; 2 lines can act on these texts; no verdict: a survey doesn't decide whether two texts have the same cells||1
t.ctb: letter a 1 & u.ctb: letter a 1; alway a 2 & v.ctb: letter b 2|brl,survey,--only,a,t.ctb,u.ctb,v.ctb,w.ctb||table: t.ctb; 1 of 1 lines are kept, 0 of them rewritten; only: a; no line can act on these texts: what --only decides of a cut with --rewrite holds of t.ctb; table: u.ctb; 1 of 2 lines are kept, 0 of them rewritten; opcode alway: 1 (not in liblouis); file u.ctb: 1 of 2 lines are read; only: a; can act: opcode alway: 1, the first at u.ctb:2; 1 line can act on these texts; no verdict: a survey doesn't decide whether two texts have the same cells|U10 UndefinedOnly a; L1 NotFound w.ctb|2
t.ctb: include ../u|brl,survey,--only,a,t.ctb||no verdict: a survey doesn't decide whether two texts have the same cells|error: include ../u at t.ctb:1 leads out of the table's folder|2
|brl,survey,--only,a\\q,t.ctb|||U11 BadOnly a\\q|2
one/t.ctb: include u; include v & one/u: letter a 1 & v: letter b 1 & one/v: letter b 12|brl,survey,--path=one,t.ctb||2 of 2 lines are read; no verdict: a survey doesn't decide whether two texts have the same cells||0
t.ctb: include u|brl,survey,--path,one,t.ctb||no verdict: a survey doesn't decide whether two texts have the same cells|L1 NotFound u at t.ctb:1|2
t.ctb: include u & one/u: include u|brl,survey,--path,one,t.ctb||no verdict: a survey doesn't decide whether two texts have the same cells|L4 Cycle one/u at one/u:1|2
|brl,survey,--path,one,--path,two,t.ctb||no verdict: a survey doesn't decide whether two texts have the same cells|L1 NotFound t.ctb|2
d/t.ctb: include ../u; include v; include h.dic & one/../u: letter a 1 & one/v: letter b 9 & h.dic: x & one/h.dic: y|brl,survey,--brief,--path,one,d/t.ctb||opcode letter: 1; file one/v: 0 of 1 lines are read; undefined characters (B5 to B7) are looked for once no line has another fault; 1 of 2 lines are read; no verdict: a survey doesn't decide whether two texts have the same cells||0
";

/// Traces, in the same form.
pub const TRACES: &str = "\
t.ctb: letter a 1; letter b 12|brl,trace,t.ctb,ab||text: ab; cells: 1-12;   a  -  1   t.ctb:1;   b  -  12  t.ctb:2||0
t.ctb: uplow Aa 1; capsletter 6; litdigit 1 1; numsign 3456|brl,trace,t.ctb,Aa1||text: Aa1; cells: 6-1-1-3456-1;   A  6     1  t.ctb:1;   a  -     1  t.ctb:1;   1  3456  1  t.ctb:3||0
t.ctb: include u; letter b 12 & u: letter a 1; always ab 14|brl,trace,t.ctb,aba||text: aba; cells: 14-1;   ab  -  14  u:2;   a   -  1   u:1||0
t.ctb: space \\s 0; punctuation \\\\ 12|brl,trace,t.ctb, \\||text: \\s\\\\; cells: 0-12;   \\s  -  0   t.ctb:1;   \\\\  -  12  t.ctb:2||0
t.ctb: letter a 1|brl,trace,t.ctb,||text: ; cells: ||0
t.ctb: letter a 1; letter b 12|brl,trace,t.ctb,az|||F1 UnknownChar 1 at text|2
t.ctb: letter a 1; letter b 12|brl,trace,t.ctb,zz|||F1 UnknownChar 0 at text|2
t.ctb: letter a 19|brl,trace,t.ctb,a|||B4 BadDots 19 at t.ctb:1|2
|brl,trace,t.ctb,a|||L1 NotFound t.ctb|2
";

/// Lists of rules, in the same form.
pub const RULES: &str = "\
t.ctb: letter a 1; letter b 12; always ab 14|brl,rules,t.ctb||0  always  ab  14  t.ctb:3; 1  letter  a  1  t.ctb:1; 2  letter  b  12  t.ctb:2||0
t.ctb: letter a 1; letter b 12; noback always ab 14; word b 56-12; uplow Cc 14,15 x; nofor always ac 3; include u & u: space \\s 0; litdigit a 3; begword \\x0061c = y|brl,rules,t.ctb||0  begword  ac  3-15  u:3; 1  always  ab  14  t.ctb:3; 2  word  b  56-12  t.ctb:4; 3  litdigit  a  3  u:2; 4  letter  b  12  t.ctb:2; 5  uplow  C  14  t.ctb:5; 6  uplow  c  15  t.ctb:5; 7  space  \\s  0  u:1||0
t.ctb: letter a 1; letter b 12; noback always ab 14; word b 56-12; uplow Cc 14,15 x; nofor always ac 3; include u & u: space \\s 0; litdigit a 3; begword \\x0061c = y|brl,rules,t.ctb,3,0,7,3||3  litdigit  a  3  u:2; 0  begword  ac  3-15  u:3; 7  space  \\s  0  u:1; 3  litdigit  a  3  u:2||0
t.ctb: letter a 1; letter b 12; always ab 14; word ab 15|brl,rules,t.ctb,0||0  word  ab  15  t.ctb:4||0
t.ctb: letter a 1; letter b 12; always ab 14|brl,rules,t.ctb,2,3,9|||error: the table has no rule 3|2
t.ctb: letter a 1|brl,rules,t.ctb,4294967295|||error: the table has no rule 4294967295|2
t.ctb: #|brl,rules,t.ctb||||0
t.ctb: #|brl,rules,t.ctb,0|||error: the table has no rule 0|2
t.ctb: letter a 19|brl,rules,t.ctb,7|||B4 BadDots 19 at t.ctb:1|2
|brl,rules,t.ctb,7|||L1 NotFound t.ctb|2
";

/// Explanations, in the same form.
pub const EXPLANATIONS: &str = "\
|brl,explain,U1||U1 NoAscii at line M; When: a cell has dot 7 or 8, which Braille ASCII has no mark for; What to do: Use `--form unicode`.||0
|brl,explain,B2 MissingOperand letter at t.ctb:1||B2 MissingOperand; When: the opcode needs another operand; Named: the opcode, or a prefix that ends its line; What to do: Add it.||0
|brl,explain,refused: K1 Version line 1||K1 Version; When: the header names no version from 1 to 3; What to do: Search again.||0
t.ctb: letter a 1; noback sign x 1|brl,explain,B1 OutsideProfile sign at t.ctb:2||B1 OutsideProfile; When: the opcode isn't read, or isn't a rule's after `noback` or `nofor`; Named: the opcode, the prefix left out; What to do: TUTORIAL.md, \"A table of liblouis\".; Opcode: sign is read, but not after noback or nofor; Line:;     t.ctb:2: noback sign x 1; Prefix: noback||0
|brl,explain,Memory||Memory; When: an allocation failed, which says nothing of the table, the text or the certificate; What to do: Give the program more memory, or search with a smaller `--limit`.||0
|brl,explain,notice DefinedAgain a at t.ctb:2||notice DefinedAgain CHARACTER; When: a line defines a character again, which is no fault: the first line gives its cells, as in liblouis; Named: the character; What to do: Nothing, if the first line is meant. If not, take it out.||0
|brl,explain,remark RuleAgain always ab 4 / always ab 3||remark RuleAgain RULE / RULE; When: a rule is for the characters of another, at the same places, with other dots, which is no fault: the other is used; Named: the rule, and the one that is used; What to do: Take the one out that isn't meant.||0
|brl,explain,P1 NoSuchRules letter a 1 / letter b 1 at p:2||P1 NoSuchRules; When: the line isn't what two rules of the table say, with ` / ` between them; Named: the line; What to do: Read what `brl clashes --accept` lists: the rule may have changed. Then take the line out by `--prune`.||0
|brl,explain,U12|||error: no fault is written as U12|2
|brl,explain,|||error: no fault is written as |2
|brl,explain,refused:|||error: no fault is written as refused:|2
|brl,explain,no clash|||error: no fault is written as no clash|2
";

/// Lists of rules that no text uses, in the same form.
pub const UNUSED: &str = "\
t.ctb: letter a 1; letter b 12|brl,unused,t.ctb||each of 2 rules is used by some text||0
t.ctb: letter a 1; letter b 12; always ab 3; always ab 4|brl,unused,t.ctb||1  always  ab  4  t.ctb:4  in its place:  t.ctb:3 always ab; 1 of 4 rules is used by no text||1
t.ctb: letter a 1; always a 12|brl,unused,t.ctb||1  letter  a  1  t.ctb:1  in its place:  t.ctb:2 always a; 1 of 2 rules is used by no text||1
t.ctb: letter a 1; midnum a 3|brl,unused,t.ctb||0  midnum  a  3  t.ctb:2  in its place:  t.ctb:1 letter a; 1 of 2 rules is used by no text||1
t.ctb: letter a 1; letter b 12; word ab 14; word ab 15; always ab 16|brl,unused,t.ctb||1  word  ab  15  t.ctb:4  in its place:  t.ctb:3 word ab; 1 of 5 rules is used by no text||1
t.ctb: uplow Aa 1|brl,unused,t.ctb||each of 2 rules is used by some text||0
t.ctb: letter a 1; word a 12; begword a 2|brl,unused,t.ctb||each of 3 rules is used by some text||0
t.ctb: letter a 1; letter a 2|brl,unused,t.ctb||the one rule is used by some text||0
t.ctb: #|brl,unused,t.ctb||each of 0 rules is used by some text|no line defines a character|0
t.ctb: letter a 1|brl,unused,t.ctb,--limit,1||limit: 2 states||3
t.ctb: letter a 1|brl,unused,t.ctb,--limit,2||the one rule is used by some text||0
t.ctb: letter a 19|brl,unused,t.ctb|||B4 BadDots 19 at t.ctb:1|2
|brl,unused,t.ctb|||L1 NotFound t.ctb|2
";

/// Lists of clashes, in the same form.
pub const CLASHES: &str = "\
t.ctb: letter a 1; letter b 12|brl,clashes,t.ctb||small letters: 0 pairs of rules diverge, and no others; unambiguous: 2 states, 0 pairs||0
t.ctb: letter a 1; letter a 2|brl,clashes,t.ctb||small letters: 0 pairs of rules diverge, and no others; unambiguous: 2 states, 0 pairs||0
t.ctb: #|brl,clashes,t.ctb||small letters: 0 pairs of rules diverge, and no others; unambiguous: 1 states, 0 pairs|no line defines a character|0
t.ctb: letter a 1; letter b 12; letter x 1-12|brl,clashes,t.ctb||small letters: 1 pair of rules diverges, and no others;   x / ab  1-12  t.ctb:3 letter x  t.ctb:1 letter a; 1 pair of rules diverges, and no others||1
t.ctb: letter a 1; punctuation . 1|brl,clashes,t.ctb||small letters: 0 pairs of rules diverge, and no others; with marks: 1 pair of rules diverges, and no others;   a / .  1  t.ctb:1 letter a  t.ctb:2 punctuation .; 1 pair of rules diverges, and no others||1
t.ctb: letter a 1; punctuation . 1|brl,clashes,t.ctb,--without,.||small letters: 0 pairs of rules diverge, and no others; unambiguous: 2 states, 0 pairs; without: .||0
t.ctb: digit 1 1; letter a 1|brl,clashes,t.ctb||small letters: 0 pairs of rules diverge, and no others; with digits: 1 pair of rules diverges, and no others;   1 / a  1  t.ctb:1 digit 1  t.ctb:2 letter a; 1 pair of rules diverges, and no others||1
t.ctb: uplow Aa 1; letter b 12; letter x 1-12; sign + 346; math = 346|brl,clashes,t.ctb||small letters: 1 pair of rules diverges, and no others;   x / ab  1-12  t.ctb:3 letter x  t.ctb:1 uplow a; with capitals: 2 more pairs of rules diverge, and no others;   A / a  1  t.ctb:1 uplow A  t.ctb:1 uplow a;   x / Ab  1-12  t.ctb:3 letter x  t.ctb:1 uplow A; all characters: 1 more pair of rules diverges, and no others;   + / =  346  t.ctb:4 sign +  t.ctb:5 math =; 4 pairs of rules diverge, and no others||1
t.ctb: letter a 1; letter b 12; word aa 123; word ab 123|brl,clashes,t.ctb,--kind,alike||small letters: 1 pair of rules diverges, and no others;   aa / ab  123  t.ctb:3 word aa  t.ctb:4 word ab; 1 pair of rules diverges, and no others||1
t.ctb: letter a 1; letter b 12; letter c 14; word ab 123; word cab 123|brl,clashes,t.ctb,--kind,rules||small letters: 1 pair of rules diverges, and no others;   cab / ab  123  t.ctb:5 word cab  t.ctb:4 word ab; 1 pair of rules diverges, and no others||1
t.ctb: letter a 1; letter b 12; letter c 256; always ab 3-256; always ba 3|brl,clashes,t.ctb,--kind,begins||small letters: 1 pair of rules diverges, and no others;   ab / bac  3-256  t.ctb:4 always ab  t.ctb:5 always ba; 1 pair of rules diverges, and no others||1
t.ctb: letter a 1; letter x 1; always ax 2|brl,clashes,t.ctb,--kind,cells||small letters: 1 pair of rules diverges, and no others;   a / x  1  t.ctb:1 letter a  t.ctb:2 letter x; 1 pair of rules diverges, and no others||1
t.ctb: uplow Aa 1|brl,clashes,t.ctb,--kind,case||small letters: 0 pairs of rules diverge, and no others; with capitals: 1 pair of rules diverges, and no others;   A / a  1  t.ctb:1 uplow A  t.ctb:1 uplow a; 1 pair of rules diverges, and no others||1
t.ctb: uplow Aa 1; uplow Bb 12; letter c 1-12|brl,clashes,t.ctb,--kind,again||small letters: 1 pair of rules diverges, and no others;   1 of other kinds; with capitals: 3 more pairs of rules diverge, and no others;   c / AB  1-12  t.ctb:3 letter c  t.ctb:1 uplow A;   2 of other kinds; 4 pairs of rules diverge, and no others||1
t.ctb: letter a 1; letter b 12; letter x 1-12|brl,clashes,t.ctb,--kind,several||small letters: 1 pair of rules diverges, and no others;   x / ab  1-12  t.ctb:3 letter x  t.ctb:1 letter a; 1 pair of rules diverges, and no others||1
t.ctb: letter a 1; letter b 12; word ab 1|brl,clashes,t.ctb,--kind,word||small letters: 1 pair of rules diverges, and no others;   ab / a  1  t.ctb:3 word ab  t.ctb:1 letter a; 1 pair of rules diverges, and no others||1
t.ctb: litdigit 1 1; letter a 1; numsign 3456|brl,clashes,t.ctb,--kind,asdigit||small letters: 0 pairs of rules diverge, and no others; with digits: 1 pair of rules diverges, and no others;   11 / 1a  3456-1-1  t.ctb:1 litdigit 1  t.ctb:2 letter a; 1 pair of rules diverges, and no others||1
t.ctb: litdigit 1 1; letter a 1; letter b 3456; numsign 3456|brl,clashes,t.ctb,--kind,number||small letters: 0 pairs of rules diverge, and no others; with digits: 2 pairs of rules diverge, and no others;   1 / ba  3456-1  t.ctb:1 litdigit 1  t.ctb:3 letter b;   1 of other kinds; 2 pairs of rules diverge, and no others||1
t.ctb: letter a 1; sign \\x00a0 1|brl,clashes,t.ctb,--kind,unseen||small letters: 0 pairs of rules diverge, and no others; all characters: 1 pair of rules diverges, and no others;   a / \\x00a0  1  t.ctb:1 letter a  t.ctb:2 sign \\x00a0; 1 pair of rules diverges, and no others||1
t.ctb: letter a 1; sign \\x2801 1|brl,clashes,t.ctb,--kind,braille||small letters: 0 pairs of rules diverge, and no others; all characters: 1 pair of rules diverges, and no others;   a / ⠁  1  t.ctb:1 letter a  t.ctb:2 sign ⠁; 1 pair of rules diverges, and no others||1
t.ctb: letter a 1; letter b 12; word aa 123; word ab 123|brl,clashes,t.ctb,--tsv||section\tkind\tleft\tright\tcells\tfile\tline\trule\tfile2\tline2\trule2; small letters\talike\taa\tab\t123\tt.ctb\t3\tword aa 123\tt.ctb\t4\tword ab 123||1
t.ctb: letter a 1; letter b 1; letter c 1; always ab 2; always bc 2|brl,clashes,t.ctb,--first,1||small letters: 4 pairs of rules diverge, and no others;   a / b  1  t.ctb:1 letter a  t.ctb:2 letter b;   3 more; 4 pairs of rules diverge, and no others||1
t.ctb: letter a 1; letter b 12; letter x 1-12|brl,clashes,t.ctb,--limit,0||small letters: 0 pairs of rules diverge, and maybe others; limit: 1 states, 0 pairs; 0 pairs of rules diverge, and maybe others||3
t.ctb: letter a 1|brl,clashes,t.ctb,--without,a||small letters: 0 pairs of rules diverge, and no others; unambiguous: 1 states, 0 pairs; without: a||0
t.ctb: letter a 19|brl,clashes,t.ctb|||B4 BadDots 19 at t.ctb:1|2
t.ctb: letter a 1|brl,clashes,t.ctb,--without,b|||U8 UndefinedLeftOut b|2
|brl,clashes,t.ctb,--without,a\\q|||U9 BadLeftOut a\\q|2
|brl,clashes,t.ctb|||L1 NotFound t.ctb|2
t.ctb: letter a 1; letter b 12; letter x 1-12 & p: letter a 1 / letter x 1-12|brl,clashes,t.ctb,--accept,p||small letters: 0 pairs of rules diverge, and no others but for the accepted ones; 0 pairs of rules diverge, and no others but for the accepted ones; but for: 1 pair of rules, 0 sets of characters||0
t.ctb: letter a 1; letter b 12; letter x 1-12 & p: # meant; ; letter x 1-12 / letter a 1; letter a 1 / letter x 1-12|brl,clashes,t.ctb,--accept,p||small letters: 0 pairs of rules diverge, and no others but for the accepted ones; 0 pairs of rules diverge, and no others but for the accepted ones; but for: 1 pair of rules, 0 sets of characters||0
t.ctb: letter a 1; letter b 12; letter x 1-12 & p: #|brl,clashes,t.ctb,--accept,p||small letters: 1 pair of rules diverges, and no others;   x / ab  1-12  t.ctb:3 letter x  t.ctb:1 letter a; 1 pair of rules diverges, and no others; but for: 0 pairs of rules, 0 sets of characters||1
t.ctb: letter a 1; letter b 12; letter x 1-12; always aa 14; letter c 14 & p: letter x 1-12 / letter a 1|brl,clashes,t.ctb,--accept,p||small letters: 1 pair of rules diverges, and no others but for the accepted ones;   aa / c  14  t.ctb:4 always aa  t.ctb:5 letter c; 1 pair of rules diverges, and no others but for the accepted ones; but for: 1 pair of rules, 0 sets of characters||1
t.ctb: letter a 1; letter b 12; letter x 1-12 & p: letter a 1 / letter x 1-12; letter a 1 / letter b 12|brl,clashes,t.ctb,--accept,p||small letters: 0 pairs of rules diverge, and no others but for the accepted ones; 0 pairs of rules diverge, and no others but for the accepted ones; stale: 1 line; but for: 1 pair of rules, 0 sets of characters|P2 NotListed letter a 1 / letter b 12 at p:2|2
t.ctb: letter a 1; letter b 12; letter x 1-12 & p: letter a 1 / letter x 12; letter a 1 / letter b 12|brl,clashes,t.ctb,--accept,p||small letters: 1 pair of rules diverges, and no others;   x / ab  1-12  t.ctb:3 letter x  t.ctb:1 letter a; 1 pair of rules diverges, and no others; stale: 2 lines; but for: 0 pairs of rules, 0 sets of characters|P1 NoSuchRules letter a 1 / letter x 12 at p:1; P2 NotListed letter a 1 / letter b 12 at p:2|1
t.ctb: letter a 1; letter b 12; letter x 1-12 & p: letter a 1 / letter x 1-12|brl,clashes,t.ctb,--without,x,--accept,p||small letters: 0 pairs of rules diverge, and no others; unambiguous: 2 states, 0 pairs; stale: 1 line; but for: 0 pairs of rules, 0 sets of characters; without: x|P2 NotListed letter a 1 / letter x 1-12 at p:1|2
t.ctb: letter a 1; letter b 12; letter x 1-12 & p: letter a 1 / letter b 12|brl,clashes,t.ctb,--limit,0,--accept,p||small letters: 0 pairs of rules diverge, and maybe others; limit: 1 states, 0 pairs; 0 pairs of rules diverge, and maybe others; but for: 0 pairs of rules, 0 sets of characters||3
t.ctb: letter a 1; letter b 12; letter x 1-12 & p: letter a 1|brl,clashes,t.ctb,--limit,0,--accept,p||small letters: 0 pairs of rules diverge, and maybe others; limit: 1 states, 0 pairs; 0 pairs of rules diverge, and maybe others; stale: 1 line; but for: 0 pairs of rules, 0 sets of characters|P1 NoSuchRules letter a 1 at p:1|3
t.ctb: letter a 1; letter b 12; letter x 1-12|brl,clashes,t.ctb,--accept,p|||L1 NotFound p|2
t.ctb: letter a 19|brl,clashes,t.ctb,--accept,p|||B4 BadDots 19 at t.ctb:1|2
t.ctb: letter a 1; letter b 12; letter x 1-12|brl,clashes,t.ctb,--accept,p,--without,z|||U8 UndefinedLeftOut z|2
t.ctb: letter a 1; letter b 12; letter x 1-12 & p: letter a 1 / letter x 1-12|brl,clashes,t.ctb,--accept,p,--write,o||small letters: 0 pairs of rules diverge, and no others but for the accepted ones; 0 pairs of rules diverge, and no others but for the accepted ones; but for: 1 pair of rules, 0 sets of characters||0
t.ctb: letter a 1; letter b 12; letter x 1-12|brl,clashes,t.ctb,--write,o||small letters: 1 pair of rules diverges, and no others;   x / ab  1-12  t.ctb:3 letter x  t.ctb:1 letter a; 1 pair of rules diverges, and no others||1
t.ctb: letter a 1; letter b 12; letter x 1-12|brl,clashes,t.ctb,--write,t.ctb|||error: the pairs of rules would overwrite t.ctb, a file that is read|2
t.ctb: include u; letter a 19 & u: #|brl,clashes,t.ctb,--write,u|||error: the pairs of rules would overwrite u, a file that is read|2
t.ctb: letter a 1; letter b 12; letter x 1-12|brl,clashes,t.ctb,--accept,p,--write,p|||error: the pairs of rules would overwrite p, a file that is read|2
|brl,clashes,t.ctb,--write,t.ctb|||L1 NotFound t.ctb|2
t.ctb: letter a 1; letter b 12 & p: exchange ab|brl,clashes,t.ctb,--accept,p||small letters: 0 pairs of rules diverge, and no others; unambiguous: 2 states, 0 pairs; stale: 1 line; but for: 0 pairs of rules, 0 sets of characters|P3 NoSuchSet exchange ab at p:1|2
t.ctb: letter a 1; letter b 12; letter x 1-12 & p: letter a 1 / letter x 1-12; letter a 1 / letter b 12|brl,clashes,t.ctb,--accept,p,--prune||small letters: 0 pairs of rules diverge, and no others but for the accepted ones; 0 pairs of rules diverge, and no others but for the accepted ones; pruned: 1 line; but for: 1 pair of rules, 0 sets of characters|P2 NotListed letter a 1 / letter b 12 at p:2|0
t.ctb: letter a 1; letter b 12; letter x 1-12 & p: letter a 1; letter b 1|brl,clashes,t.ctb,--accept,p,--prune||small letters: 1 pair of rules diverges, and no others;   x / ab  1-12  t.ctb:3 letter x  t.ctb:1 letter a; 1 pair of rules diverges, and no others; pruned: 2 lines; but for: 0 pairs of rules, 0 sets of characters|P1 NoSuchRules letter a 1 at p:1; P1 NoSuchRules letter b 1 at p:2|1
t.ctb: letter a 1; letter b 12; letter x 1-12 & p: letter a 1 / letter x 1-12|brl,clashes,t.ctb,--accept,p,--prune||small letters: 0 pairs of rules diverge, and no others but for the accepted ones; 0 pairs of rules diverge, and no others but for the accepted ones; pruned: 0 lines; but for: 1 pair of rules, 0 sets of characters||0
t.ctb: include p; letter b 12 & p: letter a 1|brl,clashes,t.ctb,--accept,p,--prune|||error: the pairs of rules would overwrite p, a file that is read|2
t.ctb: letter a 1; letter b 12; letter x 1-12 & p: letter a 1 / letter x 1-12; letter x 1-12 / letter a 1; letter a 1 / letter a 1|brl,search,t.ctb,o,--accept,p||certified: 2 states, 0 pairs; but for: 2 pairs of rules, 0 sets of characters||0
t.ctb: letter a 1; letter b 12; letter x 1-12 & p: letter a 1; letter b 12 / letter x 12|brl,search,t.ctb,o,--accept,p|||P1 NoSuchRules letter a 1 at p:1; P1 NoSuchRules letter b 12 / letter x 12 at p:2|2
t.ctb: letter a 1; letter b 12; letter x 1-12 & p: letter x 1-12 / letter a 1|brl,search,t.ctb,o,--accept,p||certified: 2 states, 0 pairs; but for: 1 pair of rules, 0 sets of characters||0
t.ctb: space \\s 0; space \\t 0; letter a 1 & p: exchange \\t\\s|brl,search,t.ctb,o,--accept,p||certified: 2 states, 0 pairs; but for: 0 pairs of rules, 1 set of characters||0
t.ctb: space \\s 0; space \\t 0; letter a 1 & p: exchange \\t\\s|brl,search,t.ctb,o,--accept,p,--without,a||certified: 1 states, 0 pairs; but for: 0 pairs of rules, 1 set of characters; without: a||0
t.ctb: letter a 1; letter b 12; letter x 1-12 & p: #|brl,search,t.ctb,o,--accept,p||left: x; right: ab; cells: 1-12; left from 0:;   x  1-12  t.ctb:3; right from 0:;   a  1   t.ctb:1;   b  12  t.ctb:2||1
t.ctb: letter a 1; letter b 12; letter x 1-12 & p: #|brl,search,t.ctb,o,--accept,p,--limit,0||limit: 1 states, 0 pairs||3
t.ctb: letter a 1; letter b 1; letter c 1 & p: #|brl,search,t.ctb,o,--accept,p,--limit,2||left: a; right: b; cells: 1; left from 0:;   a  1  t.ctb:1; right from 0:;   b  1  t.ctb:2||1
t.ctb: letter a 1; letter b 1; letter c 1 & p: letter a 1 / letter b 1|brl,search,t.ctb,o,--accept,p,--limit,2||left: a; right: c; cells: 1; left from 0:;   a  1  t.ctb:1; right from 0:;   c  1  t.ctb:3||1
t.ctb: letter a 1; letter b 1; letter c 1 & p: letter a 1 / letter b 1; letter a 1 / letter c 1; letter b 1 / letter c 1|brl,search,t.ctb,o,--accept,p,--limit,2||limit: 2 states, 0 pairs||3
t.ctb: letter a 1; letter b 12; letter x 1-12 & p: letter a 1|brl,search,t.ctb,o,--accept,p|||P1 NoSuchRules letter a 1 at p:1|2
t.ctb: letter a 1; letter b 12; letter x 1-12|brl,search,t.ctb,o,--accept,p|||L1 NotFound p|2
t.ctb: letter a 1; letter b 12; letter x 1-12|brl,search,t.ctb,p,--accept,p|||error: the certificate would overwrite p, a file that is read|2
t.ctb: letter a 1; letter b 12; letter x 1-12|brl,search,t.ctb,o,--accept,p,--without,z|||U8 UndefinedLeftOut z|2
t.ctb: letter a 1; letter b 12; letter x 1-12 & p: letter x 1-12 / letter a 1 & c: BRLCERT 3; state 1 0 0; state 8 0 0; end 2 0|brl,check,t.ctb,c,--accept,p||accepted: 2 states, 0 pairs; but for: 1 pair of rules, 0 sets of characters||0
t.ctb: letter a 1; letter b 12; letter x 1-12 & p: # & c: BRLCERT 3; state 1 0 0; state 8 0 0; end 2 0|brl,check,t.ctb,c,--accept,p||refused: A3 SplitMissing state 0 rules 0 2||1
t.ctb: space \\s 0; space \\t 0; letter a 1 & p: exchange \\s\\t & c: BRLCERT 3; state 1 0 0; state 8 0 0; end 2 0|brl,check,t.ctb,c,--accept,p||accepted: 2 states, 0 pairs; but for: 0 pairs of rules, 1 set of characters||0
t.ctb: letter a 1; letter b 12; letter x 1-12 & p: letter x 1-12 / letter a 1 & c: BRLCERT 1; state 1 0 0 -; end 1 0|brl,check,t.ctb,c,--accept,p||refused: K9 OldVersion line 1||1
t.ctb: letter a 1; letter b 12; letter x 1-12 & c: BRLCERT 3; state 1 0 0; end 1 0|brl,check,t.ctb,c,--accept,p|||L1 NotFound p|2
t.ctb: letter a 19 & p: #|brl,check,t.ctb,c,--accept,p|||L1 NotFound c|2
";

/// Searches and checks without some characters, in the same form.
pub const WITHOUT: &str = "\
t.ctb: space \\s 0; space \\x00a0 0; letter a 1; letter b 12|brl,search,t.ctb,o,--without,\\x00a0||certified: 2 states, 0 pairs; without: \\x00a0||0
t.ctb: space \\s 0; space \\x00a0 0; letter a 1; letter b 12|brl,search,t.ctb,o,--without,\\s||certified: 2 states, 0 pairs; without: \\s||0
t.ctb: space \\s 0; space \\x00a0 0; letter a 1; letter b 12; letter x 1-12|brl,search,t.ctb,o,--without,\\x00a0||left: x; right: ab; cells: 1-12; left from 0:;   x  1-12  t.ctb:5; right from 0:;   a  1   t.ctb:3;   b  12  t.ctb:4||1
t.ctb: space \\s 0; space \\x00a0 0; letter a 1; letter b 12; letter x 1-12|brl,search,t.ctb,o,--without,x\\x00a0||certified: 2 states, 0 pairs; without: x \\x00a0||0
t.ctb: letter a 1; letter b 12; letter c 14; letter d 145; always abc 145|brl,search,t.ctb,o,--without,b||certified: 3 states, 0 pairs; without: b||0
t.ctb: letter a 1|brl,search,t.ctb,o,--without,a||certified: 1 states, 0 pairs; without: a||0
t.ctb: letter a 1; letter b 12|brl,search,t.ctb,o,--without,ba||certified: 1 states, 0 pairs; without: b a||0
t.ctb: letter a 1; letter b 12|brl,search,t.ctb,o,--without,aa||certified: 2 states, 0 pairs; without: a a||0
t.ctb: letter a 1; letter - 36; letter z 1356|brl,search,t.ctb,o,--without,a-z||certified: 1 states, 0 pairs; without: a - z||0
t.ctb: letter a 1|brl,search,t.ctb,o,--without,||certified: 2 states, 0 pairs||0
t.ctb: letter a 1; letter b 12; letter x 1-12|brl,search,t.ctb,o,--limit,0,--without,x||limit: 1 states, 0 pairs||3
t.ctb: letter a 1|brl,search,t.ctb,o,--without,b|||U8 UndefinedLeftOut b|2
t.ctb: letter a 1; letter b 12|brl,search,t.ctb,o,--without,abzy|||U8 UndefinedLeftOut z|2
t.ctb: letter a 1|brl,search,t.ctb,o,--without,\\n|||U8 UndefinedLeftOut \\n|2
t.ctb: letter a 1; letter a 1|brl,search,t.ctb,o,--without,b|||U8 UndefinedLeftOut b|2
t.ctb: letter a 19|brl,search,t.ctb,o,--without,b|||B4 BadDots 19 at t.ctb:1|2
|brl,search,t.ctb,o,--without,a\\q|||U9 BadLeftOut a\\q|2
|brl,check,t.ctb,c,--without,\\x12|||U9 BadLeftOut \\x12|2
t.ctb: letter a 1 & c: BRLCERT 3; state 1 0 0; end 1 0|brl,check,t.ctb,c,--without,a||accepted: 1 states, 0 pairs; without: a||0
t.ctb: letter a 1 & c: BRLCERT 3; state 1 0 0; end 1 0|brl,check,t.ctb,c||refused: A2 StateMissing state 0 rule 0||1
t.ctb: letter a 1; letter b 12; letter x 1-12 & c: BRLCERT 3; state 1 0 0; state 8 0 0; end 2 0|brl,check,t.ctb,c,--without,x||accepted: 2 states, 0 pairs; without: x||0
t.ctb: letter a 1; letter b 12 & c: BRLCERT 3; state 1 0 0; state 8 0 0; end 2 0|brl,check,t.ctb,c,--without,a||accepted: 2 states, 0 pairs; without: a||0
t.ctb: letter a 1; letter b 12; letter x 1-12 & c: BRLCERT 2; state 1 0; state 8 0; end 2 0|brl,check,t.ctb,c,--without,b||refused: A3 SplitMissing state 0 rules 0 2||1
t.ctb: letter a 1; letter b 1 & c: BRLCERT 1; state 1 0 0 -; state 8 0 0 61; state 8 0 0 62; state 8 0 1 -; pair 1 2 -; pair 1 3 -; pair 2 3 -; end 4 3|brl,check,t.ctb,c,--without,b||accepted: 4 states, 3 pairs; without: b||0
t.ctb: letter a 1; letter b 1 & c: BRLCERT 1; state 1 0 0 -; state 8 0 0 61; state 8 0 0 62; state 8 0 1 -; pair 1 2 -; pair 1 3 -; pair 2 3 -; end 4 3|brl,check,t.ctb,c||refused: A3 SplitMissing state 0 rules 0 1||1
t.ctb: letter a 1 & c: BRLCERT 9|brl,check,t.ctb,c,--without,ab|||U8 UndefinedLeftOut b|2
t.ctb: letter a 1 & c: BRLCERT 9|brl,check,t.ctb,c,--without,a||refused: K1 Version line 1||1
t.ctb: uplow Aa 1; begcapsword 6-6 & c: BRLCERT 2; end 0 0|brl,check,t.ctb,c,--without,A||refused: K9 OldVersion line 1||1
";

/// Searches, checks and lists of texts that are made of some characters, in the same form.
pub const ONLY: &str = "\
t.ctb: letter a 1; letter b 12; letter x 1-12|brl,search,t.ctb,o,--only,ab||certified: 2 states, 0 pairs; only: ab||0
t.ctb: letter a 1; letter b 12; letter x 1-12|brl,search,t.ctb,o,--only,ba||certified: 2 states, 0 pairs; only: ba||0
t.ctb: letter a 1; letter b 12; letter x 1-12|brl,search,t.ctb,o,--only,a..w||certified: 2 states, 0 pairs; only: a..w||0
t.ctb: letter a 1; letter b 12; letter x 1-12|brl,search,t.ctb,o,--only,a..z||left: x; right: ab; cells: 1-12; left from 0:;   x  1-12  t.ctb:3; right from 0:;   a  1   t.ctb:1;   b  12  t.ctb:2||1
t.ctb: letter a 1; letter b 12; letter x 1-12|brl,search,t.ctb,o,--only,xab||left: x; right: ab; cells: 1-12; left from 0:;   x  1-12  t.ctb:3; right from 0:;   a  1   t.ctb:1;   b  12  t.ctb:2||1
t.ctb: letter a 1; letter b 12; letter x 1-12|brl,search,t.ctb,o,--only,b..x||certified: 2 states, 0 pairs; only: b..x||0
t.ctb: letter a 1; letter b 12; letter c 14; letter d 145|brl,search,t.ctb,o,--only,abc||certified: 2 states, 0 pairs; only: a..c||0
t.ctb: letter a 1; letter b 12; letter c 14; letter d 145|brl,search,t.ctb,o,--only,abd||certified: 2 states, 0 pairs; only: abd||0
t.ctb: letter a 1; letter b 12; letter c 14; letter d 145|brl,search,t.ctb,o,--only,a..bc..d||certified: 2 states, 0 pairs; only: a..d||0
t.ctb: letter a 1; letter b 12; letter c 14; letter d 145|brl,search,t.ctb,o,--only,d..da||certified: 2 states, 0 pairs; only: da||0
t.ctb: letter a 1; letter b 12; letter c 14; letter d 145; always abc 145|brl,search,t.ctb,o,--only,acd||certified: 3 states, 0 pairs; only: acd||0
t.ctb: letter a 1; letter b 12|brl,search,t.ctb,o,--only,ab||certified: 2 states, 0 pairs; only: ab||0
t.ctb: letter a 1; letter b 12|brl,search,t.ctb,o,--only,aa||certified: 2 states, 0 pairs; only: aa||0
t.ctb: space \\s 0; space \\x00a0 0; letter a 1; letter b 12; letter x 1-12|brl,search,t.ctb,o,--only,a..b\\s||certified: 2 states, 0 pairs; only: ab\\s||0
t.ctb: space \\s 0; space \\x00a0 0; letter a 1; letter b 12|brl,search,t.ctb,o,--only,\\x0020..b||certified: 2 states, 0 pairs; only: \\s..b||0
t.ctb: space \\s 0; letter a 1; letter b 12; letter x 1-12|brl,search,t.ctb,o,--only,\\x0020..x||left: x; right: ab; cells: 1-12; left from 0:;   x  1-12  t.ctb:4; right from 0:;   a  1   t.ctb:2;   b  12  t.ctb:3||1
t.ctb: letter a 1; letter . 3; letter c 14|brl,search,t.ctb,o,--only,c.||certified: 2 states, 0 pairs; only: c.||0
t.ctb: letter a 1; letter . 3; letter c 14|brl,search,t.ctb,o,--only,c..||certified: 2 states, 0 pairs; only: c..||0
t.ctb: letter a 1; letter b 12; letter x 1-12|brl,search,t.ctb,o,--limit,0,--only,ab||limit: 1 states, 0 pairs||3
t.ctb: letter a 1|brl,search,t.ctb,o,--only,b|||U10 UndefinedOnly b|2
t.ctb: letter a 1; letter c 14|brl,search,t.ctb,o,--only,abc|||U10 UndefinedOnly b|2
t.ctb: letter a 1; letter c 14|brl,search,t.ctb,o,--only,a..c||certified: 2 states, 0 pairs; only: a..c||0
t.ctb: letter a 1|brl,search,t.ctb,o,--only,ab..z|||U10 UndefinedOnly b..z|2
t.ctb: letter a 1|brl,search,t.ctb,o,--only,z..a|||U10 UndefinedOnly z..a|2
t.ctb: letter a 1|brl,search,t.ctb,o,--only,\\n|||U10 UndefinedOnly \\n|2
t.ctb: letter a 19|brl,search,t.ctb,o,--only,b|||B4 BadDots 19 at t.ctb:1|2
|brl,search,t.ctb,o,--only,a\\q|||U11 BadOnly a\\q|2
|brl,search,t.ctb,o,--only,|||U11 BadOnly |2
|brl,check,t.ctb,c,--only,\\x12|||U11 BadOnly \\x12|2
|brl,unused,t.ctb,--only,\\|||U11 BadOnly \\|2
t.ctb: letter a 1; letter b 12; letter x 1-12 & c: BRLCERT 3; state 1 0 0; state 8 0 0; end 2 0|brl,check,t.ctb,c,--only,ab||accepted: 2 states, 0 pairs; only: ab||0
t.ctb: letter a 1; letter b 12; letter x 1-12 & c: BRLCERT 3; state 1 0 0; state 8 0 0; end 2 0|brl,check,t.ctb,c,--only,a..x||refused: A3 SplitMissing state 0 rules 0 2||1
t.ctb: letter a 1; letter b 12; letter x 1-12 & c: BRLCERT 3; state 1 0 0; state 8 0 0; end 2 0|brl,check,t.ctb,c||refused: A3 SplitMissing state 0 rules 0 2||1
t.ctb: letter a 1 & c: BRLCERT 9|brl,check,t.ctb,c,--only,ab|||U10 UndefinedOnly b|2
t.ctb: letter a 1; letter b 12; letter x 1-12 & p: letter a 1 / letter x 1-12|brl,search,t.ctb,o,--accept,p,--only,z|||U10 UndefinedOnly z|2
t.ctb: letter a 1; letter b 12; letter x 1-12|brl,clashes,t.ctb,--only,ab||small letters: 0 pairs of rules diverge, and no others; unambiguous: 2 states, 0 pairs; only: ab||0
t.ctb: letter a 1; letter b 12; letter x 1-12|brl,clashes,t.ctb,--only,a..z||small letters: 1 pair of rules diverges, and no others;   x / ab  1-12  t.ctb:3 letter x  t.ctb:1 letter a; 1 pair of rules diverges, and no others; only: a..z||1
t.ctb: letter a 1; punctuation . 1|brl,clashes,t.ctb,--only,a||small letters: 0 pairs of rules diverge, and no others; unambiguous: 2 states, 0 pairs; only: a||0
t.ctb: letter a 1|brl,clashes,t.ctb,--only,b|||U10 UndefinedOnly b|2
t.ctb: letter a 1; letter b 12; always ab 3|brl,unused,t.ctb,--only,a||0  always  ab  3  t.ctb:3; 2  letter  b  12  t.ctb:2; 2 of 3 rules are used by no text; only: a||1
t.ctb: letter a 1; letter b 12; always ab 3; always ab 4|brl,unused,t.ctb,--only,a..b||1  always  ab  4  t.ctb:4  in its place:  t.ctb:3 always ab; 1 of 4 rules is used by no text; only: ab||1
t.ctb: letter a 1; letter b 12; always ab 3|brl,unused,t.ctb,--without,b||0  always  ab  3  t.ctb:3; 2  letter  b  12  t.ctb:2; 2 of 3 rules are used by no text; without: b||1
t.ctb: letter a 1; letter b 12|brl,unused,t.ctb,--only,ab||each of 2 rules is used by some text; only: ab||0
t.ctb: letter a 1|brl,unused,t.ctb,--without,b|||U8 UndefinedLeftOut b|2
t.ctb: letter a 1|brl,unused,t.ctb,--only,b|||U10 UndefinedOnly b|2
t.ctb: letter a 1|brl,unused,t.ctb,--limit,1,--only,a||limit: 2 states||3
";

/// Tables for which a search finds a certificate, each with its notices.
pub const CERTIFIED: &str = "\
letter a 1; letter b 12; letter x 1-12; always ab 14|
letter a 1; litdigit 1 1; numsign 3456; nocontractsign 56; numericnocontchars a|
letter a 1; letter b 12|
letter a 1; letter a 12|notice DefinedAgain a at t.ctb:2
space \\s 0; letter a 1; space \\s 1; punctuation \\\\ 2; letter \\\\ 3|notice DefinedAgain \\s at t.ctb:3; notice DefinedAgain \\\\ at t.ctb:5
space \\s 0; letter b 12; letter u 136; letter t 2345; word but 12; word b 56-12|
space \\s 0; letter a 1; letter b 12; letter c 14; always abcabc 25|
";

/// Tables of which a search finds two texts that clash.
pub const CLASHING: &str = "\
letter a 1; letter b 12; letter x 1-12
letter a 1; letter b 12; letter c 14; always ab 14
space \\s 0; letter b 12; letter u 136; letter t 2345; word but 12
letter a 1; litdigit 1 1; numsign 3456
uplow Aa 1
letter a 1; letter b 12; letter c 14; letter d 145; always abc 145
";

/// The words, over no files; a text that is written to standard output and one to standard error,
/// where an empty one says that nothing is written; and the status.
pub const REQUESTS: &str = "\
brl,translate,t.ctb||L1 NotFound t.ctb|2
brl,--help|Usage: brl <COMMAND>||0
brl,help|Usage: brl <COMMAND>||0
brl,translate,--help|Usage: brl translate [OPTIONS] <TABLE>||0
brl,translate,-h|brl translate first.ctb||0
brl,--version|brl 0.1.0||0
brl||Usage: brl <COMMAND>|2
brl,translate||<TABLE>|2
brl,translate,t.ctb,more||unexpected argument 'more'|2
brl,translate,--nothing,t.ctb||unexpected argument '--nothing'|2
brl,translate,--form,unicode,t.ctb||L1 NotFound t.ctb|2
brl,translate,--form,latin,t.ctb||invalid value 'latin' for '--form <FORM>'|2
brl,translate,--help|[possible values: ascii, unicode]||0
brl,search,--help|--without <CHARS>||0
brl,check,--help|--without <CHARS>||0
brl,unused,--help|--only <CHARS>||0
brl,search,t.ctb,o,--only,a,--without,b||the argument '--only <CHARS>' cannot be used with '--without <CHARS>'|2
brl,check,t.ctb,c,--only||a value is required for '--only <CHARS>'|2
brl,clash,t.ctb,a,b,--only,a||unexpected argument '--only'|2
brl,check,t.ctb,c,--without||a value is required for '--without <CHARS>'|2
brl,clash,t.ctb,a,b,--without,a||unexpected argument '--without'|2
brl,clash,--help|--escapes||0
brl,trace,--help|--escapes||0
brl,search,t.ctb,o,--escapes||unexpected argument '--escapes'|2
brl,--nothing||unexpected argument '--nothing'|2
brl,clash,t.ctb,a,b||L1 NotFound t.ctb|2
brl,clash,--help|brl clash alike.ctb ab x||0
brl,clash,t.ctb,a||<RIGHT>|2
brl,clash,t.ctb,a,b,c||unexpected argument 'c'|2
brl,search,--help|brl search ab.ctb ab.cert||0
brl,search,t.ctb||<OUT>|2
brl,search,t.ctb,o,p||unexpected argument 'p'|2
brl,search,t.ctb,o||L1 NotFound t.ctb|2
brl,search,t.ctb,o,--limit,4294967295||L1 NotFound t.ctb|2
brl,search,t.ctb,o,--limit,4294967296||invalid value '4294967296' for '--limit <N>'|2
brl,search,t.ctb,o,--limit,-1||'-1'|2
brl,search,t.ctb,o,--limit,ten||invalid value 'ten' for '--limit <N>'|2
brl,clashes,--help|brl clashes three.ctb||0
brl,clashes,--help|--first <N>||0
brl,clashes,--help|--accept <FILE>||0
brl,clashes,--help|--write <FILE>||0
brl,clashes||<TABLE>|2
brl,clashes,t.ctb,o||unexpected argument 'o'|2
brl,clashes,t.ctb,--kind,alikes||invalid value 'alikes' for '--kind <KEY>'|2
brl,clashes,t.ctb,--tsv,--first,1||the argument '--tsv' cannot be used with '--first <N>'|2
brl,clashes,t.ctb,--first,ten||invalid value 'ten' for '--first <N>'|2
brl,cut,--help|brl cut far.ctb near||0
brl,cut,--help|--rewrite||0
brl,cut,t.ctb||<DIR>|2
brl,cut,t.ctb,d,e||unexpected argument 'e'|2
brl,cut,t.ctb,d,--brief||unexpected argument '--brief'|2
brl,survey,t.ctb,--rewrite||unexpected argument '--rewrite'|2
brl,survey,--help|brl survey far.ctb||0
brl,survey||<TABLE>|2
brl,survey,--nothing,t.ctb||unexpected argument '--nothing'|2
brl,survey,t.ctb,u.ctb|no verdict|L1 NotFound t.ctb|2
brl,explain,--help|brl explain 'U1 NoAscii at line 5'||0
brl,explain||<FAULT>|2
brl,explain,B1,B2||unexpected argument 'B2'|2
brl,explain,B4|B4 BadDots||0
brl,explain,B4 BadDots 1596 at t.ctb:1|Dots: 9 is a virtual dot||0
brl,explain,B1 OutsideProfile base at t.ctb:1|Opcode: brl cut --rewrite reads base uppercase, as uplow||0
brl,explain,B1 OutsideProfile contraction at t.ctb:1|Opcode: brl cut --rewrite reads contraction, as word||0
brl,explain,B1 OutsideProfile letsign at t.ctb:1|Opcode: brl cut --rewrite reads the last letsign, as a word line for each letter||0
brl,explain,B4 BadDots 156# at t.ctb:1|Dots: # is no dot||0
brl,explain,B4 BadDots 12-156F at t.ctb:1|Dots: F is a virtual dot||0
brl,explain,B4 BadDots 01 at t.ctb:1|Dots: 0 is a cell by itself||0
brl,explain,B4 BadDots 1556 at t.ctb:1|Dots: a dot is in a cell twice||0
brl,explain,B4 BadDots 1--2 at t.ctb:1|Dots: a cell is empty||0
brl,explain,B4 BadDots 1-1-1-1-1-1-1-1-1-1-1-1-1-1-1-1-1 at t.ctb:1|Dots: there are more than 16 cells||0
brl,explain,B1 OutsideProfile always\u{a0}sh at t.ctb:1|Characters: \\x00a0||0
brl,explain,B3 BadCharacters e\u{301}\u{1f600} at t.ctb:1|Characters: \\x0301 \\z0001f600||0
brl,unused,--help|brl unused twice.ctb||0
brl,unused||<TABLE>|2
brl,unused,--limit,x,t.ctb||invalid value 'x'|2
brl,rules,--help|brl rules ranked.ctb||0
brl,rules||<TABLE>|2
brl,rules,t.ctb,x||invalid value 'x' for '[N]...'|2
brl,rules,t.ctb,4294967296||invalid value '4294967296'|2
brl,rules,t.ctb,0,1||L1 NotFound t.ctb|2
brl,trace,--help|brl trace steps.ctb Aa1||0
brl,trace,t.ctb||<TEXT>|2
brl,trace,t.ctb,a,b||unexpected argument 'b'|2
brl,trace,t.ctb,a||L1 NotFound t.ctb|2
brl,find,t.ctb||unrecognized subcommand 'find'|2
";
