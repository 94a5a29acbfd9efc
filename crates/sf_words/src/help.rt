//! What the help of each command says after its options.
use crate::order::Verb;

/// The end of the help of `sf` itself.
pub(crate) const SF: &str = "Examples:
  sf scan -lS '%d,%d' < points   two numbers of each line, and nothing else
  sf print '%s is %d\\n' ann 7    values by a format

'sf help COMMAND' has the options, examples and exit statuses of a command.

'man sf' and 'sf help formats' have the letters of formats.";

/// The end of the help of `sf show`.
pub(crate) const SHOW: &str = "Examples:
  sf show '%3d,%*s'         three directives, the last of which assigns nothing
  sf show '%2$d %1$[a-z]'   directives that name their slots

Exit status:
  0  the directives were shown
  2  the words or the format were at fault
  3  standard output could not be written
  4  memory was refused

'man sf' and 'sf help formats' have the letters of formats.";

/// How a command is called.
pub(crate) fn usage(verb: Verb) -> &'static str {
    match verb {
        Verb::Show => "sf show [OPTIONS] <FORMAT>",
        Verb::Scan => SCAN_USAGE,
        Verb::Print => "sf print [OPTIONS] <FORMAT> [VALUES]...",
        Verb::Check => "sf check [OPTIONS] <PRINT> [SCAN]",
        Verb::Copy => "sf copy [OPTIONS] <PRINT> <SCAN> [FILE]...",
    }
}

/// How `sf scan` is called.
pub(crate) const SCAN_USAGE: &str = "sf scan [OPTIONS] <FORMAT> [FILE]...
       sf scan --lines [OPTIONS] -e <FORMAT>... [FILE]...";

/// The end of the help of `sf scan`.
pub(crate) const SCAN: &str = "Examples:
  sf scan -lw '%d,%d' < points              two numbers and no more of a line
  sf scan -lS '%d,%d' < points              the same, and no space or plus in it
  sf scan -lwp3 '%lf,%?lf' < points         floats, of which the second may miss
  sf scan -l -o json --names x,y '%d,%d' < points  an object of each line
  sf scan -l -s1 -e '%d,%d' -e '%d' < points  after a header, one or two numbers
  sf scan -l --print '%2$d %1$d\\n' '%d,%d' < points  in the other order
  sf scan -l --matching '%d,%d' < points    the lines that the format reads
  sf scan -l --ignore '#' --ignore '#%*[^\\n]' '%d' < points  no comments
  sf scan --limit 80 '%s' < words           records: lines don't count

Exit status:
  0  each record or line was scanned
  1  a record or a line failed, or a record took no bytes
  2  the words or a format were at fault
  3  an input could not be read, or standard output not written
  4  memory was refused

'man sf' and 'sf help formats' have the letters of formats.";

/// The end of the help of `sf print`.
pub(crate) const PRINT: &str = "Examples:
  sf print '%s is %d\\n' ann 7   a text and a number
  sf print '%+d\\n' -5           a value may begin with - and a digit
  sf print --raw '%s\\n' 'a\\b'   a value as it stands

In the format, and in a value of %s or %c, a backslash begins an escape:
\\\\, \\n, \\t, \\v, \\f, \\r or \\xHH. With --raw values have none.

From the first value that begins with - and a digit, all words are values.
Other values that begin with - stand after --.

Exit status:
  0  the text was printed
  2  the words, the format or a value were at fault
  3  standard output could not be written
  4  memory was refused

'man sf' and 'sf help formats' have the letters of formats.";

/// The end of the help of `sf check`.
pub(crate) const CHECK: &str = "Examples:
  sf check '%d\\n' '%11d%*1[\\n]'   a pair that is accepted
  sf check '%xx' '%4xx'           a pair that is refused: %4x runs on into the x
  sf check --width 20 '%d,%s\\n'   writes the scan format: %11d,%20s%*1[\\n]

Exit status:
  0  the pair was accepted, or a scan format written
  1  the pair was refused, or no scan format reads it back
  2  the words or a format were at fault
  3  standard output could not be written
  4  memory was refused

'man sf' and 'sf help formats' have the letters of formats.";

/// The end of the help of `sf copy`.
pub(crate) const COPY: &str = "Examples:
  sf copy '%d,%s\\n' '%11d,%20s%*1[\\n]' < table  without needless zeros
  sf copy '%+d;' '%3d;' < numbers               each number with its sign
  sf copy -lk '%d\\n' '%11d%*1[\\n]' < numbers    with a report of the other lines

It writes a form that reads back: the same command leaves unchanged what it
wrote. A pair that doesn't read back is refused. To write records in any other
form, use sf scan --print PRINT SCAN. With --lines, %*1[\\n] at the end of SCAN
stands for the newline of a line.

Exit status:
  0  each record or line was copied
  1  a record or a line failed, its values did not fit, or it took no bytes
  2  the words, a format or the pair of formats were at fault
  3  an input could not be read, or standard output not written
  4  memory was refused

'man sf' and 'sf help formats' have the letters of formats.";

/// The page on formats.
pub(crate) const FORMATS: &str =
    "A scan format takes its input from left to right. White space in it takes any
white space or none, %% a percent sign, and any other text itself.

  %[N$][*][?][=][!][WIDTH][hh|h|l]LETTER

  LETTER      TAKES                                        PROFILE
  d           a number of base 10, with a sign or none     1
  u           the same, from 0; a minus negates, as in C   1
  i           a number of base 10; 0x: 16, 0: 8            1    0b: 2, from 2 on
  o   x   X   a number of base 8, of base 16               1
  b           a number of base 2                           2
  f e g a     a float: 1.5 -1e3 0x1p4 inf; E F G A alike   3    %lf: a double
  s           text, up to white space                      1
  [a-z_]      text of these bytes; [^,] of all others      1    ] stands first
  c           one byte, whatever it is; %5c takes five     1
  n           nothing: it counts the bytes that were used  1

  N$          the place of the value: '%2$d %1$d'          1
  *           drops what it takes: '%*s'                   1
  ?           what may be missing: '%d,%?d'                3    %?(,%d%): as one
  =           a column of WIDTH bytes, blanks too: '%=8d'  3
  !           no space, plus or 0x before it: '%!d'        3
  WIDTH       the most bytes that it takes: '%3d'          1
  hh   h   l  8, 16 or 64 bits and not 32: '%hhu'          1

All but [, c, n, = and ! pass over white space first. A number fits its bits.

A print format writes its values, and all other text as it stands.

  %[N$][-+ #0][WIDTH][.PRECISION][hh|h|l]LETTER

  LETTER      PRINTS                                       PROFILE
  d i u       a number of base 10                          1
  o   x   X   a number of base 8, of base 16               1
  b           a number of base 2                           2
  f e g a     a float: 1.500000 1.5e+00 1.5 0x1.8p+0       3    F E G A, too
  s   c       a text, a text of one byte                   1

  -   0       on the left; zeros in front of a number
  +   space   a plus or a space where no minus stands
  #           0 0x 0b in front; of a float, the point
  WIDTH       the least bytes that it writes: '%5d'
  .PRECISION  digits of a number, the most bytes of a text: '%.2f' '%.3s'

Single quotes keep a format from the shell. \\\\ \\n \\t \\v \\f \\r \\xHH are a byte.
";
