// How the program is called.
pub(crate) const HELP: &str =
    "cribstork FONT..                    what becomes of each glyph of a Type 1 font; of several fonts, a row each
cribstork --banks BANKS [--need NAMES] FONT..
                                    which fonts each bank may print: a row for each font and bank
  --banks BANKS    a file with a line for each bank, its cells separated by tabs; the first line names the
                   columns: name, stems, commands (entries), output (bytes), and a b c d tx ty, a matrix,
                   and x0 y0 x1 y1, a window, and strict, yes or no; '#' begins a comment
  --need NAMES     a file of the glyph names that are needed; without it every glyph is
  --table          the whole table for each of several fonts
  --hex            with the finished charstrings
  --glyph NAMES    only these glyphs, with commas between them; may come again
  --matrix A B C D TX TY
                   a matrix in place of the identity
  --font-matrix    1000 times the font's own matrix
  --strict         Type 1's own stack of 24 operands: a glyph with a 25th is refused with 22
  --window X0 Y0 X1 Y1
                   each glyph's box, and whether it is within this window, crosses it or is outside
  --stems N --commands N --output N
                   a bank's stores: stem records, entries, bytes
  --help, -h       this
  --version        the program's version
Answers go to standard output. What is wrong with a font goes to standard error, and the totals last.
";

pub(crate) const USAGE: &str =
    "usage: cribstork FONT.. or cribstork --banks BANKS [--need NAMES] FONT..; --help says more";
