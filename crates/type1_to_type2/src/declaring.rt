// The declared stems, written before the path (document 01, "Stems and masks").
ghost use Rattle.std.specs.Prelude.{◌≡◌, ◌≤◌, length};
ghost use Rattle.outline.specs.Outline.{plus_zero};
ghost use Rattle.type1_to_type2.specs.Table.{table_stems};
ghost use Rattle.type1_to_type2.specs.Streaming.{Puts, Still, Begins, Stemmed, stems_written};
ghost use Rattle.type1_to_type2.specs.Entry.{Declares};

use crate::tables::table_stem;
use crate::writing::{T2_HSTEM, T2_HSTEMHM, T2_VSTEM, T2_VSTEMHM, put_byte, put_number};
use crate::{StemWriter, Writer};
use outline::Stem;

// Before a stem: an operator that takes no more is written, and the next one starts from 0.
fn begin_stem(op: u8, s: StemWriter, out: &mut [u8]) -> StemWriter
    ensures { Begins op s out.old result out.new }
{
    if s.left != 0 {
        return s;
    }
    let w = s.w;
    StemWriter {
        w: put_byte(op, w, out),
        from: 0.0,
        left: 23,
    }
}

// A stem's first edge and width.
fn write_stem(op: u8, x: Stem, s: StemWriter, out: &mut [u8]) -> StemWriter
    requires { s.left ≤ 23 }
    ensures { Stemmed op x s out.old result out.new }
{
    let b = begin_stem(op, s, out);
    let w = b.w;
    let first = put_number(x.pos - b.from, w, out);
    let second = put_number(x.width, first, out);
    StemWriter {
        w: second,
        from: type2::quantize(x.pos) + type2::quantize(x.width),
        left: b.left - 1,
    }
}

// n stems of a table, 23 to an operator.
fn write_stems(
    op: u8,
    horizontal: bool,
    n: usize,
    table: &[f64; 192],
    w: Writer,
    out: &mut [u8],
) -> Writer
    requires { n ≤ 96 }
    ensures puts { Puts (λ f left. stems_written op (table_stems horizontal n table.now) 23 plus_zero left f)
        w out.old result out.new }
    ensures still { Still w result }
{
    let mut s = StemWriter {
        w,
        from: 0.0,
        left: 23,
    };
    for i in 0..n {
        let x = table_stem(horizontal, i, table);
        s = write_stem(op, x, s, out);
    }
    let v = s.w;
    if s.left == 23 {
        return v;
    }
    put_byte(op, v, out)
}

// The stems of both tables, from the start of the output.
pub(crate) fn write_front(
    masked: bool,
    na: usize,
    nu: usize,
    across: &[f64; 192],
    upright: &[f64; 192],
    out: &mut [u8],
) -> Writer
    requires { (na ≤ 96) × (nu ≤ 96) }
    ensures declares { Declares masked na nu across.now upright.now (length out.old) result out.new }
    ensures out_len_unchanged { length out.new ≡ length out.old }
{
    let w = Writer {
        next: Ok(0),
        x: 0.0,
        y: 0.0,
        waits: 0,
        held: 0,
    };
    if masked {
        let a = write_stems(T2_HSTEMHM, true, na, across, w, out);
        return write_stems(T2_VSTEMHM, false, nu, upright, a, out);
    }
    let a = write_stems(T2_HSTEM, true, na, across, w, out);
    write_stems(T2_VSTEM, false, nu, upright, a, out)
}
