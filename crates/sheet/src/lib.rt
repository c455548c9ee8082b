// The sheet reader: bytes in, a checked table out (section 6 of the rules); they are only read (rule 9.3). The sheet writer: a checked table
// in, its sheet out into lent bytes (section 15 of the rules).
#![tactic(auto)]

ghost use Rattle.std.specs.Prelude.{◌≡◌, true, [], ◌∷◌, ◌+◌, ◌*◌, ◌≤◌, ◌<◌, length};
ghost use Rattle.rules.specs.Lists.{joined};
ghost use Rattle.rules.specs.Rows.{rows_of};
ghost use Rattle.rules.specs.Checks.{Refused};
ghost use Rattle.rules.specs.Tables.{zero_table};
ghost use Rattle.texts.specs.Fields.{line};
ghost use Rattle.texts.specs.Sheets.{is_line, number_at, column_of, table_in, read_checked, read_of, row_line, sheet_of, check_write, write_of};
ghost use Rattle.fields.specs.Texts.{Puts};
ghost use Rattle.sheet.specs.Lines.{lines_ok, Lined};

use fields::Text;
use rules::{Check, Reading, Refusal, Table, Writing};

// k fields and a line end are well formed from byte start on.
fn line_ok(bytes: &[u8], start: usize, k: usize) -> bool
    requires { (k ≤ 6) × (start + 8 * k < length bytes.now) }
    ensures { result ≡ is_line bytes.now start k }
{
    for j in 0..k {
        if !fields::field_ok(bytes, start + 8 * j) {
            return false;
        }
    }
    bytes[start + 8 * k] == 10
}

// The lines of all n rows are well formed; row 1's starts at byte 33, after the first line (rules 6.5, 6.6).
fn lines_ok(bytes: &[u8], n: usize) -> bool
    requires { (n ≤ 64) × (length bytes.now ≡ 33 + 49 * n) }
    ensures { result ≡ lines_ok bytes.now n }
{
    for i in 0..n {
        if !line_ok(bytes, 33 + 49 * i, 6) {
            return false;
        }
    }
    true
}

// The j-th figures (from 1) of the n rows, zeros after.
fn column(bytes: &[u8], n: usize, j: usize) -> [u32; 64]
    requires { Lined bytes.now n × (1 ≤ j) × (j ≤ 6) }
    ensures { result ≡ column_of bytes.now n j }
{
    let mut figures = [0u32; 64];
    for i in 0..n {
        figures[i] = fields::number(bytes, 33 + 49 * i + 8 * (j - 1));
    }
    figures
}

// The table that well-formed lines state: n, N, G and K on the first, then the rows (rules 6.5, 6.6).
fn table_in(bytes: &[u8], n: u32) -> Table
    requires { Lined bytes.now n × (is_line bytes.now 0 4 ≡ true) × (n ≡ number_at bytes.now 0 1) }
    ensures { result ≡ table_in bytes.now }
{
    let rows = n as usize;
    Table {
        n,
        normal: fields::number(bytes, 8),
        degraded: fields::number(bytes, 16),
        loading: fields::number(bytes, 24),
        release: column(bytes, rows, 1),
        work: column(bytes, rows, 2),
        deadline: column(bytes, rows, 3),
        level: column(bytes, rows, 4),
        promised: column(bytes, rows, 5),
        follows: column(bytes, rows, 6),
    }
}

// A refusal, with the table of zeros.
fn refused(why: Refusal) -> Reading
    ensures { result ≡ read_checked (Refused why) zero_table }
{
    let zeros = [0u32; 64];
    let table = Table {
        n: 0,
        normal: 0,
        degraded: 0,
        loading: 0,
        release: zeros,
        work: zeros,
        deadline: zeros,
        level: zeros,
        promised: zeros,
        follows: zeros,
    };
    Reading {
        check: Err(why),
        table,
    }
}

// The table with its check, or the refusal.
fn answer(check: Check, table: Table) -> Reading
    ensures { result ≡ read_checked check table }
{
    match check {
        Err(why) => refused(why),
        Ok(()) => Reading {
            check: Ok(()),
            table,
        },
    }
}

// The reader's answer for any bytes: the first check that fails, with the table of zeros, or the table (rules 6.8, 11.2).
// Checks 4, 11, 5, 12 and 13 to 15 come last.
pub fn read(bytes: &[u8]) -> Reading
    ensures { result ≡ read_of bytes.now }
{
    if bytes.len() < 33 {
        return refused(Refusal::Length); // 1, under the 33 bytes of a first line
    }
    if !line_ok(bytes, 0, 4) {
        return refused(Refusal::Malformed); // 2, in the first line
    }
    let n = fields::number(bytes, 0);
    if !checks::count_ok(n) {
        return refused(Refusal::RowCount); // 3
    }
    let rows = n as usize;
    if bytes.len() != 33 + 49 * rows {
        return refused(Refusal::Length); // 1, for other than 33 + 49 n bytes (rule 6.7)
    }
    if !lines_ok(bytes, rows) {
        return refused(Refusal::Malformed); // 2, in a row
    }
    let table = table_in(bytes, n);
    answer(checks::check_table(&table), table)
}

// The line of the row at index k: release, work, deadline, level, promised part, the row that it follows.
fn put_row(text: &mut Text, t: &Table, k: usize)
    requires { (k < 64) × (text.old.at + 49 ≤ length text.old.out.now) }
    ensures { Puts text.old text.new (row_line t.now (k + 1)) }
{
    text.put_line([
        t.release[k],
        t.work[k],
        t.deadline[k],
        t.level[k],
        t.promised[k],
        t.follows[k],
    ]);
}

// The lines of all rows, row 1 first.
fn put_rows(text: &mut Text, t: &Table)
    requires { (t.now.n ≤ 64) × (text.old.at + 49 * t.now.n ≤ length text.old.out.now) }
    ensures { Puts text.old text.new (joined (row_line t.now) (rows_of t.now)) }
{
    for k in 0..t.n as usize {
        put_row(text, t, k);
    }
}

// The sheet of a table: the line of n, N, G and K, then the lines of the rows.
fn put_sheet(text: &mut Text, t: &Table)
    requires { (t.now.n ≤ 64) × (text.old.at + (33 + 49 * t.now.n) ≤ length text.old.out.now) }
    ensures { Puts text.old text.new (sheet_of t.now) }
{
    text.put_line([t.n, t.normal, t.degraded, t.loading]);
    put_rows(text, t);
}

// The writer's checks: 3, 4, 11, 5, 12, 13 to 15, then 10 for a sheet of 33 + 49 n bytes (rules 6.7, 11.6).
fn check_write(t: Table, room: usize) -> Check
    ensures { result ≡ check_write t room }
{
    let size = 33 + 49 * t.n as usize;
    checks::check_table(&t).and(checks::check_room(size, room))
}

// The writer's answer for any table and any lent bytes: the sheet from byte 0 on and its length, the bytes after it as they were; or the
// first check that fails, length 0 and all bytes as they were (rules 15.2 to 15.5, 11.6).
pub fn write(t: Table, out: &mut [u8]) -> Writing
    ensures { let back = write_of t out.old in (result ≡ back.said) × (out.new ≡ back.bytes) }
{
    let check = check_write(t, out.len());
    match check {
        Err(why) => Writing {
            check: Err(why),
            size: 0,
        },
        Ok(()) => {
            let mut text = Text { out, at: 0 };
            put_sheet(&mut text, &t);
            Writing {
                check: Ok(()),
                size: text.at as u32,
            }
        }
    }
}
