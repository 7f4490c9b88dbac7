// The question whether a sheet is read: kind 1 of docs/REPLIES.md.
ghost use Rattle.std.specs.Prelude.{ℕ, ◌<◌, ◌≤◌, get_or};
ghost use Rattle.text.specs.Text.{SameBuffer};

use crate::put_refusal;
use sheet::Table;
use text::Text;

// A job: its level, and its operations.
fn put_job(table: &Table, job: usize, out: &mut Text<'_>)
    requires { (job < 32) × ((j : ℕ) → get_or table.now.count j 0 ≤ 16) }
    ensures { SameBuffer out.old out.new }
{
    out.put_word(b" : ");
    out.put_number(u64::from(table.level[job]));
    let first = 16 * job;
    let last = first + usize::from(table.count[job]);
    let objects = &table.object[first..last];
    for (kind, object) in table.kind[first..last].iter().zip(objects) {
        // A kind is a byte in the table.
        let letter = if *kind == 1 { b'R' } else { b'W' };
        out.put(b' ');
        out.put(letter);
        out.put_number(u64::from(*object));
    }
}

// The declared numbers, and the jobs.
fn put_table(table: &Table, out: &mut Text<'_>)
    requires { (table.now.jobs ≤ 32) × ((j : ℕ) → get_or table.now.count j 0 ≤ 16) }
    ensures { SameBuffer out.old out.new }
{
    out.put_word(b"read ");
    out.put_number(table.jobs as u64);
    out.put(b' ');
    out.put_number(table.objects as u64);
    for j in 0..table.jobs {
        put_job(table, j, out);
    }
}

pub fn put_answer(sheet: &[u8], out: &mut Text<'_>)
    ensures { SameBuffer out.old out.new }
{
    let read = sheet::read_sheet(sheet);
    match read.reading {
        Ok(()) => put_table(&read.table, out),
        Err(r) => put_refusal(r, out),
    }
}
