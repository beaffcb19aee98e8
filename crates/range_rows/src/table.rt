//! A table: a file with rows of one kind of call.
use crate::row::Row;
use std::alloc::Global;
use std::rt::Files;
use std::{fs, io};

/// A kind of call.
pub trait Table {
    /// The file with its rows.
    fn file(&self) -> &'static str;

    /// Whether a row holds. It is none where the row can't be read.
    fn holds(&self, alloc: Global, row: &mut Row) -> Option<bool>;
}

/// Whether all rows of these tables hold. Those that don't are named, and each table has a line that
/// counts its rows.
pub fn all_hold<T: Table>(
    rt: &(impl Files + Print + AllocGlobal),
    tables: &[T],
) -> io::Result<bool> {
    let mut all = true;
    for table in tables {
        if !table_holds(rt, table)? {
            all = false;
        }
    }
    Ok(all)
}

// Whether the rows of a table hold, and the wrong ones don't.
fn table_holds<T: Table>(rt: &(impl Files + Print + AllocGlobal), table: &T) -> io::Result<bool> {
    let (mut right, mut wrong, mut failed) = (0u64, 0u64, 0u64);
    let text = fs::read_to_string(rt, table.file())?;
    for (number, line) in text.lines().enumerate() {
        if line.is_empty() || line.starts_with('#') {
            continue;
        }
        let (is_wrong, row) = match line.strip_prefix('!') {
            Some(row) => (true, row),
            None => (false, line),
        };
        if answer(table, rt.alloc(), row) != Some(!is_wrong) {
            failed = failed.saturating_add(1);
            println!(rt; "{}:{}: {line}", table.file(), number.saturating_add(1))?;
        } else if is_wrong {
            wrong = wrong.saturating_add(1);
        } else {
            right = right.saturating_add(1);
        }
    }
    println!(rt;
        "{}: {right} hold, {wrong} don't, as they should",
        table.file()
    )?;
    Ok(failed == 0 && right > 0 && wrong > 0)
}

// Whether the row of this line holds, and all of it is read.
fn answer<T: Table>(table: &T, alloc: Global, line: &str) -> Option<bool> {
    let mut row = Row::new(line);
    let holds = table.holds(alloc, &mut row)?;
    Some(holds && row.is_read())
}
