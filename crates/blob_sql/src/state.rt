//! The rows that the table must have, and reading them.
use crate::counts::{Counts, add};
use sqlite::{Alter, Connection, Error};
use std::alloc::Global;

#[derive(Clone, Copy, Debug, PartialEq, Eq)]
pub struct Entry {
    pub id: i64,
    pub value: i64,
    /// The length of its text, so that rows fill pages.
    pub padding: i64,
}

/// The rows, or `None` without a table.
pub type Rows = Option<Vec<Entry>>;

/// The committed rows, and those that a failed transaction may have left instead.
#[derive(Debug, Drop)]
pub struct State {
    pub rows: Rows,
    pub doubt: Option<Rows>,
    pub next_id: i64,
}

impl State {
    pub fn new() -> State {
        State {
            rows: None,
            doubt: None,
            next_id: 1,
        }
    }

    /// Returns whether these rows are possible. If so, they are the committed rows from now on.
    pub fn takes(&mut self, found: Rows, counts: &mut Counts) -> bool {
        let doubt = self.doubt.take();
        if doubt.is_some() {
            add(&mut counts.doubt);
        }
        if found == self.rows {
            return true;
        }
        let is_kept = match &doubt {
            Some(rows) => rows == &found,
            None => false,
        };
        if is_kept {
            add(&mut counts.kept);
        }
        self.rows = found;
        is_kept
    }
}

fn has_table<S: Alter>(conn: &mut Connection<S>) -> Result<bool, Error> {
    let tables: i64 = conn
        .query_row("SELECT count(*) FROM sqlite_schema WHERE name = 't'", &[])?
        .get(0)?;
    Ok(tables != 0)
}

fn rows<S: Alter>(alloc: Global, conn: &mut Connection<S>) -> Result<Vec<Entry>, Error> {
    let found = conn.query_all("SELECT id, value, length(padding) FROM t ORDER BY id", &[])?;
    let mut rows = Vec::new(alloc);
    for row in &found {
        rows.push(Entry {
            id: row.get(0)?,
            value: row.get(1)?,
            padding: row.get(2)?,
        })?;
    }
    Ok(rows)
}

/// Reads all rows of the database.
pub fn read<S: Alter>(alloc: Global, conn: &mut Connection<S>) -> Result<Rows, Error> {
    if !has_table(conn)? {
        return Ok(None);
    }
    Ok(Some(rows(alloc, conn)?))
}
