//! Random transactions of a few statements.
use crate::counts::{Counts, add};
use crate::mode::below;
use crate::state::{Entry, State};
use rand_xoshiro::Xoshiro256PlusPlus;
use sqlite::{Alter, Connection};
use std::alloc::{AllocError, Global};

/// The statements of a transaction, and the rows after it.
#[derive(Drop)]
struct Transaction {
    sql: String,
    rows: Vec<Entry>,
}

impl Transaction {
    fn insert(&mut self, alloc: Global, row: Entry) -> Result<(), AllocError> {
        let (id, value) = (row.id, row.value);
        let text = format!(in alloc; "INSERT INTO t VALUES ({id}, {value}, '")?;
        self.sql.push_str(&text)?;
        for _ in 0..row.padding {
            self.sql.push_str("x")?;
        }
        self.sql.push_str("');")?;
        self.rows.push(row)?;
        Ok(())
    }

    fn update(&mut self, alloc: Global, at: usize, value: i64) -> Result<(), AllocError> {
        let Some(row) = self.rows.get_mut(at) else {
            return Ok(());
        };
        row.value = value;
        let id = row.id;
        let text = format!(in alloc; "UPDATE t SET value = {value} WHERE id = {id};")?;
        self.sql.push_str(&text)?;
        Ok(())
    }

    fn delete(&mut self, alloc: Global, at: usize) -> Result<(), AllocError> {
        if at >= self.rows.len() {
            return Ok(());
        }
        let id = self.rows.remove(at).id;
        let text = format!(in alloc; "DELETE FROM t WHERE id = {id};")?;
        self.sql.push_str(&text)?;
        Ok(())
    }

    fn step(
        &mut self,
        alloc: Global,
        rng: &mut Xoshiro256PlusPlus,
        id: i64,
    ) -> Result<(), AllocError> {
        let value = below(rng, 1_000_000) as i64;
        let kind = below(rng, 5);
        let len = self.rows.len() as u64;
        if kind < 3 || len == 0 {
            let padding = below(rng, 1500) as i64;
            return self.insert(alloc, Entry { id, value, padding });
        }
        let at = below(rng, len) as usize;
        if kind == 3 {
            self.update(alloc, at, value)
        } else {
            self.delete(alloc, at)
        }
    }
}

fn drawn(
    alloc: Global,
    rng: &mut Xoshiro256PlusPlus,
    rows: &[Entry],
    next_id: &mut i64,
) -> Result<Transaction, AllocError> {
    let mut transaction = Transaction {
        sql: String::from_str(alloc, "BEGIN;")?,
        rows: Vec::from_slice(alloc, rows)?,
    };
    let steps = below(rng, 6);
    for _ in 0..=steps {
        transaction.step(alloc, rng, *next_id)?;
        *next_id = next_id.wrapping_add(1);
    }
    transaction.sql.push_str("COMMIT")?;
    Ok(transaction)
}

/// Runs a transaction and returns whether it succeeds. If it fails, the rows after it are in doubt.
fn commits<S: Alter>(
    conn: &mut Connection<S>,
    sql: &str,
    rows: Vec<Entry>,
    state: &mut State,
    counts: &mut Counts,
) -> bool {
    if conn.execute_batch(sql).is_err() {
        add(&mut counts.failed);
        state.doubt = Some(Some(rows));
        return false;
    }
    add(&mut counts.commits);
    state.rows = Some(rows);
    true
}

const TABLE: &str = "CREATE TABLE t (id INTEGER PRIMARY KEY, value INTEGER NOT NULL, padding TEXT)";

/// Runs a few transactions until one fails. Creates the table first if it doesn't exist.
pub fn fill<S: Alter>(
    alloc: Global,
    conn: &mut Connection<S>,
    rng: &mut Xoshiro256PlusPlus,
    state: &mut State,
    counts: &mut Counts,
) -> Result<(), AllocError> {
    if state.rows.is_none() && !commits(conn, TABLE, Vec::new(alloc), state, counts) {
        return Ok(());
    }
    let most = below(rng, 12);
    for _ in 0..most {
        let Some(rows) = &state.rows else {
            return Ok(());
        };
        let Transaction { sql, rows } = drawn(alloc, rng, rows, &mut state.next_id)?;
        if !commits(conn, &sql, rows, state, counts) {
            return Ok(());
        }
    }
    Ok(())
}
