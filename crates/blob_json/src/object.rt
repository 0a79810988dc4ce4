//! Objects, field by field.
use crate::text::push_text;
use itoa::Buffer;
use std::alloc::{AllocError, Global};

/// An object that is printed.
#[derive(Drop)]
pub struct Object {
    text: Vec<u8>,
}

fn push_number(number: u64, to: &mut Vec<u8>) -> Result<(), AllocError> {
    let mut buffer = Buffer::new();
    to.extend_from_slice(buffer.format(number).as_bytes())?;
    Ok(())
}

fn push_run(run: (u64, u64), to: &mut Vec<u8>) -> Result<(), AllocError> {
    to.push(b'[')?;
    push_number(run.0, to)?;
    to.extend_from_slice(b", ")?;
    push_number(run.1, to)?;
    to.push(b']')?;
    Ok(())
}

impl Object {
    /// Begins an object.
    pub fn new(alloc: Global) -> Result<Object, AllocError> {
        Ok(Object {
            text: Vec::from_slice(alloc, b"{")?,
        })
    }

    pub fn allocator(&self) -> Global {
        *self.text.allocator()
    }

    /// Begins a field.
    fn name(&mut self, name: &str) -> Result<(), AllocError> {
        if self.text.len() > 1 {
            self.text.extend_from_slice(b", ")?;
        }
        push_text(name.as_bytes(), &mut self.text)?;
        self.text.extend_from_slice(b": ")?;
        Ok(())
    }

    /// Adds a text.
    pub fn text(&mut self, name: &str, value: &str) -> Result<(), AllocError> {
        self.name(name)?;
        push_text(value.as_bytes(), &mut self.text)
    }

    /// Adds a number.
    pub fn number(&mut self, name: &str, value: u64) -> Result<(), AllocError> {
        self.name(name)?;
        push_number(value, &mut self.text)
    }

    /// Adds a number, or null.
    pub fn optional(&mut self, name: &str, value: Option<u64>) -> Result<(), AllocError> {
        match value {
            Some(value) => self.number(name, value),
            None => self.null(name),
        }
    }

    /// Adds null.
    pub fn null(&mut self, name: &str) -> Result<(), AllocError> {
        self.name(name)?;
        self.text.extend_from_slice(b"null")?;
        Ok(())
    }

    /// Adds a truth value.
    pub fn truth(&mut self, name: &str, value: bool) -> Result<(), AllocError> {
        self.name(name)?;
        self.text
            .extend_from_slice(if value { b"true" } else { b"false" })?;
        Ok(())
    }

    /// Adds a list of two numbers, or null.
    pub fn pair(&mut self, name: &str, value: Option<(u64, u64)>) -> Result<(), AllocError> {
        match value {
            Some(pair) => {
                self.name(name)?;
                push_run(pair, &mut self.text)
            }
            None => self.null(name),
        }
    }

    /// Adds runs, each a list of its start and its end.
    pub fn runs(&mut self, name: &str, runs: &[(u64, u64)]) -> Result<(), AllocError> {
        self.name(name)?;
        self.text.push(b'[')?;
        let mut comma: &[u8] = b"";
        for run in runs {
            self.text.extend_from_slice(comma)?;
            push_run(*run, &mut self.text)?;
            comma = b", ";
        }
        self.text.push(b']')?;
        Ok(())
    }

    /// Adds a list of the lines of a text that begin with `# `, without that.
    pub fn remarks(&mut self, name: &str, lines: &[u8]) -> Result<(), AllocError> {
        self.name(name)?;
        self.text.push(b'[')?;
        let mut comma: &[u8] = b"";
        for line in lines.split(|byte| *byte == b'\n') {
            if let Some(remark) = line.strip_prefix(b"# ") {
                self.text.extend_from_slice(comma)?;
                push_text(remark, &mut self.text)?;
                comma = b", ";
            }
        }
        self.text.push(b']')?;
        Ok(())
    }

    /// Ends it, and appends its line.
    pub fn end(self, to: &mut Vec<u8>) -> Result<(), AllocError> {
        to.extend_from_slice(&self.text)?;
        to.extend_from_slice(b"}\n")?;
        Ok(())
    }
}
