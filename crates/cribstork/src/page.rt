// Printing by way of a page: bytes wait in it and are written together.
use std::fmt;
use std::fmt::Display;
use std::io::Write;

// Where bytes go.
#[derive(Clone, Copy, PartialEq, Eq)]
enum To {
    Output,
    Errors,
}

impl To {
    // The most bytes that wait.
    fn room(self) -> usize {
        match self {
            To::Output => 65530,
            To::Errors => 4090,
        }
    }

    // Writes bytes, or stops at the first write that fails; the answer is whether all were written.
    fn write(self, rt: HostRuntime, bytes: &[u8]) -> bool {
        let written = match self {
            To::Output => rt.stdout().write_all(bytes),
            To::Errors => rt.stderr().write_all(bytes),
        };
        written.is_ok()
    }
}

// Clears the line of standard error, where that is asked.
pub(crate) fn clear_line(rt: &HostRuntime, asked: bool) {
    if asked {
        To::Errors.write(*rt, b"\r\x1b[K");
    }
}

#[derive(Drop)]
pub(crate) struct Page {
    rt: HostRuntime,
    to: To,
    waiting: Vec<u8>,
    // A write failed, or there was no memory for a byte.
    failed: bool,
    // A line of standard error that shows progress is cleared before what waits is written.
    clears: bool,
}

impl Page {
    fn new(rt: &HostRuntime, to: To) -> Page {
        Page {
            rt: *rt,
            to,
            waiting: Vec::new(rt.alloc()),
            failed: false,
            clears: false,
        }
    }

    // A page for standard output, and a smaller one for standard error.
    pub(crate) fn output(rt: &HostRuntime) -> Page {
        Page::new(rt, To::Output)
    }

    pub(crate) fn errors(rt: &HostRuntime) -> Page {
        Page::new(rt, To::Errors)
    }

    pub(crate) fn set_clears(&mut self, clears: bool) {
        self.clears = clears;
    }

    pub(crate) fn has_failed(&self) -> bool {
        self.failed
    }

    // Writes what waits.
    pub(crate) fn flush(&mut self) {
        clear_line(&self.rt, self.clears);
        if !self.to.write(self.rt, self.waiting.as_slice()) {
            self.failed = true;
        }
        self.waiting.clear();
    }

    fn byte(&mut self, b: u8) {
        if self.waiting.len() >= self.to.room() {
            self.flush();
        }
        if self.waiting.push(b).is_err() {
            self.failed = true;
        }
    }

    // What `write!` calls. The program goes on after a write that fails, so this gives no `Result`.
    pub(crate) fn write_fmt<D: Display + Drop>(&mut self, text: D) {
        let _ = fmt::Write::write(self, text);
    }

    // A name or a path. A byte that would break a line or a column is shown as '?'.
    pub(crate) fn name(&mut self, s: &[u8]) {
        for b in s {
            self.byte(if b.is_ascii_control() { b'?' } else { *b });
        }
    }

    // A name, and spaces up to a width.
    pub(crate) fn left(&mut self, s: &[u8], width: usize) {
        self.name(s);
        let rest = width.saturating_sub(s.len());
        write!(self, "{:rest$}", "");
    }

    // Bytes on a line of their own; nothing where there are none.
    pub(crate) fn hex_line(&mut self, v: &[u8]) {
        if v.is_empty() {
            return;
        }
        write!(self, "    ");
        for b in v {
            write!(self, "{b:02x}");
        }
        write!(self, "\n");
    }
}

impl fmt::Write for Page {
    fn write_str(&mut self, s: &str) -> fmt::Result {
        for b in s.as_bytes() {
            self.byte(*b);
        }
        Ok(())
    }
}
