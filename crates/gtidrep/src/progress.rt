//! How much was read so far, told on a terminal.
ghost use Rattle.std.specs.Prelude.{◌≡◌};

use commands::{Failed, Source};
use std::io::IsTerminal;
use std::time::{Clock, Duration};

/// Between two lines of progress lie at least so many seconds.
const PAUSE_SECONDS: u64 = 1;

/// How many bytes were read, and when that was told last. What is told is shorter than any line that may come after it, and no line is
/// ended: what is printed next takes its place.
#[derive(Clone, Copy, Drop)]
pub struct Progress<'a> {
    rt: &'a HostRuntime,
    /// It is told: standard error is a terminal.
    is_told: bool,
    /// A line of progress stands there.
    is_shown: bool,
    bytes: u64,
    told_at: Duration,
}

impl<'a> Progress<'a> {
    /// Nothing was read yet. It will be told if that is wished and standard error is a terminal.
    pub fn new(rt: &'a HostRuntime, is_wished: bool) -> Progress<'a> {
        let start = rt.monotonic();
        Progress {
            rt,
            is_told: is_wished && start.is_ok() && rt.stderr().is_terminal(),
            is_shown: false,
            bytes: 0,
            told_at: start.unwrap_or(Duration::ZERO),
        }
    }

    /// Tells how many bytes were read, in millions.
    fn tell(&mut self) {
        let _ = eprint!(self.rt; "{} MB\r", self.bytes / 1_000_000);
        self.is_shown = true;
    }

    /// Takes away what was told.
    pub fn end(&mut self) {
        if self.is_shown {
            let _ = eprint!(self.rt; "                       \r");
            self.is_shown = false;
        }
    }

    /// So many bytes were read, none at the end of what is read.
    fn add(&mut self, bytes: usize) {
        if !self.is_told {
            return;
        }
        if bytes == 0 {
            return self.end();
        }
        self.bytes = self.bytes.saturating_add(bytes as u64);
        let Ok(now) = self.rt.monotonic() else {
            return;
        };
        if now.saturating_sub(self.told_at).as_secs() >= PAUSE_SECONDS {
            self.told_at = now;
            self.tell();
        }
    }
}

/// A reader whose progress is told.
#[derive(Drop)]
pub struct ToldSource<'a, S> {
    pub source: S,
    pub progress: Progress<'a>,
}

impl<'a, S: Source> Source for ToldSource<'a, S> {
    ghost left = { λ s. S.left s.source };

    ghost failed = { λ s. S.failed s.source };

    fn read(&mut self, buffer: &mut [u8]) -> Result<usize, Failed> {
        match self.source.read(buffer) {
            Ok(bytes) => {
                self.progress.add(bytes);
                Ok(bytes)
            }
            Err(failed) => Err(failed),
        }
    }
}
