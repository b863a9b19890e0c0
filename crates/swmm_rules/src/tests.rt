//! Runs with texts written by hand, and when rows reach the output.
ghost use Rattle.std.specs.Prelude.{◌≡◌};

use crate::run;
use byte_edge::{Failed, Files, MemoryFiles, MemorySink, NoMemory, Sink};
use command_outputs::Status;
use std::alloc::Global;
use std::cell::Cell;
use std::test::Fail;

/// Files that count their reads where the sink sees the count too.
#[derive(Drop)]
struct CountedFiles<'a, F: Files + Drop> {
    inner: F,
    reads: &'a Cell<u64>,
}

impl<'a, F: Files + Drop> Files for CountedFiles<'a, F> {
    ghost is_open = { λ files. F.is_open files.inner };

    ghost left = { λ files. F.left files.inner };

    ghost held = { λ files. F.held files.inner };

    ghost faults = { λ files. F.faults files.inner };

    fn open_file(&mut self, slot: usize, name: &str) -> Result<(), Failed> {
        self.inner.open_file(slot, name)
    }

    fn read(&mut self, slot: usize, into: &mut [u8]) -> Result<usize, Failed> {
        self.reads.set(self.reads.get().saturating_add(1));
        self.inner.read(slot, into)
    }
}

/// A sink that keeps, for each number of reads, how many bytes it took after so many.
#[derive(Drop)]
struct LoggedSink<'a, S: Sink + Drop> {
    inner: S,
    reads: &'a Cell<u64>,
    taken: [usize; 16],
}

impl<'a, S: Sink + Drop> Sink for LoggedSink<'a, S> {
    ghost written = { λ sink. S.written sink.inner };

    ghost faults = { λ sink. S.faults sink.inner };

    fn write(&mut self, bytes: &[u8]) -> Result<usize, Failed> {
        let count = self.inner.write(bytes)?;
        let reads = self.reads.get() as usize;
        if reads < 16 {
            self.taken[reads] = self.taken[reads].saturating_add(count);
        }
        Ok(count)
    }
}

/// An input file of a pump and a rule, which takes seven reads; a trace of a header and three rows
/// of 22 bytes each; ranges, and a report of a state in which the rule acts.
fn files(alloc: Global) -> Result<MemoryFiles, NoMemory> {
    let mut held = Vec::new(alloc);
    let input = Vec::from_slice(
        alloc,
        b"[JUNCTIONS]\nN1 0\n[PUMPS]\nP1 N1 N2 C OFF\n[CONTROLS]\nRULE R1\nIF NODE N1 DEPTH > 5\n\
          THEN PUMP P1 STATUS = ON\nELSE PUMP P1 STATUS = OFF\n",
    )?;
    let trace = Vec::from_slice(
        alloc,
        b"moment, NODE N1 DEPTH\n2001-06-15T00:00:00,4\n2001-06-15T00:05:00,6\n\
          2001-06-15T00:10:00,5\n",
    )?;
    let ranges = Vec::from_slice(alloc, b"NODE N1 DEPTH 0 10\n")?;
    let report = Vec::from_slice(
        alloc,
        b"report 1\nquestion dead 1\nrefuted\nvalue NODE N1 DEPTH 6\nend\n",
    )?;
    held.push((String::from_str(alloc, "in")?, input))?;
    held.push((String::from_str(alloc, "trace")?, trace))?;
    held.push((String::from_str(alloc, "ranges")?, ranges))?;
    held.push((String::from_str(alloc, "report")?, report))?;
    Ok(MemoryFiles::new(held, 22, Vec::new(alloc)))
}

/// What is said of words that are no command.
const USAGE: &[u8] = b"usage: check IN\n       tables IN\n       replay IN TRACE\n       \
                      prove IN RANGES\n       verify IN RANGES REPORT\n       gen N\n";

/// What the replay of the rule over the rows prints.
const REPLAYED: &[u8] = b"moment,P1\n2001-06-15T00:00:00,0\n2001-06-15T00:05:00,1\n\
                          2001-06-15T00:10:00,0\n";

/// The report of the one question of the ranges.
const PROVED: &[u8] = b"report 2\nquestion dead 1\nrefuted\nvalue NODE N1 DEPTH 0\nend\n";

/// The words of a command.
fn words(alloc: Global, texts: &[&str]) -> Result<Vec<String>, NoMemory> {
    let mut words = Vec::new(alloc);
    for text in texts {
        words.push(String::from_str(alloc, text)?)?;
    }
    Ok(words)
}

/// The input file takes seven reads, and the trace one read a line and one at its end. Each line's
/// text is taken before the next read.
#[test]
fn rows_are_written_before_the_next_read(rt: HostRuntime) -> Result<(), Fail> {
    let alloc = rt.alloc();
    let reads = Cell::new(0);
    let mut files = CountedFiles {
        inner: files(alloc)?,
        reads: &reads,
    };
    let mut out = LoggedSink {
        inner: MemorySink::new(alloc, 100, 100, Vec::new(alloc))?,
        reads: &reads,
        taken: [0; 16],
    };
    let mut err = MemorySink::new(alloc, 100, 100, Vec::new(alloc))?;
    let words = words(alloc, &["replay", "in", "trace"])?;
    let status = run(alloc, &words, &mut files, &mut out, &mut err);
    assert!(rt; status == Status::Done);
    assert!(rt; out.inner.written() == REPLAYED);
    assert!(rt; out.taken == [0, 0, 0, 0, 0, 0, 0, 0, 10, 22, 22, 22, 0, 0, 0, 0]);
    assert!(rt; err.written().is_empty());
    Ok(())
}

#[test]
fn check_counts_and_other_words_are_the_usage(rt: HostRuntime) -> Result<(), Fail> {
    let alloc = rt.alloc();
    let mut out = MemorySink::new(alloc, 100, 100, Vec::new(alloc))?;
    let mut err = MemorySink::new(alloc, 140, 140, Vec::new(alloc))?;
    let checked = words(alloc, &["check", "in"])?;
    let status = run(alloc, &checked, &mut files(alloc)?, &mut out, &mut err);
    assert!(rt; status == Status::Done);
    assert!(rt; out.written() == b"rules 1 names 0 objects 2\n".as_slice());
    let other = words(alloc, &["check"])?;
    let status = run(alloc, &other, &mut files(alloc)?, &mut out, &mut err);
    assert!(rt; status == Status::Usage);
    assert!(rt; err.written() == USAGE);
    Ok(())
}

/// At the lowest depth the rule acts by its ELSE, so it is not dead.
#[test]
fn prove_writes_the_report_of_the_questions(rt: HostRuntime) -> Result<(), Fail> {
    let alloc = rt.alloc();
    let mut out = MemorySink::new(alloc, 100, 100, Vec::new(alloc))?;
    let mut err = MemorySink::new(alloc, 100, 100, Vec::new(alloc))?;
    let words = words(alloc, &["prove", "in", "ranges"])?;
    let status = run(alloc, &words, &mut files(alloc)?, &mut out, &mut err);
    assert!(rt; status == Status::Refuted);
    assert!(rt; out.written() == PROVED);
    assert!(rt; err.written().is_empty());
    Ok(())
}

/// The rule acts in a state of the ranges, so it is not dead.
#[test]
fn verify_counts_the_entries_of_a_report(rt: HostRuntime) -> Result<(), Fail> {
    let alloc = rt.alloc();
    let mut out = MemorySink::new(alloc, 100, 100, Vec::new(alloc))?;
    let mut err = MemorySink::new(alloc, 100, 100, Vec::new(alloc))?;
    let words = words(alloc, &["verify", "in", "ranges", "report"])?;
    let status = run(alloc, &words, &mut files(alloc)?, &mut out, &mut err);
    assert!(rt; status == Status::Refuted);
    assert!(rt; out.written() == b"verified holds 0 refuted 1 undecided 0\n".as_slice());
    assert!(rt; err.written().is_empty());
    Ok(())
}
