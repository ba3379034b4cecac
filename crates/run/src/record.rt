// The files that a run is recorded in.
use crate::options::Options;
use first::state::Core;
use std::fs::File;
use std::io::{BufWriter, Write};
use std::{fs, io};
use testbench::failure::Failure;
use testbench::session::{Clock, Session};
use waves::commit::CommitLog;
use waves::sample::Sample;
use waves::vcd::{Dump, Header, Time};

// Apart from LogFile: of what either does only the field `file` is the same.
#[derive(Drop)]
struct WaveFile {
    file: BufWriter<File>,
    dump: Dump,
    // As the next clock begins.
    core: Core,
}

impl WaveFile {
    fn create(rt: &HostRuntime, path: &str, session: &Session) -> Result<WaveFile, Failure> {
        let mut file = create(rt, path)?;
        let header = Header;
        write!(file, "{header}")?;
        Ok(WaveFile {
            file,
            dump: Dump::new(),
            core: Core::load(session.core()).ok_or(Failure::NoCore)?,
        })
    }

    fn add(&mut self, session: &Session, clock: &Clock) -> Result<(), Failure> {
        let sample = Sample::new(&self.core, &clock.inputs, &clock.outputs);
        let changes = self.dump.clock(clock.number, sample);
        write!(self.file, "{changes}")?;
        self.core = Core::load(session.core()).ok_or(Failure::NoCore)?;
        Ok(())
    }

    // The time at which the last clock ends.
    fn finish(&mut self, clocks: u64) -> io::Result<()> {
        let end = Time(clocks);
        writeln!(self.file, "{end}")?;
        self.file.flush()
    }
}

#[derive(Drop)]
struct LogFile {
    file: BufWriter<File>,
    log: CommitLog,
}

impl LogFile {
    fn create(rt: &HostRuntime, path: &str) -> Result<LogFile, Failure> {
        let file = create(rt, path)?;
        let log = CommitLog::new();
        Ok(LogFile { file, log })
    }

    fn add(&mut self, session: &Session, clock: &Clock) -> io::Result<()> {
        for retired in clock.done() {
            let word = session.world.code.get(retired.pc / 4);
            let commit = self.log.commit(*retired, word);
            writeln!(self.file, "{commit}")?;
        }
        Ok(())
    }
}

// What is recorded, if anything.
#[derive(Drop)]
pub struct Recorder {
    waves: Option<WaveFile>,
    log: Option<LogFile>,
}

impl Recorder {
    // Makes the files that are asked for.
    pub fn create(
        rt: &HostRuntime,
        options: &Options,
        session: &Session,
    ) -> Result<Recorder, Failure> {
        let vcd = options.vcd.as_ref();
        let waves = vcd
            .map(|path| WaveFile::create(rt, path, session))
            .transpose()?;
        let log = options.log.as_ref();
        let log = log.map(|path| LogFile::create(rt, path)).transpose()?;
        Ok(Recorder { waves, log })
    }

    // A clock, and the session after it.
    pub(crate) fn add(&mut self, session: &Session, clock: &Clock) -> Result<(), Failure> {
        if let Some(waves) = &mut self.waves {
            waves.add(session, clock)?;
        }
        if let Some(log) = &mut self.log {
            log.add(session, clock)?;
        }
        Ok(())
    }

    // Writes what is left, after the last clock.
    pub fn finish(mut self, clocks: u64) -> io::Result<()> {
        if let Some(waves) = &mut self.waves {
            waves.finish(clocks)?;
        }
        if let Some(log) = &mut self.log {
            log.file.flush()?;
        }
        Ok(())
    }
}

fn create(rt: &HostRuntime, path: &str) -> Result<BufWriter<File>, Failure> {
    let heap = rt.alloc();
    let file = fs::create(rt, path).try_map_err(|e| Ok(Failure::Input(format!(in heap;
        "{path}: {e}"
    )?)))?;
    Ok(BufWriter::new(heap, file)?)
}
