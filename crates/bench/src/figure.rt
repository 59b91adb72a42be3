// How fast a measurement went.
use std::fmt;
use std::time::Duration;

/// How many bytes a measurement went through, and in what time.
#[derive(Drop)]
pub struct Figure<'a> {
    pub name: &'a str,
    pub bytes: usize,
    pub time: Duration,
}

impl<'a> fmt::Display for Figure<'a> {
    // Bytes a microsecond are MB a second.
    fn fmt<W: fmt::Write>(&self, f: &mut fmt::Formatter<W>) -> fmt::Result {
        let micros = self.time.as_micros();
        if micros == 0 {
            return write!(f, "{}: too fast to measure", self.name);
        }
        let rate = self.bytes as u128 / micros;
        write!(f, "{}: {rate} MB/s", self.name)
    }
}

// Times the work and prints its figure; the value is the work's.
macro_rules! timed {
    ($rt:expr, $name:expr, $bytes:expr, $work:expr) => {{
        let start = std::time::Instant::now($rt)?;
        let done = $work;
        let figure = $crate::figure::Figure {
            name: $name,
            bytes: $bytes,
            time: start.elapsed($rt)?,
        };
        println!($rt; "{figure}")?;
        done
    }};
}

pub(crate) use timed;
