// Drills from their words to their output, over objects in memory.
use crate::{Status, keyd_now};
use disk_model::MemDisk;
use io_core::{ByteSink, ByteSource, Shelf};
use rand_pcg::Pcg32;
use space_head::SpaceInfo;
use std::alloc::{AllocError, Global};
use std::test::Fail;
use store_model::{Change, Contents, Mtr, Piece, fold, report};

const WORDS: &str = "drill --key-file keys1 --space 5:4:1:plain";

const KEYS: &[u8] = b"1;000102030405060708090a0b0c0d0e0f\n";

const PUT: &str = "mtr 1 put 5 1 38 616263\nsync\n";

// The words of a line.
fn statement_words(alloc: Global, line: &str) -> Result<Vec<String>, AllocError> {
    let mut words = Vec::new(alloc);
    for word in line.split(' ') {
        words.push(String::from_str(alloc, word)?)?;
    }
    Ok(words)
}

// A library with the key file `keys1`.
fn shelf(alloc: Global, failing: Vec<u64>) -> Result<Shelf, AllocError> {
    let mut files = Vec::new(alloc);
    files.push((
        String::from_str(alloc, "keys1")?,
        Vec::from_slice(alloc, KEYS)?,
    ))?;
    Ok(Shelf::new(files, failing))
}

// A status as its number and the index or line that it tells.
fn told(status: &Status) -> (u8, usize) {
    let detail = match status {
        Status::Usage(index) => *index,
        Status::KeyFile { index, .. } => *index,
        Status::NotBuilt(line) => *line as usize,
        _ => 0,
    };
    (status.number(), detail)
}

// What the command gives: its status and its output. The listed calls of the library, takes of the
// input and gives of the output fail.
fn outcome(
    alloc: Global,
    line: &str,
    script: &[u8],
    calls: Vec<u64>,
    takes: Vec<u64>,
    gives: Vec<u64>,
) -> Result<((u8, usize), Vec<u8>), Fail> {
    let words = statement_words(alloc, line)?;
    let mut files = shelf(alloc, calls)?;
    let mut input = ByteSource::new(Vec::from_slice(alloc, script)?, takes);
    let mut out = ByteSink::new(alloc, gives);
    let mut rng = Pcg32::new(42, 54);
    let disk = MemDisk::new(alloc, Vec::new(alloc));
    let ended = keyd_now(
        alloc, &words, disk, &mut files, &mut input, &mut out, &mut rng,
    );
    Ok((told(&ended.status), out.bytes().to_vec(alloc)?))
}

fn seen(alloc: Global, line: &str, script: &[u8]) -> Result<((u8, usize), Vec<u8>), Fail> {
    outcome(
        alloc,
        line,
        script,
        Vec::new(alloc),
        Vec::new(alloc),
        Vec::new(alloc),
    )
}

#[test]
fn a_drill_prints_its_session_and_the_pages_that_it_keeps(rt: HostRuntime) -> Result<(), Fail> {
    let alloc = rt.alloc();
    let used =
        "space 5 pages 4 key 1 plain floor 0\npage 1 type 0 38:616263\npage 2 unused\npage 3 unused\nend\n";
    let unused =
        "space 5 pages 4 key 1 plain floor 0\npage 1 unused\npage 2 unused\npage 3 unused\nend\n";
    let rows = [
        ("", "crash end choice l\njournal 1 acked 1 kept 1\n", used),
        (
            " --stop 1",
            "crash 1 choice l\njournal 1 acked 0 kept 0\n",
            unused,
        ),
        (
            " --stop 1 --choice k",
            "crash 1 choice k\njournal 1 acked 0 kept 1\n",
            used,
        ),
        (
            " --stop 1 --choice t",
            "crash 1 choice t\njournal 1 acked 0 kept 0\n",
            unused,
        ),
        (
            " --stop 2 --choice k",
            "crash 2 choice k\njournal 1 acked 0 kept 1\n",
            used,
        ),
        (
            " --stop 3 --choice t",
            "crash end choice t\njournal 1 acked 1 kept 1\n",
            used,
        ),
    ];
    for (options, lines, report) in rows {
        let mut line = String::from_str(alloc, WORDS)?;
        line.push_str(options)?;
        let (status, out) = seen(alloc, line.as_str(), PUT.as_bytes())?;
        let mut wanted = lines.as_bytes().to_vec(alloc)?;
        wanted.extend_from_slice(report.as_bytes())?;
        assert!(rt; status == (0, 0) && out == wanted, "at {options}");
    }
    Ok(())
}

#[test]
fn refusals_come_with_their_word_or_line(rt: HostRuntime) -> Result<(), Fail> {
    let alloc = rt.alloc();
    let rows: [(&str, &str, (u8, usize)); 18] = [
        ("drill", PUT, (2, 1)),
        ("drill --key-file", PUT, (2, 2)),
        ("drill --space 5:4:1:cipher", PUT, (2, 2)),
        ("drill --space 5:4:1:plain", PUT, (2, 3)),
        ("run", PUT, (2, 0)),
        ("drill --key-file keys2 --space 5:4:1:plain", PUT, (3, 0)),
        (WORDS, "mtr 1 put 5 1 38 aa\nflush\n", (4, 2)),
        (WORDS, "mtr 1 put 5 4 38 aa\n", (4, 1)),
        (WORDS, "mtr 1 put 5 1 38 a\n", (4, 1)),
        (WORDS, "# a comment\n\nmtr 1 put 5 1 38 aa\nsync", (0, 0)),
        (WORDS, "", (0, 0)),
        (WORDS, "sync\r\n", (4, 1)),
        (WORDS, "sync \n", (4, 1)),
        (WORDS, "sync\n mtr 1 put 5 1 38 aa\n", (4, 2)),
        (WORDS, "mtr 01 put 5 1 38 aa\n", (4, 1)),
        (WORDS, "mtr 1 put 5 1 37 aa\n", (4, 1)),
        (WORDS, "mtr 1 put 5 1 16375 aabb\n", (4, 1)),
        (WORDS, "mtr 1 put 5 1 16375 aa\n", (0, 0)),
    ];
    for (line, script, wanted) in rows {
        let (status, _) = seen(alloc, line, script.as_bytes())?;
        assert!(rt; status == wanted, "at {line} {script}: {status:?}");
    }
    Ok(())
}

#[test]
fn a_script_is_at_most_a_mebibyte_and_objects_may_fail(rt: HostRuntime) -> Result<(), Fail> {
    let alloc = rt.alloc();
    let mut script = vec![in alloc; b'#'; 1_048_576]?;
    assert_eq!(rt; seen(alloc, WORDS, &script)?.0, (0, 0));
    script.push(b'#')?;
    assert_eq!(rt; seen(alloc, WORDS, &script)?.0, (4, 0));
    for call in 1..3u64 {
        let calls = vec![in alloc; call]?;
        let file = outcome(
            alloc,
            WORDS,
            PUT.as_bytes(),
            calls,
            Vec::new(alloc),
            Vec::new(alloc),
        )?;
        assert!(rt; file.0 == (7, 0) && file.1.is_empty(), "at {call}");
    }
    let input = outcome(
        alloc,
        WORDS,
        PUT.as_bytes(),
        Vec::new(alloc),
        vec![in alloc; 1]?,
        Vec::new(alloc),
    )?;
    assert!(rt; input.0 == (7, 0) && input.1.is_empty());
    let output = outcome(
        alloc,
        WORDS,
        PUT.as_bytes(),
        Vec::new(alloc),
        Vec::new(alloc),
        vec![in alloc; 1]?,
    )?;
    assert_eq!(rt; output.0, (7, 0));
    Ok(())
}

// The mini-transactions of the scripts below, in order: a page, and the byte at its place 38. No two
// fronts of them leave the same pages.
const PUTS: [(u32, u8); 4] = [(1, 0x11), (2, 0x22), (1, 0x33), (2, 0x44)];

// Every script of one to four lines, a letter for each line: m for a mini-transaction, s for sync.
const SCRIPTS: [&str; 30] = [
    "m", "s", "mm", "ms", "sm", "ss", "mmm", "mms", "msm", "mss", "smm", "sms", "ssm", "sss",
    "mmmm", "mmms", "mmsm", "mmss", "msmm", "msms", "mssm", "msss", "smmm", "smms", "smsm", "smss",
    "ssmm", "ssms", "sssm", "ssss",
];

// Every choice of one to three letters.
const CHOICES: [&str; 39] = [
    "l", "k", "t", "ll", "lk", "lt", "kl", "kk", "kt", "tl", "tk", "tt", "lll", "llk", "llt",
    "lkl", "lkk", "lkt", "ltl", "ltk", "ltt", "kll", "klk", "klt", "kkl", "kkk", "kkt", "ktl",
    "ktk", "ktt", "tll", "tlk", "tlt", "tkl", "tkk", "tkt", "ttl", "ttk", "ttt",
];

fn script_of(alloc: Global, letters: &str) -> Result<String, AllocError> {
    let mut script = String::new(alloc);
    let mut puts = PUTS.iter();
    for letter in letters.bytes() {
        if letter == b's' {
            script.push_str("sync\n")?;
        } else if let Some((page, byte)) = puts.next() {
            let line = format!(in alloc; "mtr 1 put 5 {page} 38 {byte:x}\n")?;
            script.push_str(line.as_str())?;
        }
    }
    Ok(script)
}

// The report of the pages after the first so many mini-transactions.
fn report_of(alloc: Global, kept: usize) -> Result<Vec<u8>, Fail> {
    let mut mtrs = Vec::new(alloc);
    for (page, byte) in PUTS.iter().take(kept) {
        let change = Change::Put {
            space: 5,
            page: *page,
            at: 38,
            bytes: Piece::of(vec![in alloc; *byte]?),
        };
        mtrs.push(Mtr::of(vec![in alloc; change]?))?;
    }
    let space = SpaceInfo {
        space: 5,
        pages: 3,
        key_id: 1,
        salt: [0; 16],
        ciphered: false,
        floor: 0,
    };
    let contents = fold(alloc, &mtrs, Contents::empty(alloc, &[space])?)?;
    Ok(report(alloc, &contents)?)
}

// What a session comes to: the turns of its disk, whether it was stopped, its entries, those that are
// acknowledged, and the writes that no sync followed.
#[derive(Clone, Copy)]
struct Course {
    turns: u64,
    stopped: bool,
    journal: u64,
    acked: u64,
    unsynced: u64,
}

// A sync writes each entry that isn't acknowledged in a turn, and syncs the file in a turn more. With
// no such entry it does nothing.
fn synced(course: Course, stop: u64) -> Course {
    let pending = course.journal.saturating_sub(course.acked);
    if pending == 0 {
        return course;
    }
    let last = course.turns.saturating_add(pending).saturating_add(1);
    if course.turns < stop && stop <= last {
        return Course {
            stopped: true,
            unsynced: stop.saturating_sub(course.turns).min(pending),
            ..course
        };
    }
    Course {
        turns: last,
        acked: course.journal,
        ..course
    }
}

fn course_of(letters: &str, stop: u64) -> Course {
    let mut course = Course {
        turns: 0,
        stopped: false,
        journal: 0,
        acked: 0,
        unsynced: 0,
    };
    for letter in letters.bytes() {
        if course.stopped {
            return course;
        }
        if letter == b's' {
            course = synced(course, stop);
        } else {
            course.journal = course.journal.saturating_add(1);
        }
    }
    course
}

// How many entries the crash keeps: those that are acknowledged, and those whose writes are kept up to
// the first that isn't. The last letter serves the rest.
fn kept_of(course: &Course, choice: &str) -> u64 {
    let mut kept = course.acked;
    let mut letters = choice.bytes();
    let mut letter = b'l';
    for _ in 0..course.unsynced {
        if let Some(next) = letters.next() {
            letter = next;
        }
        if letter != b'k' {
            return kept;
        }
        kept = kept.saturating_add(1);
    }
    kept
}

// The lines of the session that the drill is to print.
fn lines_of(alloc: Global, course: &Course, stop: u64, choice: &str) -> Result<String, AllocError> {
    let mut lines = if course.stopped {
        format!(in alloc; "crash {stop} choice {choice}\n")?
    } else {
        format!(in alloc; "crash end choice {choice}\n")?
    };
    let journal = course.journal;
    let acked = course.acked;
    let kept = kept_of(course, choice);
    let counts = format!(in alloc; "journal {journal} acked {acked} kept {kept}\n")?;
    lines.push_str(counts.as_str())?;
    Ok(lines)
}

fn options_of(alloc: Global, stop: u64, choice: &str) -> Result<String, AllocError> {
    let words = "drill --key-file keys1 --space 5:3:1:plain --stop";
    format!(in alloc; "{words} {stop} --choice {choice}")
}

// Whether the drill prints its lines, and the report of the mini-transactions that it keeps.
fn is_as_wanted(
    alloc: Global,
    reports: &[Vec<u8>],
    letters: &str,
    stop: u64,
    choice: &str,
) -> Result<bool, Fail> {
    let script = script_of(alloc, letters)?;
    let options = options_of(alloc, stop, choice)?;
    let (status, out) = seen(alloc, options.as_str(), script.as_bytes())?;
    let course = course_of(letters, stop);
    let Some(report) = reports.get(kept_of(&course, choice) as usize) else {
        return Ok(false);
    };
    let mut wanted = lines_of(alloc, &course, stop, choice)?
        .as_bytes()
        .to_vec(alloc)?;
    wanted.extend_from_slice(report)?;
    Ok(status == (0, 0) && out == wanted)
}

// Whether a choice is tried: each at a stop that is met, and past the last turn one.
fn is_tried(course: &Course, stop: u64, choice: &str) -> bool {
    course.stopped || stop == 6 && choice == "k"
}

// The first choice at which the drill isn't as wanted.
fn first_wrong(
    alloc: Global,
    reports: &[Vec<u8>],
    letters: &str,
    stop: u64,
) -> Result<Option<&'static str>, Fail> {
    let course = course_of(letters, stop);
    for choice in CHOICES {
        if is_tried(&course, stop, choice)
            && !is_as_wanted(alloc, reports, letters, stop, choice)?
        {
            return Ok(Some(choice));
        }
    }
    Ok(None)
}

#[test]
fn a_crash_keeps_what_was_acknowledged_and_a_front_of_the_rest(
    rt: HostRuntime,
) -> Result<(), Fail> {
    let alloc = rt.alloc();
    let mut reports = Vec::new(alloc);
    for kept in 0..5 {
        reports.push(report_of(alloc, kept)?)?;
    }
    for letters in SCRIPTS {
        for stop in 1..7 {
            let wrong = first_wrong(alloc, &reports, letters, stop)?;
            assert!(rt; wrong.is_none(), "at {letters} {stop}: {wrong:?}");
        }
    }
    Ok(())
}
