// Scripts that are read, bad lines, and lines that a store refuses.
use crate::{
    Act, LineFault, Refused, Script, ScriptChange, ScriptFault, Why, check_script, read_script,
};
use space_head::SpaceInfo;
use std::alloc::{AllocError, Global};
use std::test::Fail;

const SPACES: [SpaceInfo; 2] = [
    SpaceInfo {
        space: 5,
        pages: 4,
        key_id: 1,
        salt: [7; 16],
        ciphered: true,
        floor: 1,
    },
    SpaceInfo {
        space: 9,
        pages: 2,
        key_id: 1,
        salt: [7; 16],
        ciphered: false,
        floor: 0,
    },
];

// A text that is short enough is read.
fn read(alloc: Global, text: &[u8]) -> Result<Script, ScriptFault> {
    if text.len() > 1_048_576 {
        return Err(ScriptFault::TooMany);
    }
    read_script(alloc, text)
}

// How a text is read: the lines of its statements, or its fault.
fn script_lines(alloc: Global, text: &[u8]) -> Result<Result<Vec<u32>, ScriptFault>, AllocError> {
    let script = match read(alloc, text) {
        Ok(script) => script,
        Err(fault) => return Ok(Err(fault)),
    };
    let mut lines = Vec::new(alloc);
    for statement in script.statements() {
        lines.push(statement.line)?;
    }
    Ok(Ok(lines))
}

fn fault_of(alloc: Global, text: &[u8]) -> Option<ScriptFault> {
    read(alloc, text).err()
}

fn bad(line: u32, kind: LineFault) -> Option<ScriptFault> {
    Some(ScriptFault::BadLine { line, kind })
}

#[test]
fn each_bad_line_has_its_first_fault(rt: HostRuntime) -> Result<(), Fail> {
    let alloc = rt.alloc();
    let tables = [
        (
            LineFault::Word,
            "sink\nSYNC\n sync\nsync\r\nmtr 1 write 5 1 38 aa\nmtr 1  put 5 1 38 aa\nmtr 1 PUT 5 1 38 aa\nmtr 1 put 5 1 38 aa ; ;\nmtr 1 put 5 1 38 aa ; ",
        ),
        (
            LineFault::Number,
            "mtr one put 5 1 38 aa\nmtr 01 put 5 1 38 aa\nmtr  1 put 5 1 38 aa\nmtr +1 put 5 1 38 aa\nmtr 1 put -5 1 38 aa\nmtr 1 put 5 x 38 aa\nmtr 1 put 5 1 3a aa\nmtr 1 fill x 1 38 4 41\nmtr 1 fill 5 x 38 4 41\nmtr 1 fill 5 1 x 4 41\nmtr 1 fill 5 1 38 x 41\nmtr 1 kind x 1 10\nmtr 1 kind 5 x 10\nmtr 1 kind 5 1 sys\nread x 5 1 38 1\nread 1 x 1 38 1\nread 1 5 x 38 1\nread 1 5 1 x 1\nread 1 5 1 38 1\r\nread 1 5 1 38 \ntake x 5 8\ntake 1 x 8\ntake 1 5 08\nput x\nput \nactivate v\nencrypt s\nrotate 00\nreport x",
        ),
        (
            LineFault::Range,
            "mtr 0 put 5 1 38 aa\nmtr 17 put 5 1 38 aa\nmtr 1 put 4294967296 1 38 aa\nmtr 1 put 5 4294967296 38 aa\nmtr 1 put 5 1 4294967296 aa\nmtr 1 fill 4294967296 1 38 4 41\nmtr 1 fill 5 4294967296 38 4 41\nmtr 1 fill 5 1 4294967296 4 41\nmtr 1 fill 5 1 38 4294967296 41\nmtr 1 kind 4294967296 1 10\nmtr 1 kind 5 4294967296 10\nmtr 1 kind 5 1 8\nmtr 1 kind 5 1 9\nmtr 1 kind 5 1 65536\nread 0 5 1 38 1\nread 17 5 1 38 1\nread 1 4294967296 1 38 1\nread 1 5 4294967296 38 1\nread 1 5 1 4294967296 1\nread 1 5 1 38 0\nread 1 5 1 38 16339\ntake 0 5 8\ntake 17 5 8\ntake 1 4294967296 8\ntake 1 5 0\ntake 1 5 65\nput 0\nput 17\nactivate 4294967296\nencrypt 4294967296\nrotate 4294967296\nreport 4294967296",
        ),
        (
            LineFault::Hex,
            "mtr 1 put 5 1 38 a\nmtr 1 put 5 1 38 ag\nmtr 1 put 5 1 38  aa\nmtr 1 put 5 1 38 \nmtr 1 put 5 1 38 aa\r\nmtr 1 fill 5 1 38 4 4\nmtr 1 fill 5 1 38 4 4142\nmtr 1 fill 5 1 38 4 \nmtr 1 put 5 1 38 aa;",
        ),
        (
            LineFault::Missing,
            "mtr\nmtr 1\nmtr 1 put\nmtr 1 put 5\nmtr 1 put 5 1\nmtr 1 put 5 1 38\nmtr 1 fill\nmtr 1 fill 5\nmtr 1 fill 5 1\nmtr 1 fill 5 1 38\nmtr 1 fill 5 1 38 4\nmtr 1 kind\nmtr 1 kind 5\nmtr 1 kind 5 1\nmtr 1 put 5 1 38 aa ;\nmtr 1 put 5 1 38 aa ; put\nread\nread 1\nread 1 5\nread 1 5 1\nread 1 5 1 38\ntake\ntake 1\ntake 1 5\nput\nactivate\nencrypt\nrotate\nreport",
        ),
        (
            LineFault::Extra,
            "mtr 1 put 5 1 38 aa put 5 1 39 bb\nmtr 1 put 5 1 38 aa \nmtr 1 fill 5 1 38 4 41 42\nmtr 1 fill 5 1 38 4 41 \nmtr 1 kind 5 1 10 11\nmtr 1 kind 5 1 10 \nread 1 5 1 38 1 2\nsync \nsync now\nflush all\ncheck 1\ntake 1 5 8 9\nactivate 2 3\nencrypt 5 5\nrotate 5 5\nreport 5 5",
        ),
        (LineFault::Batch, "put 1\nput 16\nput 1 2"),
    ];
    for (kind, lines) in tables {
        for line in lines.split('\n') {
            let found = fault_of(alloc, line.as_bytes());
            assert!(rt; found == bad(1, kind), "at {line}: {found:?}");
        }
    }
    Ok(())
}

#[test]
fn lines_are_counted_and_the_first_bad_one_is_answered(rt: HostRuntime) -> Result<(), Fail> {
    let alloc = rt.alloc();
    let batch = LineFault::Batch;
    let rows = [
        ("", Ok(vec![in alloc; 0u32; 0]?)),
        ("\n\n", Ok(vec![in alloc; 0u32; 0]?)),
        ("# only\n#\n", Ok(vec![in alloc; 0u32; 0]?)),
        ("sync", Ok(vec![in alloc; 1]?)),
        ("# a\n\nsync\nflush\n\ncheck", Ok(vec![in alloc; 3, 4, 6]?)),
        (
            "mtr 16 put 5 1 38 aA ; fill 5 1 39 0 41 ; kind 5 1 65535\n",
            Ok(vec![in alloc; 1]?),
        ),
        (
            "read 1 4294967295 0 0 16338\nactivate 0\nencrypt 5\nrotate 5\nreport 5\n",
            Ok(vec![in alloc; 1, 2, 3, 4, 5]?),
        ),
        (
            "take 1 5 64\nput 1\ntake 1 5 1\ntake 16 5 1\nput 16\nput 1\n",
            Ok(vec![in alloc; 1, 2, 3, 4, 5, 6]?),
        ),
        (
            "sync\nmtr 1 put 5 1 38 a\nsink\n",
            Err(ScriptFault::BadLine {
                line: 2,
                kind: LineFault::Hex,
            }),
        ),
        (
            "sync\n# b\n sync\n",
            Err(ScriptFault::BadLine {
                line: 3,
                kind: LineFault::Word,
            }),
        ),
        (
            "take 1 5 8\ntake 1 5 8\n",
            Err(ScriptFault::BadLine {
                line: 2,
                kind: batch,
            }),
        ),
        (
            "take 1 5 8\ntake 1 x 8\n",
            Err(ScriptFault::BadLine {
                line: 2,
                kind: batch,
            }),
        ),
        (
            "take 2 5 8\nput 2\nput 2\n",
            Err(ScriptFault::BadLine {
                line: 3,
                kind: batch,
            }),
        ),
        (
            "take 1 5 8\nput 1 2\n",
            Err(ScriptFault::BadLine {
                line: 2,
                kind: LineFault::Extra,
            }),
        ),
        (
            "take 1 5 8\ntake 1 5 8 9\n",
            Err(ScriptFault::BadLine {
                line: 2,
                kind: batch,
            }),
        ),
        (
            "take 2 5 8\nput 1\n",
            Err(ScriptFault::BadLine {
                line: 2,
                kind: batch,
            }),
        ),
    ];
    for (text, wanted) in rows {
        let found = script_lines(alloc, text.as_bytes())?;
        assert!(rt; found == wanted, "at {text}: {found:?}");
    }
    Ok(())
}

// A mini-transaction of so many changes.
fn changes(alloc: Global, count: usize) -> Result<String, AllocError> {
    let mut line = String::from_str(alloc, "mtr 1 put 5 1 38 aa")?;
    for _ in 1..count {
        line.push_str(" ; put 5 1 38 aa")?;
    }
    Ok(line)
}

// So many statements.
fn statements(alloc: Global, count: usize) -> Result<String, AllocError> {
    let mut text = String::new(alloc);
    for _ in 0..count {
        text.push_str("sync\n")?;
    }
    Ok(text)
}

#[test]
fn changes_and_statements_are_so_many_at_most(rt: HostRuntime) -> Result<(), Fail> {
    let alloc = rt.alloc();
    assert!(rt; fault_of(alloc, changes(alloc, 64)?.as_bytes()) == None);
    assert!(rt; fault_of(alloc, changes(alloc, 65)?.as_bytes()) == bad(1, LineFault::TooMany));
    assert!(rt; fault_of(alloc, statements(alloc, 10_000)?.as_bytes()) == None);
    let mut text = statements(alloc, 10_001)?;
    assert!(rt; fault_of(alloc, text.as_bytes()) == Some(ScriptFault::TooMany));
    text.push_str("sink")?;
    assert!(rt; fault_of(alloc, text.as_bytes()) == bad(10_002, LineFault::Word));
    Ok(())
}

fn page(space: u32, page: u32) -> Why {
    Why::NoSuchPage { space, page }
}

fn range(at: u32, length: usize) -> Why {
    Why::BadRange { at, length }
}

#[test]
fn a_store_refuses_the_first_line_that_it_cannot_run(rt: HostRuntime) -> Result<(), Fail> {
    let alloc = rt.alloc();
    let rows = [
        ("mtr 1 put 5 1 37 aa", false, Some((1, range(37, 1)))),
        ("mtr 1 put 5 1 16376 aa", false, Some((1, range(16_376, 1)))),
        ("mtr 1 put 5 1 16375 aa", false, None),
        (
            "mtr 1 put 5 1 16375 aabb",
            false,
            Some((1, range(16_375, 2))),
        ),
        ("mtr 1 put 5 4 38 aa", false, Some((1, page(5, 4)))),
        ("mtr 1 put 5 0 38 aa", false, Some((1, page(5, 0)))),
        ("mtr 1 put 5 3 38 aa ; kind 9 1 10", true, None),
        ("mtr 1 fill 5 1 38 0 41", false, Some((1, range(38, 0)))),
        ("mtr 1 fill 5 1 38 16338 41", false, None),
        (
            "mtr 1 fill 5 1 38 16339 41",
            false,
            Some((1, range(38, 16_339))),
        ),
        (
            "mtr 1 fill 5 1 38 4294967295 41",
            false,
            Some((1, range(38, 4_294_967_295))),
        ),
        (
            "sync\nread 1 5 1 38 16338\nread 1 5 1 39 16338",
            false,
            Some((3, range(39, 16_338))),
        ),
        ("read 1 5 0 38 1", false, Some((1, page(5, 0)))),
        ("read 1 5 4 37 1", false, Some((1, page(5, 4)))),
        (
            "read 1 6 0 37 1",
            false,
            Some((1, Why::NoSuchSpace { space: 6 })),
        ),
        // Each refusal over all changes, before the next.
        (
            "mtr 1 put 5 1 37 aa ; put 5 0 38 aa ; put 6 1 38 aa",
            false,
            Some((1, Why::NoSuchSpace { space: 6 })),
        ),
        (
            "mtr 1 put 5 1 37 aa ; put 5 0 38 aa",
            false,
            Some((1, page(5, 0))),
        ),
        ("take 1 6 8", true, Some((1, Why::NoSuchSpace { space: 6 }))),
        ("encrypt 6", false, Some((1, Why::NoSuchSpace { space: 6 }))),
        ("rotate 6", false, Some((1, Why::NoSuchSpace { space: 6 }))),
        ("report 6", false, Some((1, Why::NoSuchSpace { space: 6 }))),
        (
            "take 1 5 8\nput 1\nactivate 2\nencrypt 9\nrotate 5\nreport 5\nsync\nflush\ncheck",
            false,
            None,
        ),
        ("read 1 5 1 38 1\nsync", true, Some((2, Why::NotInRun))),
        ("take 1 5 8", true, Some((1, Why::NotInRun))),
        // 16 blocks hold 65,216 bytes.
        (
            "mtr 1 fill 5 1 38 16300 41 ; fill 5 1 38 16300 41 ; fill 5 1 38 16300 41 ; fill 5 1 38 16248 41",
            false,
            None,
        ),
        (
            "mtr 1 fill 5 1 38 16300 41 ; fill 5 1 38 16300 41 ; fill 5 1 38 16300 41 ; fill 5 1 38 16249 41",
            false,
            Some((1, Why::TooLong { blocks: 17 })),
        ),
    ];
    for (text, running, refused) in rows {
        let script = read(alloc, text.as_bytes())?;
        let wanted = match refused {
            None => Ok(()),
            Some((line, why)) => Err(Refused { line, why }),
        };
        let found = check_script(&script, &SPACES, running);
        assert!(rt; found == wanted, "at {text}: {found:?}");
    }
    Ok(())
}

#[test]
fn a_script_is_cut_at_its_statements(rt: HostRuntime) -> Result<(), Fail> {
    let alloc = rt.alloc();
    let text =
        "sync\n# c\nmtr 1 put 5 1 38 aa ; fill 5 2 38 3 41 ; kind 5 1 10\nread 1 5 1 38 4\ntake 1 5 8\nput 1\n";
    let script = read(alloc, text.as_bytes())?;
    assert!(rt; script.count() == 5);
    if script.count() < 4 {
        return Ok(());
    }
    let cut = script.cut(alloc, 1, 4)?;
    let [mtr, read, take] = cut.statements() else {
        return Err(Fail::from("other statements"));
    };
    assert!(rt; mtr.line == 3 && read.line == 4 && take.line == 5);
    let Act::Mtr { session, changes } = &mtr.act else {
        return Err(Fail::from("another statement"));
    };
    assert!(rt; *session == 1 && changes.changes().len() == 3);
    let [
        ScriptChange::Put { bytes, .. },
        ScriptChange::Fill {
            page,
            length,
            byte,
            ..
        },
        ScriptChange::Kind { space, kind, .. },
    ] = changes.changes()
    else {
        return Err(Fail::from("other changes"));
    };
    assert!(rt; bytes.bytes() == [0xaa].as_slice());
    assert!(rt; *page == 2 && *length == 3 && *byte == 0x41);
    assert!(rt; *space == 5 && *kind == 10);
    Ok(())
}
